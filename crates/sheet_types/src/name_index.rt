//! Selectors by a name.
ghost use Rattle.std.specs.Prelude.{◌≡◌, None, OnOk, position};
ghost use Rattle.sheet_types.specs.Index.{IsAligned, IsPutUnder, HoldsNothing, held_under, is_named};

use crate::selector_place::SelectorPlace;
use indexmap::IndexSet;
use std::alloc::{AllocError, Global};

/// The places of selectors by a name, in the order in which they were put.
#[derive(Drop)]
pub struct NameIndex {
    names: IndexSet<Vec<u8>>,
    /// The places by the index of the name.
    lists: Vec<Vec<SelectorPlace>>,
}

impl NameIndex {
    pub(crate) fn empty(alloc: Global) -> NameIndex
        ensures aligned { IsAligned result }
        ensures value { HoldsNothing result }
    {
        NameIndex {
            names: IndexSet::new(alloc),
            lists: Vec::new(alloc),
        }
    }

    /// The places under the name.
    pub(crate) fn get(&self, name: &[u8]) -> &[SelectorPlace]
        requires { IsAligned self.now }
        ensures { result.now ≡ held_under self.now name.now }
    {
        match self.names.get_index_of(name) {
            Some(at) => self.lists[at].as_slice(),
            None => &[],
        }
    }

    /// Puts a place under the name, after those that stand there.
    pub(crate) fn put(
        &mut self,
        alloc: Global,
        name: &[u8],
        place: SelectorPlace,
    ) -> Result<(), AllocError>
        requires { IsAligned self.old }
        ensures aligned { OnOk result (IsAligned self.new) }
        ensures value { OnOk result (IsPutUnder self.old name.now place self.new) }
    {
        match self.names.get_index_of(name) {
            Some(at) => {
                self.lists[at].push(place)?;
                Ok(())
            }
            None => self.put_new(alloc, name, place),
        }
    }

    fn put_new(
        &mut self,
        alloc: Global,
        name: &[u8],
        place: SelectorPlace,
    ) -> Result<(), AllocError>
        requires aligned { IsAligned self.old }
        requires absent { position (is_named name.now) self.old.names.keys ≡ None }
        ensures aligned { OnOk result (IsAligned self.new) }
        ensures value { OnOk result (IsPutUnder self.old name.now place self.new) }
    {
        let key = Vec::from_slice(alloc, name)?;
        let list = Vec::from_slice(alloc, &[place])?;
        let Ok(_) = self.names.insert(key) else {
            return Err(AllocError);
        };
        self.lists.push(list)?;
        Ok(())
    }
}
