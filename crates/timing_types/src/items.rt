//! Lists.

ghost use Rattle.std.specs.Prelude.{◌≡◌, [], ◌∷◌, ◌++◌, length, slice_get, option_copied, IfOk, OnOk, OnErr};

use crate::same::{Same, are_same};
use std::alloc::{AllocError, Global};
use std::marker::Model;

/// A `Vec` that contracts see as the list of its elements.
#[derive(Debug, Drop)]
pub struct Items<T> {
    items: Vec<T>,
}

impl<T> Model for Items<T> {
    ghost use Rattle.std.specs.Prelude.{List};
    ghost use Rattle.std.specs.Coded.{coded_list};

    ghost Value = { List T };

    ghost coded = { coded_list T.code };

    ghost view = { λ list. list.items.items };
}

impl<T> Items<T> {
    /// The empty list. Takes no memory.
    pub fn new(alloc: Global) -> Items<T>
        ensures { result ≡ [] }
    {
        Items {
            items: Vec::new(alloc),
        }
    }

    /// The list of a `Vec`'s elements. Takes no memory.
    pub fn from_vec(items: Vec<T>) -> Items<T>
        ensures { result ≡ items.items }
    {
        Items { items }
    }

    /// Gives the `Vec` back. Takes no memory.
    pub fn into_vec(self) -> Vec<T>
        ensures { result.items ≡ self }
    {
        let Items { items } = self;
        items
    }

    /// The items.
    pub fn as_slice(&self) -> &[T]
        ensures { result.now ≡ self.now }
    {
        self.items.as_slice()
    }

    /// How many items there are.
    pub fn len(&self) -> usize
        ensures { result ≡ length self.now }
    {
        self.items.len()
    }

    /// The item at `i`, from 0; `None` past the last.
    pub fn get(&self, i: usize) -> Option<&T>
        ensures { option_copied result ≡ slice_get self.now i }
    {
        self.items.get(i)
    }
}

impl<T: Drop> Items<T> {
    /// Puts an item after the last; where memory runs out the list stays as it was.
    pub fn push(&mut self, item: T) -> Result<(), AllocError>
        ensures ok { OnOk result (self.new ≡ self.old ++ item ∷ []) }
        ensures err { OnErr result (self.new ≡ self.old) }
    {
        self.items.push(item)?;
        Ok(())
    }

    /// The list of one item.
    pub fn of(alloc: Global, item: T) -> Result<Items<T>, AllocError>
        ensures { IfOk result (λ list. list ≡ item ∷ []) }
    {
        let mut list = Items::new(alloc);
        list.push(item)?;
        Ok(list)
    }
}

impl<T: Copy> Items<T> {
    /// A list of the same items.
    pub fn copy(&self, alloc: Global) -> Result<Items<T>, AllocError>
        ensures { IfOk result (λ list. list ≡ self.now) }
    {
        Ok(Items {
            items: Vec::from_slice(alloc, self.as_slice())?,
        })
    }
}

impl<T: Same> Same for Items<T> {
    fn is_same(&self, other: &Items<T>) -> bool {
        are_same(self.as_slice(), other.as_slice())
    }
}
