//! Compound selectors.

ghost use Rattle.std.specs.Prelude.{◌≡◌, ◌≤◌, length, option_map, IfOk, OnOk};
ghost use Rattle.selectors_mini.specs.Compounds.{any_element, of_type, followed_by, compound_with_class, compound_with_id};

use crate::combinator::Combinator;
use crate::ident::{Ident, copy_idents};
use std::alloc::{AllocError, Global};
use std::marker::Model;

/// How many classes, and how many ids, a compound holds at most: as many as the longest text has bytes. Adding one
/// more answers want of memory.
pub const MAX_PARTS: usize = 67_108_864;

/// A compound selector: what it names must all hold of one element (Selectors Level 4, section 3.1). Contracts see
/// the type, the ids and the classes as bytes.
#[derive(Drop)]
pub struct Compound {
    tag: Option<Ident>,
    ids: Vec<Ident>,
    classes: Vec<Ident>,
    next: Option<Combinator>,
}

impl Model for Compound {
    ghost use Rattle.selectors_mini.specs.Compounds.{CompoundSelector, IsBounded};

    ghost Value = { CompoundSelector };

    ghost view = { λ c. record { tag = c.tag; ids = c.ids.items; classes = c.classes.items; next = c.next } };

    ghost invariant = { λ c. IsBounded c.ids.items c.classes.items };
}

impl Compound {
    /// The compound that names nothing, as `*` does. Takes no memory.
    pub(crate) fn any_element(alloc: Global) -> Compound
        ensures { result ≡ any_element }
    {
        Compound {
            tag: None,
            ids: Vec::new(alloc),
            classes: Vec::new(alloc),
            next: None,
        }
    }

    /// The compound that names the type alone.
    pub(crate) fn of_type(alloc: Global, name: &[u8]) -> Result<Compound, AllocError>
        ensures { IfOk result (λ c. c ≡ of_type name.now) }
    {
        let tag = Ident::from_bytes(alloc, name)?;
        Ok(Compound {
            tag: Some(tag),
            ids: Vec::new(alloc),
            classes: Vec::new(alloc),
            next: None,
        })
    }

    pub(crate) fn add_id(&mut self, alloc: Global, name: &[u8]) -> Result<(), AllocError>
        ensures { OnOk result (self.new ≡ compound_with_id self.old name.now) }
    {
        if self.ids.len() >= MAX_PARTS {
            return Err(AllocError);
        }
        let id = Ident::from_bytes(alloc, name)?;
        self.ids.push(id)?;
        Ok(())
    }

    pub(crate) fn add_class(&mut self, alloc: Global, name: &[u8]) -> Result<(), AllocError>
        ensures { OnOk result (self.new ≡ compound_with_class self.old name.now) }
    {
        if self.classes.len() >= MAX_PARTS {
            return Err(AllocError);
        }
        let class = Ident::from_bytes(alloc, name)?;
        self.classes.push(class)?;
        Ok(())
    }

    /// The same compound, with another that stands to it by this combinator.
    pub(crate) fn followed_by(self, combinator: Combinator) -> Compound
        ensures { result ≡ followed_by self combinator }
    {
        let mut compound = self;
        compound.next = Some(combinator);
        compound
    }

    /// The type that it names, where it names one.
    pub fn tag(&self) -> Option<&[u8]>
        ensures { option_map (λ tag. tag.now) result ≡ self.now.tag }
    {
        match &self.tag {
            None => None,
            Some(tag) => Some(tag.as_bytes()),
        }
    }

    /// The ids that it names.
    pub fn ids(&self) -> &[Ident]
        ensures value { result.now ≡ self.now.ids }
        ensures bound { length result.now ≤ MAX_PARTS }
    {
        self.ids.as_slice()
    }

    /// The classes that it names.
    pub fn classes(&self) -> &[Ident]
        ensures value { result.now ≡ self.now.classes }
        ensures bound { length result.now ≤ MAX_PARTS }
    {
        self.classes.as_slice()
    }

    /// How the next compound stands to it; `None` at the last.
    pub fn next(&self) -> Option<Combinator>
        ensures { result ≡ self.now.next }
    {
        self.next
    }

    /// An equal compound.
    pub fn copy(&self, alloc: Global) -> Result<Compound, AllocError>
        ensures { IfOk result (λ c. c ≡ self.now) }
    {
        let ids = copy_idents(alloc, self.ids())?;
        let classes = copy_idents(alloc, self.classes())?;
        Ok(Compound {
            tag: copy_tag(alloc, &self.tag)?,
            ids,
            classes,
            next: self.next,
        })
    }
}

fn copy_tag(alloc: Global, tag: &Option<Ident>) -> Result<Option<Ident>, AllocError>
    ensures { IfOk result (λ copy. copy ≡ tag.now) }
{
    match tag {
        None => Ok(None),
        Some(tag) => Ok(Some(tag.copy(alloc)?)),
    }
}
