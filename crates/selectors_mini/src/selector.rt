//! Selectors, and their specificity.

ghost use Rattle.std.specs.Prelude.{◌≡◌, ◌≤◌, ◌^◌, ◌<◌, ◌-◌, length, IfOk, Some};
ghost use Rattle.selectors_mini.specs.Compounds.{IsShort, specificity_of, subject_of};

use crate::compound::Compound;
use std::alloc::{AllocError, Global};
use std::marker::Model;

/// How many compounds a selector has at most.
pub const MAX_COMPOUNDS: usize = 16;

/// A complex selector (Selectors Level 4, section 3.1): 1 to 16 compounds, which contracts see as their list from
/// the left.
#[derive(Drop)]
pub struct Selector {
    compounds: Vec<Compound>,
}

impl Model for Selector {
    ghost use Rattle.std.specs.Prelude.{List};
    ghost use Rattle.selectors_mini.specs.Compounds.{CompoundSelector, IsShort};

    ghost Value = { List CompoundSelector };

    ghost view = { λ s. s.compounds.items };

    ghost invariant = { λ s. IsShort s.compounds.items };
}

impl Selector {
    pub(crate) fn from_vec(compounds: Vec<Compound>) -> Selector
        requires { IsShort compounds.items }
        ensures { result ≡ compounds.items }
    {
        Selector { compounds }
    }

    /// Its compounds, from the left.
    pub fn compounds(&self) -> &[Compound]
        ensures value { result.now ≡ self.now }
        ensures count { IsShort result.now }
    {
        self.compounds.as_slice()
    }

    /// Its last compound, which the element that it matches must fit.
    pub fn subject(&self) -> &Compound
        ensures { subject_of self.now ≡ Some result.now }
    {
        let compounds = self.compounds();
        &compounds[compounds.len() - 1]
    }

    /// An equal selector.
    pub fn copy(&self, alloc: Global) -> Result<Selector, AllocError>
        ensures { IfOk result (λ s. s ≡ self.now) }
    {
        let mut compounds = Vec::new(alloc);
        for compound in self.compounds() {
            compounds.push(compound.copy(alloc)?)?;
        }
        Ok(Selector { compounds })
    }
}

/// The specificity: how many ids the selector names, how many classes, and how many types (Selectors Level 4,
/// section 17). Takes no memory.
pub fn specificity(s: &Selector) -> (u32, u32, u32)
    ensures { result ≡ specificity_of s.now }
{
    let mut ids = 0;
    let mut classes = 0;
    let mut types = 0;
    for compound in s.compounds() {
        ids += compound.ids().len() as u32;
        classes += compound.classes().len() as u32;
        if compound.tag().is_some() {
            types += 1;
        }
    }
    (ids, classes, types)
}
