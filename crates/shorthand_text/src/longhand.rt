//! What a declaration gives one property or one timing list.
ghost use Rattle.std.specs.Prelude.{◌≡◌, ◌∷◌, [], IfErr, IfOk};

use std::alloc::{AllocError, Global};
use token_parts::ValueFault;
use value_types::{Declared, ListName, ListValue, PropertyId};

/// What a declaration gives: a declared value to a property, or to a timing list.
#[derive(Drop)]
pub enum Longhand {
    Property(PropertyId, Declared),
    List(ListName, ListValue),
}

impl Longhand {
    /// The same again.
    pub fn copy(&self, alloc: Global) -> Result<Longhand, AllocError>
        ensures { IfOk result (λ longhand. longhand ≡ self.now) }
    {
        Ok(match self {
            Longhand::Property(p, declared) => Longhand::Property(*p, *declared),
            Longhand::List(name, value) => Longhand::List(*name, value.copy(alloc)?),
        })
    }
}

/// The list of this one.
pub(crate) fn one(alloc: Global, longhand: Longhand) -> Result<Vec<Longhand>, ValueFault>
    ensures ok { IfOk result (λ v. v.items ≡ longhand ∷ []) }
    ensures err { IfErr result (λ fault. fault ≡ ValueFault.NoMemory) }
{
    let mut list = Vec::new(alloc);
    match list.push(longhand) {
        Ok(()) => Ok(list),
        Err(_) => Err(ValueFault::NoMemory),
    }
}
