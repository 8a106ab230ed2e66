//! Identifiers.

ghost use Rattle.std.specs.Prelude.{◌≡◌, IfOk};

use std::alloc::{AllocError, Global};
use std::marker::Model;

/// A type, a class or an id, as the bytes that a selector has for it. Identifiers compare exactly.
#[derive(Drop)]
pub struct Ident {
    bytes: Vec<u8>,
}

impl Model for Ident {
    ghost use Rattle.std.specs.Prelude.{List, ℕ};

    ghost Value = { List ℕ };

    ghost view = { λ x. x.bytes.items };
}

impl Ident {
    /// The identifier of these bytes.
    pub fn from_bytes(alloc: Global, bytes: &[u8]) -> Result<Ident, AllocError>
        ensures { IfOk result (λ x. x ≡ bytes.now) }
    {
        Ok(Ident {
            bytes: Vec::from_slice(alloc, bytes)?,
        })
    }

    /// The bytes.
    pub fn as_bytes(&self) -> &[u8]
        ensures { result.now ≡ self.now }
    {
        self.bytes.as_slice()
    }

    /// An identifier of the same bytes.
    pub fn copy(&self, alloc: Global) -> Result<Ident, AllocError>
        ensures { IfOk result (λ x. x ≡ self.now) }
    {
        Ident::from_bytes(alloc, self.as_bytes())
    }
}

/// A copy of a list of identifiers.
pub(crate) fn copy_idents(alloc: Global, idents: &[Ident]) -> Result<Vec<Ident>, AllocError>
    ensures { IfOk result (λ copy. copy.items ≡ idents.now) }
{
    let mut copy = Vec::new(alloc);
    for ident in idents {
        copy.push(ident.copy(alloc)?)?;
    }
    Ok(copy)
}
