//! Declarations.
ghost use Rattle.std.specs.Prelude.{◌≡◌, IfOk};
ghost use Rattle.shorthand_text.specs.Longhands.{IsLonghand};

use shorthand_text::Longhand;
use std::alloc::{AllocError, Global};
use std::marker::Model;

/// What a declaration gives one property or timing list; a shorthand makes several with one place.
#[derive(Drop)]
pub struct DeclarationParts {
    pub longhand: Longhand,
    /// Whether it is marked `!important`.
    pub important: bool,
    /// Its place among the block's declarations, from 0.
    pub place: u32,
}

/// A declaration (CSS Syntax 3, "declaration"): its value is one that may be declared there. Contracts see it
/// as its parts.
#[derive(Drop)]
pub struct Declaration {
    parts: DeclarationParts,
}

impl Model for Declaration {
    ghost use Rattle.sheet_types.specs.declared.declaration.DeclarationParts.{DeclarationParts};
    ghost use Rattle.shorthand_text.specs.Longhands.{IsLonghand};

    ghost Value = { DeclarationParts };

    ghost view = { λ d. d.parts };

    ghost invariant = { λ d. IsLonghand d.parts.longhand };
}

impl Declaration {
    /// The declaration of these parts. Takes no memory.
    pub fn new(parts: DeclarationParts) -> Declaration
        requires { IsLonghand parts.longhand }
        ensures { result ≡ parts }
    {
        Declaration { parts }
    }

    /// Its parts.
    pub fn get(&self) -> &DeclarationParts
        ensures value { result.now ≡ self.now }
        ensures valid { IsLonghand result.now.longhand }
    {
        &self.parts
    }

    /// The same declaration again.
    pub fn copy(&self, alloc: Global) -> Result<Declaration, AllocError>
        ensures { IfOk result (λ d. d ≡ self.now) }
    {
        Ok(Declaration {
            parts: DeclarationParts {
                longhand: self.parts.longhand.copy(alloc)?,
                important: self.parts.important,
                place: self.parts.place,
            },
        })
    }
}
