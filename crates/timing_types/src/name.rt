//! Names that a user gives.

ghost use Rattle.std.specs.Prelude.{◌≡◌, IfOk, IsTrue};
ghost use Rattle.css_token.specs.Productions.{IsIdentifier};
ghost use Rattle.timing_types.specs.Names.{IsAnimationName, is_animation_name, is_reserved, underscore};

use crate::items::Items;
use css_token::is_identifier;
use std::alloc::{AllocError, Global};
use std::marker::Model;

/// A name, as of a keyframes rule: an identifier (CSS Values 4, "Author-defined Identifiers: the
/// <custom-ident> type"), which contracts see as the list of its bytes. Names compare exactly.
#[derive(Debug, Drop)]
pub struct Name {
    /// The bytes; none stand for `_`.
    bytes: Vec<u8>,
}

impl Model for Name {
    ghost use Rattle.std.specs.Prelude.{List, ℕ};
    ghost use Rattle.css_token.specs.Productions.{IsIdentifier};
    ghost use Rattle.timing_types.specs.Names.{name_bytes};

    ghost Value = { List ℕ };

    ghost view = { λ n. name_bytes n.bytes.items };

    ghost invariant = { λ n. IsIdentifier (name_bytes n.bytes.items) };
}

impl Name {
    /// The name `_`, which takes no memory: it fills unused places of short lists.
    pub fn underscore(alloc: Global) -> Name
        ensures { result ≡ underscore }
    {
        Name {
            bytes: Vec::new(alloc),
        }
    }

    /// The name of these bytes.
    pub fn from_bytes(alloc: Global, bytes: &[u8]) -> Result<Name, AllocError>
        requires { IsIdentifier bytes.now }
        ensures { IfOk result (λ n. n ≡ bytes.now) }
    {
        Ok(Name {
            bytes: Vec::from_slice(alloc, bytes)?,
        })
    }

    /// The bytes.
    pub fn as_bytes(&self) -> &[u8]
        ensures value { result.now ≡ self.now }
        ensures identifier { IsIdentifier result.now }
    {
        if self.bytes.is_empty() {
            b"_"
        } else {
            self.bytes.as_slice()
        }
    }

    /// The same name again.
    pub fn copy(&self, alloc: Global) -> Result<Name, AllocError>
        ensures { IfOk result (λ n. n ≡ self.now) }
    {
        Name::from_bytes(alloc, self.as_bytes())
    }
}

/// Whether the word is no name of an animation: `none` and the keywords of the cascade, in any ASCII case.
pub fn is_reserved(word: &[u8]) -> bool
    ensures { result ≡ is_reserved word.now }
{
    word.eq_ignore_ascii_case(b"none")
        || word.eq_ignore_ascii_case(b"initial")
        || word.eq_ignore_ascii_case(b"inherit")
        || word.eq_ignore_ascii_case(b"unset")
}

/// Whether the word is the name of an animation: an identifier that isn't reserved.
#[tactic(auto, using(crate::proofs::NameLemmas::animation_name_told))]
pub fn is_animation_name(word: &[u8]) -> bool
    ensures value { result ≡ is_animation_name word.now }
    ensures name { IsTrue result → IsAnimationName word.now }
{
    is_identifier(word) && !is_reserved(word)
}

fn copy_name(alloc: Global, name: &Option<Name>) -> Result<Option<Name>, AllocError>
    ensures { IfOk result (λ copy. copy ≡ name.now) }
{
    match name {
        None => Ok(None),
        Some(name) => Ok(Some(name.copy(alloc)?)),
    }
}

/// A copy of a list of names.
pub fn copy_names(alloc: Global, names: &[Option<Name>]) -> Result<Items<Option<Name>>, AllocError>
    ensures { IfOk result (λ copy. copy ≡ names.now) }
{
    let mut copies = Vec::new(alloc);
    for name in names {
        copies.push(copy_name(alloc, name)?)?;
    }
    Ok(Items::from_vec(copies))
}
