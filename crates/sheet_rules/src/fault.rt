//! Why a text isn't a sheet or a style attribute.

use shorthand_text::KnownName;
use thiserror::Error;

/// What a bound is of.
#[derive(Clone, Copy, Debug, PartialEq, Eq)]
pub enum BoundName {
    /// A number in a value.
    Value,
    /// The 32 items of a list.
    Items,
    /// The 64 declarations of a block.
    Declarations,
    /// The 4,096 rules of a sheet.
    Rules,
    /// The 32 selectors of a rule.
    Selectors,
    /// The 16 compounds of a selector.
    Compounds,
    /// The 64 offsets of a keyframes rule.
    Offsets,
}

/// The first fault of a text, with its place: the index of a byte, from 0.
#[derive(Clone, Copy, Debug, PartialEq, Eq, Error)]
pub enum CssFault {
    /// A token that is none, or that may not stand there; a bracket without its other; the end of the text
    /// where a `{` or a `}` is wanted.
    #[error("bad token")]
    BadToken { at: u32 },
    /// The first token of a rule, or of a frame's offsets, that isn't of a form of this profile.
    #[error("unsupported rule")]
    UnsupportedRule { at: u32 },
    /// The name of a declaration whose value isn't one of it.
    #[error("unsupported value")]
    UnsupportedValue { name: KnownName, at: u32 },
    /// Where there is too much of something.
    #[error("out of bounds")]
    Bound { what: BoundName, at: u32 },
    /// Memory ran out.
    #[error("out of memory")]
    NoMemory,
}
