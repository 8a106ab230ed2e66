//! Blocks of declarations.

/// What a block of declarations is.
#[derive(Clone, Copy)]
pub enum BlockKind {
    /// A style attribute, which ends with its text.
    Attribute,
    /// The block of a style rule.
    Style,
    /// That of a frame in a keyframes rule.
    Keyframe,
}
