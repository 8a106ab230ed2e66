//! Combinators.

/// How the element of the next compound stands to that of the one before it (Selectors Level 4, section 15).
#[derive(Clone, Copy, Debug, PartialEq, Eq)]
pub enum Combinator {
    /// `>`: directly below it.
    Child,
    /// Spaces: anywhere below it.
    Descendant,
}
