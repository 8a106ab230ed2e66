//! The outcome of an update.

/// What the update of an element gives: what is handed down to its children, and its new entry where it has one.
#[derive(Drop)]
pub enum Step<E, D> {
    /// A new entry.
    Updated(E, D),
    /// The entry stays as it was.
    Kept(D),
}
