//! Events of a pass.

/// What happens to an element in a pass.
#[derive(Clone, Copy)]
pub enum CoreEvent {
    /// The element is updated.
    Update(u32),
    /// Its update found no memory, and changed nothing.
    Refuse(u32),
}
