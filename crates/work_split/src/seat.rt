//! Places of a plan with where their entries stand, and what they hand down.

use pass_core::Place;

/// A place of the plan, where its element's entry stands, and where what is handed down is kept.
#[derive(Clone, Copy)]
pub(crate) struct Seat {
    /// What the plan says of the place.
    pub(crate) place: Place,
    /// The index of the entry.
    pub(crate) row: usize,
    /// The index of what the place hands down, among what all inner places do; `None` of a leaf.
    pub(crate) slot: Option<usize>,
    /// The index of what its parent hands down; `None` where the parent isn't in the plan.
    pub(crate) above: Option<usize>,
}
