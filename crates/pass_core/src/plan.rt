//! Plans of passes.

/// An element's place in a plan.
#[derive(Clone, Copy)]
pub struct Place {
    /// The element's number.
    pub element: u32,
    /// The place of its parent, from 0; `None` where the parent isn't in the plan.
    pub parent: Option<u32>,
    /// The place after the last of its descendants.
    pub end: u32,
}

/// Which elements a pass updates, in tree order.
#[derive(Drop)]
pub struct Plan {
    pub places: Vec<Place>,
}
