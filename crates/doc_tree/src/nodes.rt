//! What a tree keeps.

use crate::node::Node;
use indexmap::IndexSet;

/// The number of the mark before all others.
pub const START: usize = 0;

/// The number of the mark after all others.
pub const END: usize = 1;

/// What a tree keeps. A number's place among the used ones is its slot, which no other number ever gets.
///
/// Each element has an opening mark and a closing mark, and what is below it stands between them. All marks stand in
/// one doubly linked list, from `START` to `END`.
#[derive(Drop)]
pub struct Nodes {
    pub used: IndexSet<u32>,
    /// The nodes by slots; `None` where the element was removed.
    pub slots: Vec<Option<Node>>,
    /// The mark after each mark.
    pub next: Vec<u32>,
    /// The mark before each mark.
    pub previous: Vec<u32>,
    /// While `fresh`, how many elements open before each mark.
    pub ranks: Vec<u32>,
    /// While `fresh`, the slots in tree order.
    pub order: Vec<u32>,
    /// How many elements there are.
    pub len: usize,
    /// Whether positions were counted since an edit last moved elements.
    pub fresh: bool,
}
