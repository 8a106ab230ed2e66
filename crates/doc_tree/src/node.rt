use crate::element::Element;

/// An element of the tree, and how deep it lies; the root has depth 1.
#[derive(Drop)]
pub struct Node {
    pub element: Element,
    pub depth: u32,
}
