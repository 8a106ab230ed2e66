use thiserror::Error;

/// Why an edit of a tree was refused. A refused edit changes nothing.
#[derive(Clone, Copy, Debug, PartialEq, Eq, Error)]
pub enum TreeFault {
    /// An element that the edit names, other than a new one, isn't in the tree.
    #[error("unknown node")]
    UnknownNode,
    /// The number of a new element was used before.
    #[error("the node's number is taken")]
    NodeTaken,
    /// The tree would have more than [`MAX_ELEMENTS`](crate::MAX_ELEMENTS) elements.
    #[error("too many nodes")]
    BoundNodes,
    /// An element would lie deeper than [`MAX_DEPTH`](crate::MAX_DEPTH).
    #[error("too deep")]
    BoundDepth,
    /// There would be a second root.
    #[error("a second root")]
    BoundRoot,
    /// An element would have too many classes.
    #[error("too many classes")]
    BoundClasses,
    /// Memory is wanting.
    #[error("out of memory")]
    NoMemory,
}
