//! Floor: document. Knows the tree, and no time.
//!
//! The document tree: the elements of a document in tree order, as edits build it.
//!
//! A [`Tree`] is seen as its list of elements in tree order and the numbers used so far; it knows
//! no time and no meaning of style texts.
//!
//! ```text
//! tree.add(1, None, "div")?;
//! tree.add(2, Some(1), "p")?;
//! tree.position(2) // Some(1)
//! ```
#![tactic(auto)]

mod add;
mod change;
mod children;
mod element;
mod fault;
pub mod laws;
mod limits;
mod node;
mod nodes;
mod order;
mod remove;
mod slots;
mod tree;

pub use element::Element;
pub use fault::TreeFault;
pub use limits::{MAX_CLASSES, MAX_DEPTH, MAX_ELEMENTS, MAX_STYLE_BYTES};
pub use tree::Tree;
