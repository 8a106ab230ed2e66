//! The animations of an element after a style change event.

use style_data::{Animation, Gone};

/// The animations of an element after a style change event, by their places, and those that ended at it.
#[derive(Drop)]
pub struct Paired {
    pub animations: Vec<Animation>,
    pub gone: Vec<Gone>,
}
