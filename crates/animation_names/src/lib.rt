//! Floor: time. Knows the animations of one element at one moment, and no tree and no thread.
//!
//! What a style change event makes of the animations of an element, after CSS Animations Level 1: `match_names` keeps, starts and cancels them by
//! the list of names. Of the old list `a, a, b` the new one `b, a` keeps `b` and the second `a`, and the first `a` is cancelled. `sampled`
//! is what the animations of a list are sampled from at a moment, and `resolve` gives the frames that a name stands for.
#![tactic(auto)]

mod continuing;
pub mod laws;
mod lists;
mod paired;
mod resolving;
mod sampling;
mod updating;

pub use continuing::cancelled_animation;
pub use paired::Paired;
pub use resolving::resolve;
pub use sampling::sampled;
pub use updating::match_names;
