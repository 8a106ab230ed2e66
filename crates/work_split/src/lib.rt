//! Floor: passes. The pass over a tree by its levels: each level is cut into pieces, and the pieces are worked on beside
//! each other. Knows no CSS and no tree but the plan of a pass. Threads are started in `split` alone.
//!
//! `by_levels(rt, alloc, &work, &plan, entries, workers)?` gives what `pass_core::pass_alone` gives, for any number of workers.
#![tactic(auto)]

mod levels;
mod merge;
mod pass;
mod rows;
mod seat;
mod split;
mod steps;

pub use pass::by_levels;
pub use split::SPLIT_FROM;
