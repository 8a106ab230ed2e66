//! Floor: element and frame. Knows the events of one frame, and no entry and no thread.
//!
//! Events in composite order: `merge(alloc, lists)?` are the events of the lists as they are sent.
#![tactic(auto)]

mod laws;
mod order;

pub use laws::{events_have_one_order, merged_events_are_the_same};
pub use order::{key, merge};
