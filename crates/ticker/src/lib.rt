//! Floor: element and frame. Knows all entries at one tick and where their elements stand in the tree, and no style and no thread.
//!
//! Ticks: `tick(alloc, &mut entries, &mut departed, &tree, t)?` are the events of transitions and animations at time `t`, after CSS
//! Transitions Level 2 and CSS Animations Level 2, in no order that matters: `event_order::merge` sorts them. What has ended is completed
//! then, and what was cancelled is gone.
#![tactic(auto)]

mod animation;
mod cancel;
mod entry;
mod event;
pub mod laws;
mod stays;
mod ticks;
mod transition;

pub use event::Standing;
pub use ticks::tick;
