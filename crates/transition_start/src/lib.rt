//! Floor: time. Knows one property's transition at one moment, and no other property, no tree and no thread.
//!
//! Starting of transitions: from an element's before-change and after-change values of a property, which transition
//! it runs, keeps, reverses, replaces or cancels, after CSS Transitions Level 1, section 3; and the value and phase of
//! a running one at any time. `value_at(PropertyId::Opacity, &running, t)` is halfway between its ends halfway through
//! a linear transition.
#![tactic(auto)]

mod cancel;
mod change;
mod laws;
mod sample;
mod starting;

pub use cancel::{cancelled, elapsed_at};
pub use change::PropertyChange;
pub use laws::{exactly_one_rule, nothing_changes, one_decision, starts_and_ends_there};
pub use sample::{phase_at, value_at};
pub use starting::decide;
