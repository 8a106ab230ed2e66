//! Floor: time. Knows one element's transitions at one style change event, and no tree and no thread.
//!
//! The transitions of an element: `update_transitions(alloc, &transitions, &before, &after, event)` applies the rules of
//! CSS Transitions Level 1, section 3, to each property, `update_kept_transitions` to those of which a transition is kept
//! where no other differs, `all_end_there(&transitions, &after)` says when these all stay, so that no rule has to be asked, and
//! `cancel_transitions` cancels whatever runs.
#![tactic(auto)]

mod cancel;
mod event;
mod laws;
mod staying;
mod update;

pub use cancel::cancel_transitions;
pub use event::StyleChangeEvent;
pub use laws::{completed_ones_match, each_property_by_its_rules, nothing_changes};
pub use staying::all_end_there;
pub use update::{UpdatedTransitions, update_kept_transitions, update_transitions};
