//! Floor: time. Knows one element's entry at one moment, and no tree and no thread.
//!
//! What is kept of an element from one style change event to the next: its declarations, its computed style,
//! its running and completed transitions, its animations, and the cancelled ones that wait for their event.
//! `Entry::fresh(alloc)?` is that of an element which no frame has styled; `entry.now().value(p)` is then the
//! initial value of `p`.
#![tactic(auto)]

mod animation;
mod decision;
mod effects;
mod entry;
mod event;
mod gone;
mod laws;
mod same;
mod threads;
mod timing;
mod transition;
mod transitions;

pub use animation::{Animation, AnimationState};
pub use computed_style::{
    DeclaredSet, Down, Inherited, InheritedValues, NoSampling, Sampling, Shared, Style, Winners,
    Winning,
};
pub use decision::Decision;
pub use effects::Effects;
pub use entry::Entry;
pub use event::{Event, EventKind, Key};
pub use gone::{Gone, Subject};
pub use laws::{lookup_is_membership, never_both};
pub use threads::entries_may_be_shared;
pub use timing::{AnimTiming, AnimationTiming};
pub use transition::{Completed, Phase, Running, Transition};
pub use transitions::Transitions;
