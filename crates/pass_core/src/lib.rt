//! Floor: passes. The pass over a tree in its pure form: elements are updated parents before children, in whatever
//! order. Knows no CSS, no thread and no tree but the plan of a pass.
//!
//! `run_schedule(alloc, &work, &plan, &mut state, &events)?` carries out the events in turn, and
//! `pass_alone(alloc, &work, &plan, entries)?` updates the whole plan in tree order.
#![tactic(auto)]

mod alone;
mod downs;
mod entries;
mod event;
mod laws;
mod plan;
mod sibling;
mod state;
mod step;
mod update;
mod values;
mod work;

pub use alone::pass_alone;
pub use event::CoreEvent;
pub use laws::{events_commute, one_result, schedules_agree};
pub use plan::{Place, Plan};
pub use sibling::Sibling;
pub use state::{CoreState, run_schedule};
pub use step::Step;
pub use work::TreeWork;
