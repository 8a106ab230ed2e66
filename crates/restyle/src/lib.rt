//! Floor: world. Knows the document, its elements' entries, the edits of a script and the frames.
//!
//! `restyle_alone(alloc, frame)?` is the frame after its style change event, on one thread, and `restyle(rt, alloc, frame, workers)?` the same
//! by levels; `plan_of(alloc, &tree)?` is the plan of a pass over the whole tree.
#![tactic(auto)]

mod departed;
mod edit;
mod edit_fault;
mod entries;
mod frame;
mod laws;
mod passes;
mod plan;
mod restyling;
mod state;
mod world;
mod world_frame;
mod world_laws;

pub use edit_fault::EditFault;
pub use frame::{Frame, FrameContent};
pub use laws::{new_elements_start_none, nothing_changes, siblings_never_show};
pub use plan::plan_of;
pub use restyling::{Restyled, restyle, restyle_alone};
pub use world::{FrameOut, World};
pub use world_laws::{
    added_elements_start_none, frames_have_an_order, worlds_stay_at_rest, worlds_stay_distinct,
};
