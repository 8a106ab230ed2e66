//! Floor: world. Knows what holds over every run of a world, from the new world on: laws alone, and no call.
#![tactic(auto)]

mod laws;

pub use laws::{courses_in_turn, scheduled_times_never_fall, sent_as_told};
