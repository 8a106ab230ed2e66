//! Floor: numbers and bytes. Knows no tree, no sheet and no time: only the bytes of the script that a seed gives.
//!
//! `script_of(alloc, 7)` is a script of 2,000 elements that change class in 60 rounds, the same bytes for the same seed.
#![tactic(auto)]

mod draws;
pub mod laws;
mod script;

pub use script::script_of;
