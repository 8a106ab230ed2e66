//! Floor: world. Knows worlds by their edits and frames alone, and no transcript.
//!
//! Laws of generated scripts: each line is a command, and a new world accepts every one.
#![tactic(auto)]

pub mod laws;
