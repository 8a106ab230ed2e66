//! Floor: programs. What the words of the command line ask for. Knows no script and no world.
//!
//! `read_words(alloc, &words)?` gives the settings that the words behind the program's own name say.
#![tactic(auto)]

pub mod laws;
mod limits;
mod number;
mod parse;
mod words;

pub use limits::{MAX_DIGITS, MAX_WORKERS};
pub use words::{Words, WordsFault, read_words};
