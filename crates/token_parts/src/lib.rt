//! Floor: values. Knows no property: what the tokens of a value say, without their places, so that readers see
//! words, numbers and units alone; keywords; and why a value isn't read.
//!
//! `parts(alloc, b"1px", tokens)` is one `Part::Dimension`.
#![tactic(auto)]

mod fault;
mod keyword;
mod part;

pub use fault::ValueFault;
pub use keyword::{is_keyword, look_up};
pub use part::{Part, after_comma, parts};
