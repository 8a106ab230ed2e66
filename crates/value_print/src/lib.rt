//! Floor: values. Knows no element and no time: computed values as text.
//!
//! `print_value(&mut out, PropertyId::Width, v)` appends a length of 20px as `20px`.
#![tactic(auto)]

mod pieces;
mod print;

pub use print::print_value;
