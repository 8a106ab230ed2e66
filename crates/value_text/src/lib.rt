//! Floor: values. Knows no element and no time: the values of properties as they are written.
//!
//! `read_value(alloc, PropertyId::Width, ".5em", tokens)` is half an em, or why the text is no width.
#![tactic(auto)]

mod cascade;
mod color;
mod kind;
mod laws;
mod number;
mod reader;
mod size;

pub use cascade::{Keyword, cascade_keyword, declared_by};
pub use laws::{one_value, reading_is_exact, spelled_is_declared};
pub use reader::{declared_of_parts, read_value, value_of_parts};
