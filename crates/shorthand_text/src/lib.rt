//! Floor: values. Knows no element and no time.
//!
//! What a declaration of any known name declares: properties, timing lists, and their shorthands.
//!
//! `read_longhands(alloc, KnownName::Short(Shorthand::Margin), "1px 2px", tokens)` is the four margins, and
//! `name_of(b"Margin")` is that name.
#![tactic(auto)]

mod animation;
mod components;
mod known_name;
mod laws;
mod longhand;
mod reader;
mod shorthand;
mod sides;
mod transition;

pub use known_name::{KnownName, list_name, shorthand_name};
pub use laws::{known_names_read_back, lists_are_of_one_length, longhands_in_order};
pub use longhand::Longhand;
pub use reader::{name_of, read_longhands};
