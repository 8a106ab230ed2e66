//! Floor: values. Knows no element and no time: the easings and the timing lists that the tokens of a value spell.
//!
//! `read_easing(alloc, "ease", tokens)` is the easing of that keyword, and `read_list` reads the items of a list.
#![tactic(auto)]

mod easing;
mod group;
mod item;
mod laws;
mod list;
mod number;

pub use easing::read_easing;
pub use group::is_inside;
pub use item::Item;
pub use laws::{easing_as_spelled, list_as_spelled, one_easing, one_list};
pub use list::{found_items, is_initial, items_within, list_of_parts, read_list};
