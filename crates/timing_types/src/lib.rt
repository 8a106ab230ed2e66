//! Floor: values. Knows no property, no element and no time: the items of the lists that time transitions and
//! animations, the eight lists of animations, and names that a user gives.
//!
//! `Easing::ease()` is the curve `ease`, and `is_animation_name(b"fade")` is true.
#![tactic(auto)]

mod animation_lists;
mod easing;
mod items;
pub mod limits;
mod name;
mod same;
mod timing;

pub use animation_lists::{AnimationLists, IterationLists, PlaybackLists};
pub use easing::{Easing, Jump};
pub use items::Items;
pub use name::{Name, copy_names, is_animation_name, is_reserved};
pub use same::{Same, are_same};
pub use timing::{Count, Direction, Fill, PlayState};
