//! Floor: values. Knows no element and no time: the types and tables of CSS values, which are the 24 properties,
//! their computed and declared values with the bounds of these, the lists that time transitions, and the frames
//! of keyframes rules.
//!
//! `PropertyId::by_name("Opacity")` is `Some(PropertyId::Opacity)`.
#![tactic(auto)]

mod declared;
mod frame;
mod frames;
mod laws;
mod list_value;
mod property;
mod range;
mod same;
mod shared;
mod shorthand;
mod table;
mod transition_lists;
mod value;

pub use declared::{Declared, Size, Unit};
pub use frame::Frame;
pub use frames::Frames;
pub use laws::{
    initial_values_are_valid, names_read_back, numbers_follow_names, numbers_read_back,
};
pub use list_value::{ListName, ListValue};
pub use property::PropertyId;
pub use range::ValueRange;
pub use shared::Shared;
pub use shorthand::{PropertyItem, Shorthand, longhands};
pub use table::{ValueKind, initial_value, is_inherited, keeps_percent, range_of, takes};
pub use transition_lists::TransitionLists;
pub use value::{Display, Value, Visibility};
