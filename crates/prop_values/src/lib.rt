//! Floor: values. Knows no element and no time: the values of the 24 properties and of the timing lists in one
//! place, their types and table, the readers of their text, computed values, and their printed form; and that what is printed
//! is read back.
//!
//! `PropertyId::by_name("opacity")`, then `read_value`, `absolute` and `print_value` take a value from a style text
//! to a transcript.
#![tactic(auto)]

mod laws;

pub use computed_value::absolute;
pub use laws::printed_values_read_back;
pub use list_text::{
    easing_as_spelled, list_as_spelled, one_easing, one_list, read_easing, read_list,
};
pub use timing_types::{
    AnimationLists, Count, Direction, Easing, Fill, Items, Jump, Name, PlayState,
};
pub use token_parts::ValueFault;
pub use value_print::print_value;
pub use value_text::{one_value, read_value, reading_is_exact, spelled_is_declared};
pub use value_types::{
    Declared, Display, Frame, Frames, ListName, ListValue, PropertyId, PropertyItem, Shorthand,
    Size, TransitionLists, Unit, Value, ValueKind, ValueRange, Visibility, initial_value,
    initial_values_are_valid, is_inherited, keeps_percent, longhands, names_read_back,
    numbers_follow_names, numbers_read_back, range_of, takes,
};
