//! The change of a property at a style change event.

use fix_num::Micros;
use value_types::{PropertyId, Value};

/// The change of one property of an element at a style change event (CSS Transitions 1, section 3).
#[derive(Clone, Copy)]
pub struct PropertyChange {
    pub property: PropertyId,
    /// The before-change value.
    pub before: Value,
    /// The after-change value.
    pub after: Value,
    /// The time of the event, in microseconds.
    pub time: Micros,
    /// The number of the frame, which is the generation of a transition that it starts.
    pub generation: u32,
    /// The tree position of the element.
    pub position: u32,
}
