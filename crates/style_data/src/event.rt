//! Events of transitions and animations.

ghost use Rattle.std.specs.Prelude.{◌≡◌};

use crate::gone::Subject;
use fix_num::Micros;
use std::cmp::Ordering;

/// The kind of an event (CSS Transitions 1, section 6; CSS Animations 1, section 5).
#[derive(Clone, Copy, PartialEq, Eq)]
pub enum EventKind {
    Run,
    Start,
    Iteration,
    End,
    Cancel,
}

impl EventKind {
    ghost use Rattle.style_data.specs.Events.{kind_number};

    /// The kind's number, 0 to 4, by which events of one moment and one subject stand in order.
    pub fn number(self) -> u32
        ensures { result ≡ kind_number self }
    {
        self as u32
    }
}

/// Where an event stands among those of a frame: by its scheduled time, and then in composite order (Web
/// Animations 1, "sorting animation events"), field by field.
#[derive(Clone, Copy, PartialEq, Eq, PartialOrd, Ord)]
pub struct Key {
    /// The scheduled event time in microseconds.
    pub time: Micros,
    /// 0 and 1: transitions with and without an owning element; 2 and 3: animations.
    pub class: u32,
    pub first: u32,
    pub second: u32,
    pub third: u32,
    /// The number of its kind.
    pub kind: u32,
}

impl Key {
    ghost use Rattle.style_data.specs.Events.{key_order};

    /// How the key compares with another: by the first field that differs.
    pub fn compare(self, other: Key) -> Ordering
        ensures { result ≡ key_order self other }
    {
        self.cmp(&other)
    }
}

/// An event of an element's transition or animation.
#[derive(Drop)]
pub struct Event {
    /// The element's number.
    pub element: u32,
    pub subject: Subject,
    pub kind: EventKind,
    /// The elapsed time in microseconds.
    pub elapsed: Micros,
    pub key: Key,
}
