//! Transitions as they are kept.

ghost use Rattle.std.specs.Prelude.{◌≡◌};
ghost use Rattle.style_data.specs.Transitions.{IsTransition};

use fix_num::{Bill, Micros};
use std::marker::Model;
use timing_types::Easing;
use value_types::Value;

/// How far a transition or an animation was when events were last sent for it (Web Animations 1, "Animation effect
/// phases and states"); `Idle` before any.
#[derive(Clone, Copy, PartialEq, Eq)]
pub enum Phase {
    Idle,
    Before,
    Active,
    After,
}

/// The values and times of a transition (CSS Transitions 1, section 3). Times are microseconds.
#[derive(Clone, Copy, PartialEq, Eq)]
pub struct Transition {
    /// The start value.
    pub from: Value,
    /// The end value.
    pub to: Value,
    /// The reversing-adjusted start value.
    pub adjusted: Value,
    /// The time of the style change event that started it.
    pub created: Micros,
    pub start: Micros,
    pub end: Micros,
    pub easing: Easing,
    /// The reversing shortening factor, in billionths.
    pub factor: Bill,
    /// The number of the frame that started it: its transition generation.
    pub generation: u32,
    /// The tree position of its element at that moment.
    pub position: u32,
    pub seen: Phase,
}

/// A running transition (CSS Transitions 1, section 3, "running transition"): one whose times, easing and
/// factor are within their bounds. Contracts see it as the transition.
#[derive(Clone, Copy, PartialEq, Eq)]
pub struct Running {
    transition: Transition,
}

impl Model for Running {
    ghost use Rattle.style_data.specs.declared.transition.Transition.{Transition};

    ghost Value = { Transition };

    ghost use Rattle.style_data.specs.Transitions.{IsTransition};

    ghost view = { λ r. r.transition };

    ghost invariant = { λ r. IsTransition r.transition };

    ghost inverse = { λ t. record { transition = t } };
}

impl Running {
    /// The running transition of these values and times.
    pub fn new(transition: Transition) -> Running
        requires { IsTransition transition }
        ensures { result ≡ transition }
    {
        Running { transition }
    }

    /// The same transition, last seen in this phase.
    pub fn with_seen(self, seen: Phase) -> Running
        ensures { result ≡ record self { seen = seen } }
    {
        Running::new(Transition { seen, ..self.get() })
    }

    /// Its values and times.
    pub fn get(self) -> Transition
        ensures value { result ≡ self }
        ensures bounds { IsTransition result }
    {
        self.transition
    }
}

/// Fills unused places of short lists.
impl Default for Running {
    fn default() -> Running {
        Running::new(Transition {
            from: Value::Auto,
            to: Value::Auto,
            adjusted: Value::Auto,
            created: Micros(0),
            start: Micros(0),
            end: Micros(0),
            easing: Easing::Linear,
            factor: Bill(0),
            generation: 0,
            position: 0,
            seen: Phase::Idle,
        })
    }
}

/// A completed transition (CSS Transitions 1, section 3, "completed transition"), of which the end value is
/// kept.
#[derive(Clone, Copy, PartialEq, Eq)]
pub struct Completed {
    pub to: Value,
}

/// Fills unused places of short lists.
impl Default for Completed {
    fn default() -> Completed {
        Completed { to: Value::Auto }
    }
}
