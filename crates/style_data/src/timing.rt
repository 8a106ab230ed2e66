//! Timings within their bounds.

ghost use Rattle.std.specs.Prelude.{◌≡◌};
ghost use Rattle.style_data.specs.Animations.{IsTiming};

use fix_num::Micros;
use std::marker::Model;
use timing_types::{Count, Direction, Easing, Fill};

/// The timing of one animation (CSS Animations 1, section 4). Times are microseconds.
#[derive(Clone, Copy, PartialEq, Eq)]
pub struct AnimationTiming {
    pub duration: Micros,
    pub delay: Micros,
    pub count: Count,
    pub direction: Direction,
    pub fill: Fill,
    pub easing: Easing,
}

/// The timing of an animation within its bounds: a duration of 0 to 10^15 microseconds, a delay within 10^15,
/// a count of 0 to 10^12 millionths or without end, and an easing within its own. Contracts see it as the
/// timing.
#[derive(Clone, Copy, PartialEq, Eq)]
pub struct AnimTiming {
    timing: AnimationTiming,
}

impl Model for AnimTiming {
    ghost use Rattle.style_data.specs.declared.timing.AnimationTiming.{AnimationTiming};

    ghost Value = { AnimationTiming };

    ghost use Rattle.style_data.specs.Animations.{IsTiming};

    ghost view = { λ a. a.timing };

    ghost invariant = { λ a. IsTiming a.timing };

    ghost inverse = { λ t. record { timing = t } };
}

impl AnimTiming {
    /// The timing of these parts.
    pub fn new(timing: AnimationTiming) -> AnimTiming
        requires { IsTiming timing }
        ensures { result ≡ timing }
    {
        AnimTiming { timing }
    }

    /// The parts.
    pub fn get(self) -> AnimationTiming
        ensures value { result ≡ self }
        ensures bounds { IsTiming result }
    {
        self.timing
    }
}
