//! How long an animation is active.
ghost use Rattle.std.specs.Prelude.{◌≡◌, ◌^◌, pos, ◌*ℤ◌, ◌≤ℤ◌, IfSome};
ghost use Rattle.fix_num.specs.Rounding.{rounded_quotient};
ghost use Rattle.style_data.specs.Animations.{IsTiming};
ghost use Rattle.timing_types.specs.Timing.{IsCount, IsDuration};
ghost use Rattle.anim_timing.specs.Durations.{active_duration};

use fix_num::{Fix, Micros, rounded_product};
use style_data::{AnimTiming, AnimationTiming};
use timing_types::Count;

/// The active duration of an animation in microseconds, up to 10^21; `None` where it never ends (Web Animations Level 1,
/// "Calculating the active duration").
pub fn active_duration(timing: AnimTiming) -> Option<i128>
    ensures value { result ≡ active_duration timing }
    ensures bounds { IfSome result (λ lasting. (pos 0 ≤ℤ lasting) × (lasting ≤ℤ pos (10 ^ 21))) }
{
    lasting(timing.get())
}

/// The active duration of a timing.
pub(crate) fn lasting(t: AnimationTiming) -> Option<i128>
    requires { IsTiming t }
    ensures value { result ≡ active_duration t }
    ensures bounds { IfSome result (λ lasting. (pos 0 ≤ℤ lasting) × (lasting ≤ℤ pos (10 ^ 21))) }
{
    if t.duration.0 == 0 {
        return Some(0);
    }
    match t.count {
        Count::Times(times) => Some(repeated(t.duration, times)),
        Count::Infinite => None,
    }
}

/// A duration repeated so many times, to the nearest microsecond.
fn repeated(duration: Micros, times: Fix) -> i128
    requires duration { IsDuration duration }
    requires times { IsCount (Count.Times times) }
    ensures value { result ≡ rounded_quotient (duration.0 *ℤ times.0) Fix.ONE.0 }
    ensures bounds { (pos 0 ≤ℤ result) × (result ≤ℤ pos (10 ^ 21)) }
{
    rounded_product(duration.0, times.0, Fix::ONE.0)
}
