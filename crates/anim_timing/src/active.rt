//! The active time of an animation.
ghost use Rattle.std.specs.Prelude.{◌≡◌, ◌≤◌, ◌*◌, pos, ◌-ℤ◌, ◌≤ℤ◌, IfSome, unsigned_abs};
ghost use Rattle.fix_num.specs.declared.limits.TheConstants.{MAX_TIME};
ghost use Rattle.style_data.specs.Animations.{IsTiming};
ghost use Rattle.anim_timing.specs.ActiveTimes.{active_time_in, fills_backwards, fills_forwards};
ghost use Rattle.anim_timing.specs.Durations.{active_duration, no_later_than};
ghost use Rattle.anim_timing.specs.Phases.{phase_of};

use crate::phases::not_negative;
use style_data::{AnimationTiming, Phase};
use timing_types::Fill;

/// The active time in a phase at a local time, of a timing with this active duration, in microseconds; `None` where the fill mode
/// gives none (Web Animations Level 1, "Calculating the active time").
pub(crate) fn active_time_in(
    t: AnimationTiming,
    lasting: Option<i128>,
    phase: Phase,
    local: i128,
) -> Option<i128>
    requires timing { IsTiming t }
    requires lasting { lasting ≡ active_duration t }
    requires phase { phase ≡ phase_of t local }
    requires local { unsigned_abs local ≤ MAX_TIME }
    ensures value { result ≡ active_time_in t phase local }
    ensures bounds { IfSome result (λ active. (pos 0 ≤ℤ active) × (active ≤ℤ pos (2 * MAX_TIME))) }
{
    let since = since_delay(t, local);
    match phase {
        Phase::Before if fills_backwards(t.fill) => Some(not_negative(since)),
        Phase::Active => Some(since),
        Phase::After if fills_forwards(t.fill) => Some(not_negative(no_later_than(lasting, since))),
        _ => None,
    }
}

/// The local time since the start delay.
fn since_delay(t: AnimationTiming, local: i128) -> i128
    requires timing { IsTiming t }
    requires local { unsigned_abs local ≤ MAX_TIME }
    ensures value { result ≡ local -ℤ t.delay.0 }
    ensures size { unsigned_abs result ≤ 2 * MAX_TIME }
{
    local - i128::from(t.delay.0)
}

/// The lesser of a time and one that may be infinite.
fn no_later_than(limit: Option<i128>, time: i128) -> i128
    ensures value { result ≡ no_later_than limit time }
    ensures bound { result ≤ℤ time }
{
    match limit {
        Some(limit) => time.min(limit),
        None => time,
    }
}

/// Whether the fill mode covers the time before.
fn fills_backwards(fill: Fill) -> bool
    ensures { result ≡ fills_backwards fill }
{
    matches!(fill, Fill::Backwards | Fill::Both)
}

/// Whether the fill mode covers the time after.
fn fills_forwards(fill: Fill) -> bool
    ensures { result ≡ fills_forwards fill }
{
    matches!(fill, Fill::Forwards | Fill::Both)
}
