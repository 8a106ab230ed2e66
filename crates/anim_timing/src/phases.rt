//! The phase of an animation.
ghost use Rattle.std.specs.Prelude.{◌≡◌, ◌≤◌, pos, unsigned_abs};
ghost use Rattle.std.specs.Int.{int_max};
ghost use Rattle.fix_num.specs.declared.limits.TheConstants.{MAX_TIME};
ghost use Rattle.style_data.specs.Animations.{IsTiming};
ghost use Rattle.style_data.specs.Transitions.{IsMoment};
ghost use Rattle.anim_timing.specs.Durations.{active_after_boundary, active_duration, before_active_boundary};
ghost use Rattle.anim_timing.specs.Phases.{phase_of};
ghost use Rattle.anim_timing.specs.Playing.{local_time};

use crate::durations::lasting;
use crate::playing::local_time;
use fix_num::Micros;
use style_data::{Animation, AnimationTiming, Phase};

/// The phase of an animation at time `t`, in microseconds: before, active or after (Web Animations Level 1, "Animation
/// effect phases and states").
pub fn phase_at(a: &Animation, t: Micros) -> Phase
    requires { IsMoment t.0 }
    ensures { result ≡ phase_of a.now.timing (local_time a.now t.0) }
{
    let timing = a.get().timing.get();
    phase_in(timing, lasting(timing), i128::from(local_time(a, t).0))
}

/// The phase at a local time of a timing with this active duration.
#[tactic(auto, unfolding(crate::specs::Phases::phase_of))]
pub(crate) fn phase_in(t: AnimationTiming, lasting: Option<i128>, local: i128) -> Phase
    requires timing { IsTiming t }
    requires lasting { lasting ≡ active_duration t }
    requires local { unsigned_abs local ≤ MAX_TIME }
    ensures { result ≡ phase_of t local }
{
    if local < before_active_boundary(t) {
        return Phase::Before;
    }
    match active_after_boundary(t, lasting) {
        Some(boundary) if boundary <= local => Phase::After,
        _ => Phase::Active,
    }
}

/// The before-active boundary time. The end time is never before the start delay, and so doesn't matter here.
fn before_active_boundary(t: AnimationTiming) -> i128
    requires { IsTiming t }
    ensures { result ≡ before_active_boundary t }
{
    i128::from(t.delay.0).max(0)
}

/// The active-after boundary time of a timing with this active duration; `None` where it is infinite.
fn active_after_boundary(t: AnimationTiming, lasting: Option<i128>) -> Option<i128>
    requires timing { IsTiming t }
    requires lasting { lasting ≡ active_duration t }
    ensures { result ≡ active_after_boundary t }
{
    match lasting {
        Some(lasting) => Some(not_negative(i128::from(t.delay.0) + lasting)),
        None => None,
    }
}

/// The time, at least 0.
pub(crate) fn not_negative(time: i128) -> i128
    ensures { result ≡ int_max time (pos 0) }
{
    time.max(0)
}
