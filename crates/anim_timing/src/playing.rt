//! Animations that run and are paused.
ghost use Rattle.std.specs.Prelude.{◌≡◌, ◌≤◌, pos, ◌-ℤ◌, unsigned_abs};
ghost use Rattle.std.specs.Int.{int_max};
ghost use Rattle.fix_num.specs.declared.limits.TheConstants.{MAX_TIME};
ghost use Rattle.style_data.specs.Transitions.{IsMoment};
ghost use Rattle.anim_timing.specs.Playing.{elapsed_at_cancel, local_time, played, time_from};

use crate::active::active_time_in;
use crate::durations::lasting;
use crate::phases::phase_in;
use fix_num::Micros;
use style_data::{Animation, AnimationTiming};
use timing_types::Fill;

/// The local time of an animation at time `t`, in microseconds: since its start, or where it was paused (Web Animations Level
/// 1, "Local time and inherited time").
pub fn local_time(a: &Animation, t: Micros) -> Micros
    requires { IsMoment t.0 }
    ensures value { result.0 ≡ local_time a.now t.0 }
    ensures size { unsigned_abs result.0 ≤ MAX_TIME }
{
    let state = a.get();
    match state.hold {
        Some(hold) => hold,
        None => Micros(t.0 - state.start.0),
    }
}

/// Pauses an animation at time `t`, in microseconds, or lets it run again from there: a paused one holds its local time, one that runs
/// again gets the start time that continues it. What is paused already, or runs already, stays as it is (CSS Animations Level 1,
/// "The animation-play-state property").
pub fn pause_or_run(a: &mut Animation, paused: bool, t: Micros)
    requires { IsMoment t.0 }
    ensures { a.new ≡ played a.old paused t.0 }
{
    let start = a.get().start;
    match a.get().hold {
        None if paused => a.set_hold(Some(time_from(start, t))),
        Some(hold) if !paused => {
            a.set_start(time_from(hold, t));
            a.set_hold(None);
        }
        _ => {}
    }
}

/// The time from one moment to another, none where that is earlier.
fn time_from(earlier: Micros, later: Micros) -> Micros
    requires earlier { IsMoment earlier.0 }
    requires later { IsMoment later.0 }
    ensures value { result ≡ time_from earlier.0 later.0 }
    ensures moment { IsMoment result.0 }
{
    Micros((later.0 - earlier.0).max(0))
}

/// The elapsed time of the cancel event of an animation that is cancelled at time `t`, in microseconds: its active time, as if it
/// filled both ways (CSS Animations Level 1, "Types of AnimationEvent").
pub fn cancel_elapsed(a: &Animation, t: Micros) -> Micros
    requires { IsMoment t.0 }
    ensures { result.0 ≡ elapsed_at_cancel a.now t.0 }
{
    let timing = AnimationTiming {
        fill: Fill::Both,
        ..a.get().timing.get()
    };
    let local = i128::from(local_time(a, t).0);
    let lasting = lasting(timing);
    let phase = phase_in(timing, lasting, local);
    match active_time_in(timing, lasting, phase, local) {
        Some(active) => Micros(active as i64),
        None => Micros(0),
    }
}
