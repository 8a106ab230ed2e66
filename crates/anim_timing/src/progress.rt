//! The progress of an animation.
ghost use Rattle.std.specs.Prelude.{◌≡◌, ◌≤◌, ◌*◌, pos, ◌*ℤ◌, ◌≤ℤ◌, IfSome, unsigned_abs, unwrap_or};
ghost use Rattle.fix_num.specs.Rounding.{rounded_quotient};
ghost use Rattle.fix_num.specs.declared.limits.TheConstants.{MAX_TIME};
ghost use Rattle.style_data.specs.Animations.{IsTiming};
ghost use Rattle.style_data.specs.Transitions.{IsMoment};
ghost use Rattle.anim_timing.specs.Durations.{active_duration};
ghost use Rattle.anim_timing.specs.Progresses.{IsProgress, progress_at, progress_in, progress_of, progress_with};
ghost use Rattle.anim_timing.specs.Ratios.{IsPart};

use crate::active::active_time_in;
use crate::directions::directed_progress;
use crate::durations::lasting;
use crate::iterations::{
    Ratio, current_iteration, ends_iteration, overall_progress, simple_iteration_progress,
};
use crate::phases::phase_in;
use crate::playing::local_time;
use fix_num::{Bill, Micros, rnd};
use style_data::{Animation, AnimationTiming, Phase};

/// The directed progress of an animation in its current iteration: `num / den`, exactly.
#[derive(Clone, Copy, PartialEq, Eq)]
pub struct Progress {
    /// 0 to `den`.
    pub num: i128,
    /// 1 to 10^15.
    pub den: i128,
    /// The progress in billionths, rounded.
    pub value: Bill,
    /// The current iteration, from 0; an infinite one is given as 0.
    pub iteration: u64,
}

/// The progress of an animation at time `t`, in microseconds; `None` where it is before or after and its fill mode doesn't cover
/// that (Web Animations Level 1, "Calculating the directed progress"). Takes no memory.
pub fn progress_at(a: &Animation, t: Micros) -> Option<Progress>
    requires { IsMoment t.0 }
    ensures value { result ≡ progress_at a.now t.0 }
    ensures bounds { IfSome result IsProgress }
{
    progress_of(a.get().timing.get(), i128::from(local_time(a, t).0))
}

/// The progress of a timing at a local time.
#[tactic(auto, unfolding(crate::specs::Progresses::progress_of))]
fn progress_of(t: AnimationTiming, local: i128) -> Option<Progress>
    requires timing { IsTiming t }
    requires local { unsigned_abs local ≤ MAX_TIME }
    ensures value { result ≡ progress_of t local }
    ensures bounds { IfSome result IsProgress }
{
    let lasting = lasting(t);
    let phase = phase_in(t, lasting, local);
    match active_time_in(t, lasting, phase, local) {
        Some(active) => Some(progress_in(t, lasting, phase, active)),
        None => None,
    }
}

/// The progress in a phase at an active time, of a timing with this active duration.
fn progress_in(t: AnimationTiming, lasting: Option<i128>, phase: Phase, active: i128) -> Progress
    requires timing { IsTiming t }
    requires lasting { lasting ≡ active_duration t }
    requires low { pos 0 ≤ℤ active }
    requires high { active ≤ℤ pos (2 * MAX_TIME) }
    ensures value { result ≡ progress_in t phase active }
    ensures bounds { IsProgress result }
{
    let overall = overall_progress(t, phase, active);
    let ends = ends_iteration(t, lasting, phase, active, overall);
    let iteration = current_iteration(overall, ends);
    let simple = simple_iteration_progress(overall, ends);
    progress_with(directed_progress(t.direction, iteration, simple), iteration)
}

/// A directed progress with the current iteration.
fn progress_with(r: Ratio, iteration: Option<i128>) -> Progress
    requires part { IsPart r }
    requires iteration { IfSome iteration (λ i. unsigned_abs i ≤ 2 * MAX_TIME) }
    ensures value { result ≡ progress_with r iteration }
    ensures bounds { IsProgress result }
{
    Progress {
        num: r.num,
        den: r.den,
        value: billionths(r),
        iteration: counted(iteration),
    }
}

/// A part in billionths, rounded.
fn billionths(r: Ratio) -> Bill
    requires { IsPart r }
    ensures { result.0 ≡ rounded_quotient (r.num *ℤ Bill.ONE.0) r.den }
{
    Bill(rnd(r.num * i128::from(Bill::ONE.0), r.den) as i64)
}

/// The number of an iteration, or 0 of an infinite one.
fn counted(iteration: Option<i128>) -> u64
    requires { IfSome iteration (λ i. unsigned_abs i ≤ 2 * MAX_TIME) }
    ensures { result ≡ unsigned_abs (unwrap_or iteration (pos 0)) }
{
    match iteration {
        Some(i) => i.unsigned_abs() as u64,
        None => 0,
    }
}
