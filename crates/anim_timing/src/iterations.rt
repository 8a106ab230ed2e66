//! Iterations.
ghost use Rattle.std.specs.Prelude.{◌≡◌, ◌≤◌, ◌*◌, pos, ◌≤ℤ◌, ◌<ℤ◌, IfSome, unsigned_abs};
ghost use Rattle.fix_num.specs.declared.limits.TheConstants.{MAX_TIME};
ghost use Rattle.style_data.specs.Animations.{IsTiming};
ghost use Rattle.timing_types.specs.Timing.{IsCount};
ghost use Rattle.anim_timing.specs.Durations.{active_duration};
ghost use Rattle.anim_timing.specs.Iterations.{count_of, current_iteration, ends_iteration, is_before, is_whole, modulo_one, overall_progress, simple_iteration_progress};
ghost use Rattle.anim_timing.specs.Ratios.{IsPart, IsRatio};

use fix_num::Fix;
use style_data::{AnimationTiming, Phase};
use timing_types::Count;

/// The number `num / den`.
#[derive(Clone, Copy)]
pub(crate) struct Ratio {
    pub num: i128,
    pub den: i128,
}

/// Whether the phase is that before.
fn is_before(phase: Phase) -> bool
    ensures { result ≡ is_before phase }
{
    matches!(phase, Phase::Before)
}

/// The iteration count as a number; `None` where it is infinite.
fn count_of(count: Count) -> Option<Ratio>
    requires { IsCount count }
    ensures value { result ≡ count_of count }
    ensures bounds { IfSome result IsRatio }
{
    match count {
        Count::Times(times) => Some(Ratio {
            num: i128::from(times.0),
            den: i128::from(Fix::ONE.0),
        }),
        Count::Infinite => None,
    }
}

/// The overall progress in a phase at an active time; `None` where it is infinite (Web Animations Level 1, "Calculating the overall
/// progress").
pub(crate) fn overall_progress(t: AnimationTiming, phase: Phase, active: i128) -> Option<Ratio>
    requires timing { IsTiming t }
    requires low { pos 0 ≤ℤ active }
    requires high { active ≤ℤ pos (2 * MAX_TIME) }
    ensures value { result ≡ overall_progress t phase active }
    ensures bounds { IfSome result IsRatio }
{
    if t.duration.0 != 0 {
        return Some(Ratio {
            num: active,
            den: i128::from(t.duration.0),
        });
    }
    if is_before(phase) {
        return Some(Ratio {
            num: 0,
            den: i128::from(Fix::ONE.0),
        });
    }
    count_of(t.count)
}

/// What is left of an overall progress beside whole iterations.
fn modulo_one(overall: Option<Ratio>) -> Ratio
    requires { IfSome overall IsRatio }
    ensures value { result ≡ modulo_one overall }
    ensures bounds { IsPart result }
{
    match overall {
        Some(r) => Ratio {
            num: r.num.rem_euclid(r.den),
            den: r.den,
        },
        None => Ratio {
            num: 0,
            den: i128::from(Fix::ONE.0),
        },
    }
}

/// Whether an overall progress is of whole iterations, of one at least.
fn is_whole(overall: Option<Ratio>) -> bool
    requires { IfSome overall IsRatio }
    ensures { result ≡ is_whole overall }
{
    match overall {
        Some(r) => r.num != 0 && r.num.rem_euclid(r.den) == 0,
        None => true,
    }
}

/// Whether a timing with this active duration and overall progress is at the end of its last iteration.
pub(crate) fn ends_iteration(
    t: AnimationTiming,
    lasting: Option<i128>,
    phase: Phase,
    active: i128,
    overall: Option<Ratio>,
) -> bool
    requires lasting { lasting ≡ active_duration t }
    requires overall { overall ≡ overall_progress t phase active }
    requires bounds { IfSome overall IsRatio }
    ensures { result ≡ ends_iteration t phase active }
{
    match lasting {
        Some(lasting) => !is_before(phase) && active == lasting && is_whole(overall),
        None => false,
    }
}

/// The simple iteration progress (Web Animations Level 1, "Calculating the simple iteration progress").
pub(crate) fn simple_iteration_progress(overall: Option<Ratio>, ends: bool) -> Ratio
    requires { IfSome overall IsRatio }
    ensures value { result ≡ simple_iteration_progress overall ends }
    ensures bounds { IsPart result }
{
    let rest = modulo_one(overall);
    if ends {
        Ratio {
            num: rest.den,
            den: rest.den,
        }
    } else {
        rest
    }
}

/// The current iteration, from 0; `None` where it is infinite (Web Animations Level 1, "Calculating the current iteration").
pub(crate) fn current_iteration(overall: Option<Ratio>, ends: bool) -> Option<i128>
    requires { IfSome overall IsRatio }
    ensures value { result ≡ current_iteration overall ends }
    ensures bounds { IfSome result (λ iteration. unsigned_abs iteration ≤ 2 * MAX_TIME) }
{
    match overall {
        Some(r) => {
            let done = r.num.div_euclid(r.den);
            Some(if ends { done - 1 } else { done })
        }
        None => None,
    }
}
