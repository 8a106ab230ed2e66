//! The times of a reversing transition.
ghost use Rattle.std.specs.Prelude.{◌≡◌, ◌≤◌, ◌*◌, unsigned_abs};
ghost use Rattle.fix_num.specs.declared.limits.TheConstants.{MAX_TIME};
ghost use Rattle.reversing.specs.Reversal.{IsFactor, part_of, reversed_delay, reversed_end, reversed_start};

use fix_num::{Bill, Micros, rounded_product};

/// When a reversing transition with the factor `f` starts and ends, where the style changes at time `t` and
/// the transition's delay and duration are these (CSS Transitions Level 1, "Faster reversing of
/// interrupted transitions").
pub fn reversed_times(t: Micros, delay: Micros, duration: Micros, f: Bill) -> (Micros, Micros)
    requires time { unsigned_abs t.0 ≤ MAX_TIME }
    requires delay { unsigned_abs delay.0 ≤ MAX_TIME }
    requires duration { unsigned_abs duration.0 ≤ MAX_TIME }
    requires factor { IsFactor f.0 }
    ensures start { result.0.0 ≡ reversed_start t.0 delay.0 f.0 }
    ensures end { result.1.0 ≡ reversed_end t.0 delay.0 duration.0 f.0 }
    ensures start_size { unsigned_abs result.0.0 ≤ 2 * MAX_TIME }
    ensures end_size { unsigned_abs result.1.0 ≤ 3 * MAX_TIME }
{
    let start = t.0 + reversed_delay(f.0, delay.0);
    (Micros(start), Micros(start + part(f.0, duration.0)))
}

/// The delay of a reversing transition.
#[tactic(auto, unfolding(crate::specs::Reversal::reversed_delay))]
fn reversed_delay(factor: i64, delay: i64) -> i64
    requires factor { IsFactor factor }
    requires size { unsigned_abs delay ≤ MAX_TIME }
    ensures value { result ≡ reversed_delay factor delay }
    ensures size { unsigned_abs result ≤ MAX_TIME }
{
    if delay < 0 {
        part(factor, delay)
    } else {
        delay
    }
}

/// The part of `v` that a factor leaves, rounded.
#[tactic(auto, unfolding(crate::specs::Reversal::part_of))]
fn part(factor: i64, v: i64) -> i64
    requires factor { IsFactor factor }
    requires size { unsigned_abs v ≤ MAX_TIME }
    ensures value { result ≡ part_of factor v }
    ensures size { unsigned_abs result ≤ unsigned_abs v }
{
    rounded_product(factor, v, Bill::ONE.0) as i64
}
