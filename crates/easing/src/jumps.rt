//! Step easing functions.
ghost use Rattle.std.specs.Prelude.{◌≡◌, ◌+◌, ◌<◌, ◌≤◌, ◌*◌, ◌^◌, ℤ, pos, ◌≤ℤ◌, ◌<ℤ◌, unsigned_abs};
ghost use Rattle.timing_types.specs.Timing.{fewest_steps};
ghost use Rattle.timing_types.specs.declared.limits.TheConstants.{MAX_STEPS};
ghost use Rattle.easing.specs.Billionths.{billionths};
ghost use Rattle.easing.specs.Stepping.{jumps_at_start, jumps_of, step_back, step_of};

use crate::units::billionths;
use fix_num::Bill;
use timing_types::Jump;

/// The output of `count` steps at the input `num / den`.
pub fn steps(count: u32, jump: Jump, num: i128, den: i128, before: bool) -> Bill
    requires fewest { fewest_steps jump ≤ count }
    requires most { count ≤ MAX_STEPS }
    requires low { pos 0 ≤ℤ num }
    requires high { num ≤ℤ den }
    requires positive { pos 0 <ℤ den }
    requires small { unsigned_abs den < 2 ^ 81 }
    ensures value { result.0 ≡ billionths (step_of count jump num den before) (pos (jumps_of jump count)) }
    ensures size { unsigned_abs result.0 ≤ 10 ^ 10 }
{
    let step = step(count, jump, num.unsigned_abs(), den.unsigned_abs(), before);
    billionths(i128::from(step), i128::from(jumps(count, jump)))
}

/// The current step, from 0 to the number of jumps.
fn step(count: u32, jump: Jump, num: u128, den: u128, before: bool) -> u32
    requires fewest { fewest_steps jump ≤ count }
    requires most { count ≤ MAX_STEPS }
    requires within { num ≤ den }
    requires positive { 0 < den }
    requires small { den < 2 ^ 81 }
    ensures value { pos result ≡ step_of count jump (pos num) (pos den) before }
    ensures within { result ≤ jumps_of jump count }
{
    let position = num * u128::from(count);
    let begun = (position / den) as u32 + jumps_at_start(jump);
    begun
        .saturating_sub(step_back(position, den, before))
        .min(jumps(count, jump))
}

/// How far a set before flag steps back: by one at the very beginning of a step.
fn step_back(position: u128, den: u128, before: bool) -> u32
    requires { 0 < den }
    ensures { pos result ≡ step_back (pos position) (pos den) before }
{
    if before && position % den == 0 { 1 } else { 0 }
}

/// How many jumps make up the way from 0 to 1.
fn jumps(count: u32, jump: Jump) -> u32
    requires fewest { fewest_steps jump ≤ count }
    requires most { count ≤ MAX_STEPS }
    ensures value { result ≡ jumps_of jump count }
    ensures size { (0 < result) × (result ≤ MAX_STEPS + 1) }
{
    match jump {
        Jump::Start | Jump::End => count,
        Jump::Both => count + 1,
        Jump::Nowhere => count - 1,
    }
}

/// How many of the jumps are at the start.
fn jumps_at_start(jump: Jump) -> u32
    ensures value { result ≡ jumps_at_start jump }
    ensures size { result ≤ 1 }
{
    match jump {
        Jump::Start | Jump::Both => 1,
        Jump::End | Jump::Nowhere => 0,
    }
}
