//! The output of an easing function.
ghost use Rattle.std.specs.Prelude.{◌≡◌, ◌<◌, ◌≤◌, ◌^◌, ℤ, pos, ◌≤ℤ◌, ◌<ℤ◌, unsigned_abs};
ghost use Rattle.timing_types.specs.Timing.{IsEasing};
ghost use Rattle.fix_num.specs.Fractions.{IsFraction};
ghost use Rattle.easing.specs.Easings.{KeepsUnit, output_of};

use crate::curve::cubic;
use crate::jumps::steps;
use crate::units::billionths;
use fix_num::Bill;
use timing_types::Easing;

/// The output of an easing at the input `num / den`, which is from 0 to 1, in billionths (CSS Easing
/// Functions Level 1, "Easing functions"). `before` is the before flag.
#[tactic(auto, unfolding(crate::specs::Easings::output_of))]
pub fn output(e: Easing, num: i128, den: i128, before: bool) -> Bill
    requires easing { IsEasing e }
    requires low { pos 0 ≤ℤ num }
    requires high { num ≤ℤ den }
    requires positive { pos 0 <ℤ den }
    requires small { unsigned_abs den < 2 ^ 81 }
    ensures value { result.0 ≡ output_of e num den before }
    ensures size { unsigned_abs result.0 ≤ 10 ^ 10 }
    ensures unit { KeepsUnit e → IsFraction result.0 }
{
    match e {
        Easing::Linear => billionths(num, den),
        Easing::Cubic { x1, y1, x2, y2 } => cubic(x1, y1, x2, y2, num, den),
        Easing::Steps { count, jump } => steps(count, jump, num, den, before),
    }
}
