//! The reversing shortening factor.
ghost use Rattle.std.specs.Prelude.{◌≡◌, ◌<◌, ◌^◌, ◌+ℤ◌, ◌-ℤ◌, unsigned_abs};
ghost use Rattle.reversing.specs.Reversal.{IsFactor, part_of, shortened};

use fix_num::{Bill, clamp, rounded_product};

/// The factor of a transition that reverses one with the factor `old`, whose output is `q` (CSS Transitions
/// Level 1, "Faster reversing of interrupted transitions").
pub fn shortened(old: Bill, q: Bill) -> Bill
    requires { IsFactor old.0 }
    ensures value { result.0 ≡ shortened old.0 q.0 }
    ensures factor { IsFactor result.0 }
{
    Bill(clamp(left_of_one(old, q).abs(), 0, Bill::ONE.0))
}

/// The output times the factor, plus what the factor leaves of 1, in billionths.
fn left_of_one(old: Bill, q: Bill) -> i128
    requires { IsFactor old.0 }
    ensures value { result ≡ part_of old.0 q.0 +ℤ (Bill.ONE.0 -ℤ old.0) }
    ensures size { unsigned_abs result < 2 ^ 65 }
{
    rounded_product(old.0, q.0, Bill::ONE.0) + i128::from(Bill::ONE.0 - old.0)
}
