//! The unit of outputs.
ghost use Rattle.std.specs.Prelude.{◌≡◌, ◌<◌, ◌≤◌, ◌*◌, ◌^◌, pos, ◌<ℤ◌, unsigned_abs};
ghost use Rattle.easing.specs.Billionths.{billionths};

use fix_num::{Bill, rnd};

/// 1, in billionths.
pub const ONE: u32 = Bill::ONE.0 as u32;

/// `part / whole` in billionths, rounded.
pub fn billionths(part: i128, whole: i128) -> Bill
    requires positive { pos 0 <ℤ whole }
    requires small { unsigned_abs whole < 2 ^ 81 }
    requires within { unsigned_abs part ≤ 10 * unsigned_abs whole }
    ensures value { result.0 ≡ billionths part whole }
    ensures size { unsigned_abs result.0 ≤ 10 ^ 10 }
{
    Bill(rnd(part * i128::from(ONE), whole) as i64)
}
