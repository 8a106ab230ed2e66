//! Numbers at an output.
ghost use Rattle.std.specs.Prelude.{◌≡◌, ◌≤◌, ◌*◌, ◌^◌, unsigned_abs};
ghost use Rattle.fix_num.specs.declared.limits.TheConstants.{MAX_NUMBER};
ghost use Rattle.value_types.specs.Ranges.{IsInteger, IsWithinLimit};
ghost use Rattle.interpolation.specs.Numbers.{integer_between, number_between, on_the_way};

use fix_num::limits::MAX_INTEGER;
use fix_num::{Bill, Fix, clamp, rounded_product};
use value_types::{PropertyId, range_of};

const LARGEST_INTEGER: i64 = MAX_INTEGER as i64;

/// A number of the property at output `q`.
#[tactic(auto, unfolding(crate::specs::Numbers::number_between))]
pub(crate) fn number_between(p: PropertyId, a: Fix, b: Fix, q: Bill) -> Fix
    requires from { IsWithinLimit a }
    requires to { IsWithinLimit b }
    requires output { unsigned_abs q.0 ≤ 4 * 10 ^ 10 }
    ensures { result ≡ number_between p a b q.0 }
{
    let range = range_of(p);
    Fix(clamp(on_the_way(a.0, b.0, q.0), range.lowest(), range.highest()))
}

/// An integer at output `q`.
#[tactic(auto, unfolding(crate::specs::Numbers::integer_between))]
pub(crate) fn integer_between(i: i32, j: i32, q: Bill) -> i32
    requires from { IsInteger i }
    requires to { IsInteger j }
    requires output { unsigned_abs q.0 ≤ 4 * 10 ^ 10 }
    ensures { result ≡ integer_between i j q.0 }
{
    clamp(
        on_the_way(i64::from(i), i64::from(j), q.0),
        -LARGEST_INTEGER,
        LARGEST_INTEGER,
    ) as i32
}

/// The number at output `q` on the way from `a` to `b`.
#[tactic(auto, unfolding(crate::specs::Numbers::on_the_way))]
pub(crate) fn on_the_way(a: i64, b: i64, q: i64) -> i128
    requires from { unsigned_abs a ≤ MAX_NUMBER }
    requires to { unsigned_abs b ≤ MAX_NUMBER }
    requires output { unsigned_abs q ≤ 4 * 10 ^ 10 }
    ensures { result ≡ on_the_way a b q }
{
    i128::from(a) + rounded_product(b - a, q, Bill::ONE.0)
}
