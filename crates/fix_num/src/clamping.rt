//! Numbers clamped to a range.
ghost use Rattle.std.specs.Prelude.{◌≡◌, ◌≤ℤ◌};
ghost use Rattle.fix_num.specs.Clamping.{clamped_number};

/// The number from `low` to `high` that is nearest to `v`.
#[tactic(auto, unfolding(crate::specs::Clamping::clamped_number))]
pub fn clamp(v: i128, low: i64, high: i64) -> i64
    requires { low ≤ℤ high }
    ensures value { result ≡ clamped_number v low high }
    ensures low { low ≤ℤ result }
    ensures high { result ≤ℤ high }
{
    v.min(i128::from(high)).max(i128::from(low)) as i64
}
