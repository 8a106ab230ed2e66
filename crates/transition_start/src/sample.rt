//! A running transition at a time.
ghost use Rattle.std.specs.Prelude.{◌≡◌, ◌≤◌, ◌^◌, unsigned_abs};
ghost use Rattle.style_data.specs.Kept.{IsKeptFor};
ghost use Rattle.style_data.specs.Transitions.{IsTransition};
ghost use Rattle.value_types.specs.Validity.{IsValid};
ghost use Rattle.transition_start.specs.Phase.{phase_of};
ghost use Rattle.transition_start.specs.Sampling.{output_at, sample_of};

use easing::output;
use fix_num::{Bill, Micros};
use interpolation::between;
use style_data::{Phase, Running, Transition};
use value_types::{PropertyId, Value};

/// The phase of a running transition at time `t` (Web Animations Level 1, "Animation effect phases and states").
pub fn phase_at(r: &Running, t: Micros) -> Phase
    ensures { result ≡ phase_of r.now t.0 }
{
    let r = r.get();
    if r.end.0 <= t.0 {
        Phase::After
    } else if t.0 < r.start.0 {
        Phase::Before
    } else {
        Phase::Active
    }
}

/// The value of a running transition of the property at time `t`, whenever that is (CSS Transitions Level 1,
/// section 4): its start value up to its start, and its end value from its end on.
pub fn value_at(p: PropertyId, r: &Running, t: Micros) -> Value
    requires kept { IsKeptFor p r.now }
    ensures value { result ≡ sample_of p r.now t.0 }
    ensures valid { IsValid p result }
{
    let r = r.get();
    between(p, r.from, r.to, output_at(r, t))
}

/// The output of a transition's easing at time `t`.
#[tactic(auto, unfolding(crate::specs::Sampling::output_at))]
pub(crate) fn output_at(r: Transition, t: Micros) -> Bill
    requires { IsTransition r }
    ensures value { result.0 ≡ output_at r t.0 }
    ensures size { unsigned_abs result.0 ≤ 10 ^ 10 }
{
    if r.end.0 <= t.0 {
        return Bill(1_000_000_000);
    }
    if t.0 <= r.start.0 {
        return Bill(0);
    }
    output(
        r.easing,
        i128::from(t.0 - r.start.0),
        i128::from(r.end.0 - r.start.0),
        false,
    )
}
