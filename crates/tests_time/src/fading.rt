//! A transition of the opacity, from 0 to 1 in the first second.
ghost use Rattle.std.specs.Prelude.{◌≡◌};
ghost use Rattle.style_data.specs.Kept.{IsKeptFor};
ghost use Rattle.value_types.specs.declared.property.PropertyId.{PropertyId};
ghost use Rattle.value_types.specs.declared.value.Value.{Value};

use fix_num::{Bill, Fix, Micros};
use style_data::{Phase, Running, Transition};
use timing_types::Easing;
use value_types::Value;

pub(crate) fn number(millionths: i64) -> Value
    ensures { result ≡ Value.Number (record { 0 = millionths }) }
{
    Value::Number(Fix(millionths))
}

pub(crate) fn fade(seen: Phase) -> Running
    ensures { IsKeptFor PropertyId.Opacity result }
{
    Running::new(Transition {
        from: number(0),
        to: number(1_000_000),
        adjusted: number(0),
        created: Micros(0),
        start: Micros(0),
        end: Micros(1_000_000),
        easing: Easing::Linear,
        factor: Bill(1_000_000_000),
        generation: 1,
        position: 0,
        seen,
    })
}
