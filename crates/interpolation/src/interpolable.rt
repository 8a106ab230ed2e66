//! Which values can be interpolated.
ghost use Rattle.std.specs.Prelude.{◌≡◌, ◌↔◌, IsTrue};
ghost use Rattle.interpolation.specs.Equality.{is_same};
ghost use Rattle.interpolation.specs.Interpolation.{are_interpolable, is_interpolable, kind_of_value};

use value_types::{PropertyId, Value, ValueKind, Visibility, takes};

/// Whether two values of the property can be interpolated: numbers, lengths, integers, angles, pairs and colours
/// with their like, `none` with an angle or a pair, and visibilities of which one is visible (Web Animations
/// Level 1, "animating properties"). No other values can be, and none that isn't of a kind that the property takes.
pub fn able(p: PropertyId, a: Value, b: Value) -> bool
    ensures { result ≡ is_interpolable p a b }
{
    takes(p, kind_of(a)) && takes(p, kind_of(b)) && are_interpolable(a, b)
}

/// Whether the values are equal in all their parts.
pub fn same(a: Value, b: Value) -> bool
    ensures value { result ≡ is_same a b }
    ensures equal { IsTrue result ↔ (a ≡ b) }
{
    a == b
}

fn kind_of(v: Value) -> ValueKind
    ensures { result ≡ kind_of_value v }
{
    match v {
        Value::Number(_) => ValueKind::Number,
        Value::Length { .. } => ValueKind::Length,
        Value::Auto => ValueKind::Auto,
        Value::Int(_) => ValueKind::Int,
        Value::Color { .. } => ValueKind::Color,
        Value::Angle(_) => ValueKind::Angle,
        Value::Pair { .. } => ValueKind::Pair,
        Value::Absent => ValueKind::Absent,
        Value::Visible(_) => ValueKind::Visibility,
        Value::Display(_) => ValueKind::Display,
    }
}

fn are_interpolable(a: Value, b: Value) -> bool
    ensures { result ≡ are_interpolable a b }
{
    match (a, b) {
        (Value::Number(_), Value::Number(_))
        | (Value::Length { .. }, Value::Length { .. })
        | (Value::Int(_), Value::Int(_))
        | (Value::Color { .. }, Value::Color { .. })
        | (Value::Angle(_), Value::Angle(_) | Value::Absent)
        | (Value::Pair { .. }, Value::Pair { .. } | Value::Absent)
        | (Value::Absent, Value::Angle(_) | Value::Pair { .. } | Value::Absent) => true,
        (Value::Visible(v), Value::Visible(w)) => {
            v == Visibility::Visible || w == Visibility::Visible
        }
        _ => false,
    }
}
