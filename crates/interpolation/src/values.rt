//! The value at an output.
ghost use Rattle.std.specs.Prelude.{◌≡◌, ◌⊎◌, ◌≤◌, ◌*◌, ◌^◌, IsTrue, unsigned_abs};
ghost use Rattle.value_types.specs.Validity.{IsValid};
ghost use Rattle.value_types.specs.declared.property.PropertyId.{PropertyId};
ghost use Rattle.interpolation.specs.Interpolation.{counted_beside, by_parts, is_interpolable, kind_of_value, value_between, visibility_between};

use crate::color::{Rgba, rgba_between};
use crate::interpolable::same;
use crate::number::{integer_between, number_between};
use fix_num::{Bill, Fix};
use value_types::{PropertyId, Value, ValueKind, Visibility};

/// The value of the property at output `q`, in billionths, on the way from `a` to `b` (Web Animations Level 1,
/// "animating properties"): `a` at 0, `b` at 1, and past the ends as far as the property's range and the limits go.
/// Both have to be values of the property, since only then is what stands between them one.
#[tactic(auto, unfolding(crate::specs::Interpolation::value_between))]
pub fn between(p: PropertyId, a: Value, b: Value, q: Bill) -> Value
    requires from { IsValid p a }
    requires to { IsValid p b }
    requires pair { IsTrue (is_interpolable p a b) ⊎ (a ≡ b) }
    requires output { unsigned_abs q.0 ≤ 4 * 10 ^ 10 }
    ensures value { result ≡ value_between p a b q.0 }
    ensures valid { IsValid p result }
{
    if q.0 == 0 || same(a, b) {
        return a;
    }
    if q.0 == Bill::ONE.0 {
        return b;
    }
    by_parts(p, beside(b, a), beside(a, b), q)
}

/// `v`, or the zero of the kind of `w` where `v` is `none`.
fn beside(w: Value, v: Value) -> Value
    ensures value { result ≡ counted_beside w v }
    ensures valid { (p : PropertyId) → IsValid p w → IsValid p v → IsValid p result }
{
    let zero = Fix(0);
    match (w, v) {
        (Value::Angle(_), Value::Absent) => Value::Angle(zero),
        (Value::Pair { .. }, Value::Absent) => Value::Pair {
            x_px: zero,
            x_pct: zero,
            y_px: zero,
            y_pct: zero,
        },
        _ => v,
    }
}

/// The value at output `q` between values of one kind, by their parts.
fn by_parts(p: PropertyId, a: Value, b: Value, q: Bill) -> Value
    requires from { IsValid p a }
    requires to { IsValid p b }
    requires output { unsigned_abs q.0 ≤ 4 * 10 ^ 10 }
    ensures { result ≡ by_parts p a b q.0 }
{
    match (a, b) {
        (Value::Number(m), Value::Number(n)) => Value::Number(number_between(p, m, n, q)),
        (Value::Length { px: m, pct: n }, Value::Length { px, pct }) => Value::Length {
            px: number_between(p, m, px, q),
            pct: number_between(p, n, pct, q),
        },
        (Value::Int(i), Value::Int(j)) => Value::Int(integer_between(i, j, q)),
        (Value::Color { .. }, Value::Color { .. }) => color_between(p, a, b, q),
        (Value::Angle(m), Value::Angle(n)) => Value::Angle(number_between(p, m, n, q)),
        (Value::Pair { .. }, Value::Pair { .. }) => pair_between(p, a, b, q),
        (Value::Visible(v), Value::Visible(w)) => Value::Visible(visibility_between(v, w, q)),
        _ => a,
    }
}

/// A pair at output `q` on the way from pair to pair.
fn pair_between(p: PropertyId, a: Value, b: Value, q: Bill) -> Value
    requires from { IsValid p a }
    requires to { IsValid p b }
    requires pairs { (kind_of_value a ≡ ValueKind.Pair) × (kind_of_value b ≡ ValueKind.Pair) }
    requires output { unsigned_abs q.0 ≤ 4 * 10 ^ 10 }
    ensures { result ≡ by_parts p a b q.0 }
{
    match (a, b) {
        (
            Value::Pair {
                x_px,
                x_pct,
                y_px,
                y_pct,
            },
            Value::Pair {
                x_px: to_x_px,
                x_pct: to_x_pct,
                y_px: to_y_px,
                y_pct: to_y_pct,
            },
        ) => Value::Pair {
            x_px: number_between(p, x_px, to_x_px, q),
            x_pct: number_between(p, x_pct, to_x_pct, q),
            y_px: number_between(p, y_px, to_y_px, q),
            y_pct: number_between(p, y_pct, to_y_pct, q),
        },
        _ => a,
    }
}

/// A colour at output `q` on the way from colour to colour.
fn color_between(p: PropertyId, a: Value, b: Value, q: Bill) -> Value
    requires from { IsValid p a }
    requires to { IsValid p b }
    requires colors { (kind_of_value a ≡ ValueKind.Color) × (kind_of_value b ≡ ValueKind.Color) }
    requires output { unsigned_abs q.0 ≤ 4 * 10 ^ 10 }
    ensures { result ≡ by_parts p a b q.0 }
{
    match (a, b) {
        (
            Value::Color { r, g, b, a },
            Value::Color {
                r: to_r,
                g: to_g,
                b: to_b,
                a: to_a,
            },
        ) => {
            rgba_between(
                Rgba { r, g, b, a },
                Rgba {
                    r: to_r,
                    g: to_g,
                    b: to_b,
                    a: to_a,
                },
                q,
            )
        }
        _ => a,
    }
}

/// The visibility at output `q`: visible all the way between the ends.
fn visibility_between(v: Visibility, w: Visibility, q: Bill) -> Visibility
    ensures { result ≡ visibility_between v w q.0 }
{
    if q.0 < 0 {
        v
    } else if q.0 > Bill::ONE.0 {
        w
    } else {
        Visibility::Visible
    }
}
