//! Cubic Bezier curves.
ghost use Rattle.std.specs.Prelude.{◌≡◌, ◌↔◌, ◌<◌, ◌≤◌, ◌*◌, ◌^◌, ℤ, pos, ◌*ℤ◌, ◌≤ℤ◌, ◌<ℤ◌, unsigned_abs, IsTrue};
ghost use Rattle.timing_types.specs.Timing.{IsControlPoint};
ghost use Rattle.timing_types.specs.declared.limits.TheConstants.{MAX_ORDINATE};
ghost use Rattle.easing.specs.Bezier.{coordinate, input_billionths, ordinate_output, parameter_of, parts, whole, IsParameter, IsReached, IsUnitCoordinate};

use crate::units::{ONE, billionths};
use fix_num::Bill;

/// A curve's parameter is counted in parts, 0 to this many.
const PARTS: u32 = 1 << 20;

/// A coordinate of 1: a thousand thousandths times the cube of `PARTS`.
const WHOLE: i128 = 1000 << 60;

/// The output of the curve through the control points `(x1, y1)` and `(x2, y2)` at the input `num / den`.
pub fn cubic(x1: i32, y1: i32, x2: i32, y2: i32, num: i128, den: i128) -> Bill
    requires first { IsControlPoint x1 y1 }
    requires second { IsControlPoint x2 y2 }
    requires low { pos 0 ≤ℤ num }
    requires high { num ≤ℤ den }
    requires positive { pos 0 <ℤ den }
    requires small { unsigned_abs den < 2 ^ 81 }
    ensures value { result.0 ≡ ordinate_output y1 y2 (parameter_of x1 x2 (input_billionths num den)) }
    ensures size { unsigned_abs result.0 ≤ 10 ^ 10 }
{
    let k = parameter(x1, x2, input(num, den));
    billionths(coordinate(y1, y2, k), WHOLE)
}

/// The input `num / den` in billionths, rounded down.
fn input(num: i128, den: i128) -> u32
    requires low { pos 0 ≤ℤ num }
    requires high { num ≤ℤ den }
    requires positive { pos 0 <ℤ den }
    requires small { unsigned_abs den < 2 ^ 81 }
    ensures value { pos result ≡ input_billionths num den }
    ensures within { result ≤ 10 ^ 9 }
{
    (num.unsigned_abs() * u128::from(ONE) / den.unsigned_abs()) as u32
}

/// The greatest parameter whose point isn't to the right of the input `x`, found by halving.
fn parameter(x1: i32, x2: i32, x: u32) -> u32
    requires first { IsUnitCoordinate x1 }
    requires second { IsUnitCoordinate x2 }
    requires within { x ≤ 10 ^ 9 }
    ensures { IsParameter x1 x2 (pos x) result }
{
    let mut reached: u32 = 0;
    let mut beyond: u32 = PARTS + 1;
    while beyond - reached > 1 {
        let middle = (reached + beyond) / 2;
        if is_reached(x1, x2, x, middle) {
            reached = middle;
        } else {
            beyond = middle;
        }
    }
    reached
}

/// Whether the point at parameter `k` isn't to the right of the input `x`.
fn is_reached(x1: i32, x2: i32, x: u32, k: u32) -> bool
    requires first { unsigned_abs x1 ≤ MAX_ORDINATE }
    requires second { unsigned_abs x2 ≤ MAX_ORDINATE }
    requires within { x ≤ 10 ^ 9 }
    requires parameter { k ≤ parts }
    ensures { IsTrue result ↔ IsReached x1 x2 (pos x) k }
{
    coordinate(x1, x2, k) * i128::from(ONE) <= i128::from(x) * WHOLE
}

/// A coordinate of the point at parameter `k`, from those of the inner control points, in thousandths.
fn coordinate(first: i32, second: i32, k: u32) -> i128
    requires first { unsigned_abs first ≤ MAX_ORDINATE }
    requires second { unsigned_abs second ≤ MAX_ORDINATE }
    requires parameter { k ≤ parts }
    ensures value { result ≡ coordinate first second k }
    ensures size { unsigned_abs result ≤ 10 * whole }
{
    let rest = PARTS - k;
    term(3 * product(k, rest, rest), first)
        + term(3 * product(k, k, rest), second)
        + term(product(k, k, k), 1000)
}

/// What a control point's coordinate adds at its weight.
fn term(weight: u64, coordinate: i32) -> i128
    requires weight { weight ≤ 3 * parts ^ 3 }
    requires coordinate { unsigned_abs coordinate ≤ MAX_ORDINATE }
    ensures value { result ≡ pos weight *ℤ coordinate }
    ensures size { unsigned_abs result ≤ MAX_ORDINATE * weight }
{
    i128::from(weight) * i128::from(coordinate)
}

/// The product of three parameters.
fn product(a: u32, b: u32, c: u32) -> u64
    requires factors { (a ≤ parts) × ((b ≤ parts) × (c ≤ parts)) }
    ensures value { result ≡ a * b * c }
    ensures size { result ≤ parts ^ 3 }
{
    u64::from(a) * u64::from(b) * u64::from(c)
}
