//! Tests of `interpolation` and `reversing`.
ghost use Rattle.std.specs.Prelude.{◌≡◌};

use fix_num::{Bill, Fix, Micros};
use interpolation::{able, between, same};
use reversing::{reversed_times, shortened};
use value_types::{PropertyId, Value, Visibility};

const HALF: Bill = Bill(500_000_000);

const LIMIT: i64 = 1_000_000_000_000;

fn length(px: i64, pct: i64) -> Value
    ensures { result ≡ Value.Length (record { 0 = px }) (record { 0 = pct }) }
{
    Value::Length {
        px: Fix(px),
        pct: Fix(pct),
    }
}

fn color(r: u8, g: u8, b: u8, a: i64) -> Value
    ensures { result ≡ Value.Color r g b (record { 0 = a }) }
{
    Value::Color { r, g, b, a: Fix(a) }
}

#[test]
fn halfway(rt: HostRuntime) {
    let p = PropertyId::Width;
    let got = between(p, length(10_000_000, 0), length(0, 50_000_000), HALF);
    assert!(rt; got == length(5_000_000, 25_000_000));
    let p = PropertyId::BackgroundColor;
    let got = between(p, color(255, 0, 0, 1_000_000), color(0, 0, 0, 0), HALF);
    assert!(rt; got == color(255, 0, 0, 500_000));
    let p = PropertyId::ZIndex;
    assert!(rt; between(p, Value::Int(0), Value::Int(5), HALF) == Value::Int(3));
    assert!(rt; between(p, Value::Int(0), Value::Int(-5), HALF) == Value::Int(-2));
    let p = PropertyId::Rotate;
    let right = Value::Angle(Fix(90_000_000));
    assert!(rt; between(p, Value::Absent, right, HALF) == Value::Angle(Fix(45_000_000)));
}

#[test]
fn far_outputs(rt: HostRuntime) {
    let p = PropertyId::Left;
    let (low, high) = (length(-LIMIT, -LIMIT), length(LIMIT, LIMIT));
    assert!(rt; between(p, low, high, Bill(40_000_000_000)) == high);
    assert!(rt; between(p, low, high, Bill(-40_000_000_000)) == low);
    let p = PropertyId::Width;
    let none = length(0, 0);
    assert!(rt; between(p, none, high, Bill(-40_000_000_000)) == none);
}

#[test]
fn interpolable_values(rt: HostRuntime) {
    let hidden = Value::Visible(Visibility::Hidden);
    let collapse = Value::Visible(Visibility::Collapse);
    let visible = Value::Visible(Visibility::Visible);
    for (p, a, b, want) in [
        (PropertyId::Visibility, hidden, collapse, false),
        (PropertyId::Visibility, hidden, visible, true),
        (PropertyId::Width, Value::Auto, length(0, 0), false),
        (PropertyId::Rotate, Value::Absent, Value::Absent, true),
        (PropertyId::Width, Value::Int(1), Value::Int(2), false),
    ] {
        assert!(rt; able(p, a, b) == want);
        assert!(rt; same(a, b) == (a == b));
    }
}

#[test]
fn shortening_factors(rt: HostRuntime) {
    // Outputs that overshoot to either side, and the greatest and the least that there are.
    for (old, q, want) in [
        (250_000_000, 400_000_000, 850_000_000),
        (1_000_000_000, -300_000_000, 300_000_000),
        (500_000_000, 1_200_000_000, 1_000_000_000),
        (1, -500_000_000, 999_999_999),
        (1_000_000_000, i64::MAX, 1_000_000_000),
        (1_000_000_000, i64::MIN, 1_000_000_000),
    ] {
        assert!(rt; factor(old, q) == Some(want));
    }
}

fn factor(old: i64, q: i64) -> Option<i64> {
    if old < 0 || old > Bill::ONE.0 {
        return None;
    }
    Some(shortened(Bill(old), Bill(q)).0)
}

#[test]
fn reversed(rt: HostRuntime) {
    let (start, end) = reversed_times(Micros(1000), Micros(-400), Micros(1000), HALF);
    assert!(rt; start.0 == 800 && end.0 == 1300);
    let (start, end) = reversed_times(Micros(1000), Micros(400), Micros(1001), HALF);
    assert!(rt; start.0 == 1400 && end.0 == 1901);
    let (start, end) = reversed_times(Micros(0), Micros(-3), Micros(0), HALF);
    assert!(rt; start.0 == -1 && end.0 == -1);
}
