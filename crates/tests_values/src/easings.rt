//! Tests of `easing`. The outputs of curves were worked from the formulas in exact fractions, with a plain scan
//! over every parameter.

use crate::reading::easing;
use easing::output;

/// The output of the easing that the text spells.
fn output_at(rt: &HostRuntime, text: &str, num: u32, den: u32, before: bool) -> Option<i64> {
    if den == 0 || num > den {
        return None;
    }
    let Ok(e) = easing(rt, text) else {
        return None;
    };
    Some(output(e, i128::from(num), i128::from(den), before).0)
}

#[test]
fn linear_and_curves(rt: HostRuntime) {
    for (text, num, den, want) in [
        ("linear", 0, 3, 0),
        ("linear", 1, 3, 333_333_333),
        ("linear", 2, 3, 666_666_667),
        ("linear", 1, 2_000_000_000, 1),
        ("linear", 1, 2_000_000_001, 0),
        ("linear", 3, 3, 1_000_000_000),
        ("ease", 0, 7, 0),
        ("ease", 1, 4, 408_510_023),
        ("ease", 1, 3, 575_861_095),
        ("ease", 4, 6, 924_823_376),
        ("ease", 7, 7, 1_000_000_000),
        ("ease-in-out", 1, 2, 500_000_000),
        ("ease-out", 2, 3, 843_835_822),
        ("cubic-bezier(.5, 10, .5, 10)", 1, 2, 7_625_000_000),
        ("cubic-bezier(.5, -10, .5, -10)", 1, 2, -7_375_000_000),
        ("cubic-bezier(0, 0, 0, 1)", 1, 3, 775_581_697),
        ("cubic-bezier(1, 0, 0, 1)", 1, 2, 500_000_000),
        ("cubic-bezier(.333, .25, .667, .75)", 2, 3, 685_104_943),
    ] {
        assert!(rt; output_at(&rt, text, num, den, false) == Some(want));
    }
}

#[test]
fn steps(rt: HostRuntime) {
    for (text, num, den, unset, set) in [
        ("steps(3, jump-start)", 0, 4, 333_333_333, 0),
        ("steps(3, jump-start)", 1, 4, 333_333_333, 333_333_333),
        ("steps(3, jump-start)", 1, 3, 666_666_667, 333_333_333),
        ("steps(3, start)", 1, 1, 1_000_000_000, 1_000_000_000),
        ("steps(3)", 0, 4, 0, 0),
        ("steps(3, end)", 1, 3, 333_333_333, 0),
        ("steps(3, jump-end)", 1, 1, 1_000_000_000, 666_666_667),
        ("steps(3, jump-both)", 0, 4, 250_000_000, 0),
        ("steps(3, jump-both)", 2, 3, 750_000_000, 500_000_000),
        ("steps(3, jump-both)", 1, 1, 1_000_000_000, 750_000_000),
        ("steps(3, jump-none)", 0, 4, 0, 0),
        ("steps(3, jump-none)", 1, 3, 500_000_000, 0),
        ("steps(3, jump-none)", 1, 1, 1_000_000_000, 1_000_000_000),
    ] {
        assert!(rt; output_at(&rt, text, num, den, false) == Some(unset));
        assert!(rt; output_at(&rt, text, num, den, true) == Some(set));
    }
}
