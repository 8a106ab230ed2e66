//! Tests of `value_text`, `computed_value` and `value_print`, as one reading and printing.
ghost use Rattle.value_types.specs.Validity.{IsDeclaredFor};

use crate::reading::declared;
use computed_value::absolute;
use fix_num::Fix;
use std::test::Fail;
use token_parts::ValueFault;
use value_print::print_value;
use value_types::{Declared, PropertyId, Size, Unit, Value};

/// The computed value of a specified one, where the parent's font size is 16px, the element's 20px and the root's
/// 10px.
fn computed(p: PropertyId, d: Declared) -> Option<Value>
    requires { IsDeclaredFor p d }
{
    if matches!(d, Declared::Initial | Declared::Inherit) {
        return None;
    }
    Some(absolute(p, &d, Fix(16_000_000), Fix(20_000_000), Fix(10_000_000)))
}

/// The printed form of the computed value that the text gives.
fn printed(rt: &HostRuntime, p: PropertyId, text: &str) -> Option<Vec<u8>> {
    let Ok(d) = declared(rt, p, text) else {
        return None;
    };
    let value = computed(p, d)?;
    let mut out = Vec::new(rt.alloc());
    print_value(&mut out, p, value).ok()?;
    Some(out)
}

fn prints(rt: &HostRuntime, p: PropertyId, text: &str, wanted: &str) -> bool {
    match printed(rt, p, text) {
        Some(out) => out.as_slice() == wanted.as_bytes(),
        None => false,
    }
}

#[test]
fn computes_and_prints(rt: HostRuntime) {
    for (p, text, wanted) in [
        (
            PropertyId::BackgroundColor,
            "#ff000080",
            "rgba(255, 0, 0, 0.501961)",
        ),
        (PropertyId::Opacity, "50%", "0.5"),
        (PropertyId::Opacity, "3", "1"),
        (PropertyId::Opacity, "-1", "0"),
        (PropertyId::Top, ".0000005px", "0.000001px"),
        (PropertyId::Top, "-1000000em", "-1000000px"),
        (PropertyId::FontSize, "2em", "32px"),
        (PropertyId::FontSize, "50%", "8px"),
        (PropertyId::FontSize, "2rem", "20px"),
        (PropertyId::LetterSpacing, "normal", "0px"),
        (PropertyId::Width, "1.5em", "30px"),
        (PropertyId::Width, "50%", "50%"),
        (PropertyId::Height, "2rem", "20px"),
        (PropertyId::Translate, "1px", "1px"),
        (PropertyId::Translate, "0 2%", "0px 2%"),
    ] {
        assert!(rt; prints(&rt, p, text, wanted));
    }
}

#[test]
fn reads_back_what_it_printed(rt: HostRuntime) {
    for (p, text) in [
        (PropertyId::Color, "rgb(1, 2, 255)"),
        (PropertyId::Color, "rgba(1, 2, 255, 0.25)"),
        (PropertyId::MarginLeft, "-0.5px"),
        (PropertyId::Width, "12.5%"),
        (PropertyId::ZIndex, "-7"),
        (PropertyId::Rotate, "-0.000001deg"),
        (PropertyId::Translate, "10% -1px"),
        (PropertyId::Translate, "none"),
        (PropertyId::Display, "inline-flex"),
        (PropertyId::Visibility, "collapse"),
    ] {
        assert!(rt; prints(&rt, p, text, text));
    }
}

#[test]
fn prints_sums(rt: HostRuntime) -> Result<(), Fail> {
    for (px, pct, wanted) in [
        (-5_000_000, 25_000_000, "calc(25% - 5px)"),
        (5_000_000, -25_000_000, "calc(-25% + 5px)"),
        (0, 50_000_000, "50%"),
        (i64::MIN, 1_000_000, "calc(1% - 9223372036854.775808px)"),
    ] {
        let value = Value::Length {
            px: Fix(px),
            pct: Fix(pct),
        };
        let mut out = Vec::new(rt.alloc());
        print_value(&mut out, PropertyId::Width, value)?;
        assert!(rt; out.as_slice() == wanted.as_bytes());
    }
    Ok(())
}

const UNSUPPORTED: Result<Declared, ValueFault> = Err(ValueFault::Unsupported);

const BOUND: Result<Declared, ValueFault> = Err(ValueFault::Bound);

fn pair(x: i64, y: i64) -> Result<Declared, ValueFault> {
    let size = |amount| Size {
        amount: Fix(amount),
        unit: Unit::Px,
    };
    Ok(Declared::Pair {
        x: size(x),
        y: size(y),
    })
}

#[test]
fn faults_and_pairs(rt: HostRuntime) {
    for (p, text, wanted) in [
        (PropertyId::Width, "", UNSUPPORTED),
        (PropertyId::Width, "-1000001px", UNSUPPORTED),
        (PropertyId::Width, "1000001px", BOUND),
        (PropertyId::Top, "-1000001px", BOUND),
        (PropertyId::Opacity, "1000001", BOUND),
        (
            PropertyId::Translate,
            "1px/**/2px",
            pair(1_000_000, 2_000_000),
        ),
        (PropertyId::Translate, "0", pair(0, 0)),
        (PropertyId::Translate, "1000001px 1vh", UNSUPPORTED),
        (
            PropertyId::ZIndex,
            "2147483647",
            Ok(Declared::Int(2_147_483_647)),
        ),
        (PropertyId::ZIndex, "2147483648", BOUND),
    ] {
        assert!(rt; declared(&rt, p, text) == wanted);
    }
}
