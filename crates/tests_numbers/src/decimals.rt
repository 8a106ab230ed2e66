//! Tests of `fix_num`.

use fix_num::limits::{MAX_BYTES, MAX_INTEGER, MAX_NUMBER, MAX_TIME};
use fix_num::{
    Bill, Fix, NumFault, has_no_point, print_fix, read_decimal, read_decimal_bytes, read_rounded,
    read_rounded_bytes, rnd,
};
use std::test::Fail;

#[test]
fn reads_decimals(rt: HostRuntime) {
    for (text, exact, nearest) in [
        ("0.0005", Err(NumFault::TooFine), Ok(1)),
        ("-0.0005", Err(NumFault::TooFine), Ok(0)),
        ("-0.00050001", Err(NumFault::TooFine), Ok(-1)),
        ("0.00049999", Err(NumFault::TooFine), Ok(0)),
        ("1000.0004", Err(NumFault::TooFine), Ok(1_000_000)),
        ("1000.0005", Err(NumFault::TooFine), Err(NumFault::TooLarge)),
        (".5", Ok(500), Ok(500)),
        ("-.5", Ok(-500), Ok(-500)),
        ("+5", Ok(5_000), Ok(5_000)),
        ("1.50000", Ok(1_500), Ok(1_500)),
        ("1.", Err(NumFault::Syntax), Err(NumFault::Syntax)),
        ("", Err(NumFault::Syntax), Err(NumFault::Syntax)),
        ("-", Err(NumFault::Syntax), Err(NumFault::Syntax)),
        ("1e3", Err(NumFault::Syntax), Err(NumFault::Syntax)),
    ] {
        assert!(rt; read_decimal(text, 3, 1_000_000) == exact);
        assert!(rt; read_rounded(text, 3, 1_000_000) == nearest);
    }
}

#[test]
fn reads_up_to_the_limit(rt: HostRuntime) {
    for (text, want) in [
        ("9223372036854775807", Ok(i64::MAX)),
        ("-9223372036854775807", Ok(-i64::MAX)),
        ("9223372036854775808", Err(NumFault::TooLarge)),
        ("-9223372036854775808", Err(NumFault::TooLarge)),
    ] {
        assert!(rt; read_decimal_bytes(text.as_bytes(), 0, i64::MAX) == want);
        assert!(rt; read_rounded_bytes(text.as_bytes(), 0, i64::MAX) == want);
    }
}

#[test]
fn prints_decimals(rt: HostRuntime) -> Result<(), Fail> {
    for (value, want) in [
        (0, "0"),
        (1_000_000, "1"),
        (-1, "-0.000001"),
        (-1_500_000, "-1.5"),
        (i64::MIN, "-9223372036854.775808"),
    ] {
        let mut out = Vec::new(rt.alloc());
        print_fix(&mut out, value, 6)?;
        assert!(rt; out.as_slice() == want.as_bytes());
    }
    Ok(())
}

#[test]
fn rounds_halves_up(rt: HostRuntime) {
    for (dividend, want) in [(3, 2), (-3, -1), (-4, -2), (1, 1), (-1, 0)] {
        assert!(rt; rnd(dividend, 2) == want);
    }
}

#[test]
fn finds_points(rt: HostRuntime) {
    for (text, want) in [("-12", true), ("1.0", false), (".5", false), ("", true)] {
        assert!(rt; has_no_point(text.as_bytes()) == want);
    }
}

#[test]
fn ones_and_limits(rt: HostRuntime) {
    assert!(rt; Fix::ONE.0 == 1_000_000);
    assert!(rt; Bill::ONE.0 == 1_000_000_000);
    assert!(rt; MAX_NUMBER == 1_000_000 * 1_000_000);
    assert!(rt; MAX_TIME == 1_000_000_000_000_000);
    assert!(rt; MAX_INTEGER == 2_147_483_647);
    assert!(rt; MAX_BYTES == 67_108_864);
}
