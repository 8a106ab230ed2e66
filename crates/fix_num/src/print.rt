//! Printing a number as a decimal.
ghost use Rattle.std.specs.Prelude.{◌≡◌, ◌≤◌, ◌<◌, ◌^◌, ◌++◌, OnOk, OnErr};
ghost use Rattle.std.specs.Io.{StartsWith};
ghost use Rattle.fix_num.specs.Print.{decimal_text, fraction_text};

use itoa::Buffer;
use std::alloc::AllocError;

/// Appends `v` units of `10^-places` as a decimal: no zeros at its end, no point where it is whole, a `-`
/// before a negative one. Where memory runs out nothing is appended.
pub fn print_fix(out: &mut Vec<u8>, v: i64, places: u32) -> Result<(), AllocError>
    requires { places ≤ 9 }
    ensures ok { OnOk result (out.new.items ≡ out.old.items ++ decimal_text places v) }
    ensures err { OnErr result (out.new.items ≡ out.old.items) }
{
    let before = out.len();
    let result = push_number(out, v, places);
    if result.is_err() {
        out.truncate(before);
    }
    result
}

#[tactic(auto, using(crate::proofs::PrintLemmas::starts_with_more), unfolding(crate::specs::Print::decimal_text))]
fn push_number(out: &mut Vec<u8>, v: i64, places: u32) -> Result<(), AllocError>
    requires { places ≤ 9 }
    ensures ok { OnOk result (out.new.items ≡ out.old.items ++ decimal_text places v) }
    ensures kept { OnErr result (StartsWith out.new.items out.old.items) }
{
    let unit = unit_of(places);
    let size = v.unsigned_abs();
    if v < 0 {
        out.push(b'-')?;
    }
    out.extend_from_slice(Buffer::new().format(size / unit).as_bytes())?;
    push_fraction(out, size % unit, places)
}

/// Appends a point and the digits of `rest`, which is below `10^places`, up to its last that isn't 0.
#[tactic(auto, using(crate::proofs::PrintLemmas::starts_with_more, crate::proofs::PrintLemmas::place_left, crate::proofs::PrintLemmas::fraction_step))]
fn push_fraction(out: &mut Vec<u8>, rest: u64, places: u32) -> Result<(), AllocError>
    requires few { places ≤ 9 }
    requires below { rest < 10 ^ places }
    ensures ok { OnOk result (out.new.items ≡ out.old.items ++ fraction_text places rest) }
    ensures kept { StartsWith out.new.items out.old.items }
{
    if rest == 0 {
        return Ok(());
    }
    out.push(b'.')?;
    let mut left = rest;
    let mut place = places;
    while left != 0 {
        place -= 1;
        let unit = unit_of(place);
        out.push(b'0' + (left / unit) as u8)?;
        left %= unit;
    }
    Ok(())
}

/// `10^places`.
#[tactic(auto, using(crate::proofs::PrintLemmas::power_positive))]
fn unit_of(places: u32) -> u64
    requires { places ≤ 9 }
    ensures value { result ≡ 10 ^ places }
    ensures positive { 0 < result }
{
    10u64.pow(places)
}
