//! Reading a decimal exactly.
ghost use Rattle.std.specs.Prelude.{◌≡◌, ◌≤◌, ◌<◌, ◌^◌, ◌==◌, min, length, take, drop, take_while, pos, ◌≤ℤ◌, unsigned_abs, IsTrue, option_map};
ghost use Rattle.std.specs.List.{list_all};
ghost use Rattle.std.specs.Char.{is_ascii_digit};
ghost use Rattle.std.specs.Str.Parse.{digits_value_after};
ghost use Rattle.fix_num.specs.Digits.{are_digits};
ghost use Rattle.fix_num.specs.Decimal.{reading_of, exact_reading, decimal_of, unsigned_of, with_fraction, units_of, number_within, signed_number};
ghost use Rattle.fix_num.specs.Parts.{decimal_parts};

use crate::parts::Parts;
use thiserror::Error;

/// Why a text is no number of the wanted form.
#[derive(Clone, Copy, Debug, PartialEq, Eq, Error)]
pub enum NumFault {
    #[error("not a decimal")]
    Syntax,
    #[error("too many decimals")]
    TooFine,
    #[error("out of range")]
    TooLarge,
}

/// Reads a decimal as a whole number of units of `10^-places`: an optional sign, then digits, digits with
/// a point and digits, or a point and digits. `Syntax`: the text isn't of this form. `TooFine`: a digit
/// after the last place isn't 0. `TooLarge`: the size passes `limit`. In this order.
pub fn read_decimal(text: &str, places: u32, limit: i64) -> Result<i64, NumFault>
    requires few { places ≤ 9 }
    requires limit { pos 0 ≤ℤ limit }
    ensures { result ≡ reading_of places (unsigned_abs limit) text.now }
{
    read_decimal_bytes(text.as_bytes(), places, limit)
}

/// As `read_decimal`, from the bytes of a text.
#[tactic(auto, unfolding(crate::specs::Decimal::reading_of))]
pub fn read_decimal_bytes(text: &[u8], places: u32, limit: i64) -> Result<i64, NumFault>
    requires few { places ≤ 9 }
    requires limit { pos 0 ≤ℤ limit }
    ensures { result ≡ reading_of places (unsigned_abs limit) text.now }
{
    let Some(parts) = split(text) else {
        return Err(NumFault::Syntax);
    };
    exact_number(&parts, places as usize, limit as u64)
}

fn exact_number(parts: &Parts, places: usize, limit: u64) -> Result<i64, NumFault>
    requires few { places ≤ 9 }
    requires limit { limit < 2 ^ 63 }
    ensures { result ≡ exact_reading places limit (decimal_parts parts.now) }
{
    if !is_exact_at(parts.fraction, places) {
        return Err(NumFault::TooFine);
    }
    number_within(parts.negative, units_at(parts, places), limit)
}

/// The number of this size, unless that passes the limit.
pub(crate) fn number_within(negative: bool, size: u64, limit: u64) -> Result<i64, NumFault>
    requires { limit < 2 ^ 63 }
    ensures { result ≡ number_within limit (signed_number negative size) }
{
    if size > limit {
        return Err(NumFault::TooLarge);
    }
    let size = size as i64;
    Ok(if negative { -size } else { size })
}

#[tactic(auto, unfolding(crate::specs::Decimal::decimal_of))]
pub(crate) fn split(text: &[u8]) -> Option<Parts<'_>>
    ensures { option_map decimal_parts result ≡ decimal_of text.now }
{
    if text.is_empty() {
        return None;
    }
    match text[0] {
        b'-' => split_unsigned(true, &text[1..]),
        b'+' => split_unsigned(false, &text[1..]),
        _ => split_unsigned(false, text),
    }
}

#[tactic(auto, unfolding(crate::specs::Decimal::unsigned_of))]
fn split_unsigned(negative: bool, text: &[u8]) -> Option<Parts<'_>>
    ensures { option_map decimal_parts result ≡ unsigned_of negative text.now }
{
    let (whole, rest) = split_digits(text);
    with_fraction(negative, whole, rest)
}

/// The digits that the text begins with, and the rest.
#[tactic(auto, using(crate::proofs::DecimalLemmas::are_digits_front))]
fn split_digits(text: &[u8]) -> (&[u8], &[u8])
    ensures digits { result.0.now ≡ take_while is_ascii_digit text.now }
    ensures rest { result.1.now ≡ drop (length (take_while is_ascii_digit text.now)) text.now }
    ensures are_digits { IsTrue (are_digits result.0.now) }
{
    text.split_at(digit_count(text))
}

fn digit_count(text: &[u8]) -> usize
    ensures count { result ≡ length (take_while is_ascii_digit text.now) }
    ensures bound { result ≤ length text.now }
{
    text.iter().take_while(|b| b.is_ascii_digit()).count()
}

fn with_fraction<'a>(negative: bool, whole: &'a [u8], rest: &'a [u8]) -> Option<Parts<'a>>
    requires { IsTrue (are_digits whole.now) }
    ensures { option_map decimal_parts result ≡ with_fraction negative whole.now rest.now }
{
    if rest.is_empty() {
        if whole.is_empty() {
            return None;
        }
        return Some(Parts {
            negative,
            whole,
            fraction: rest,
        });
    }
    let fraction = &rest[1..];
    if rest[0] != b'.' || fraction.is_empty() || !are_all_digits(fraction) {
        return None;
    }
    Some(Parts {
        negative,
        whole,
        fraction,
    })
}

fn are_all_digits(text: &[u8]) -> bool
    ensures { result ≡ are_digits text.now }
{
    text.iter().all(|b| b.is_ascii_digit())
}

/// Whether only zeros stand after this place.
pub(crate) fn is_exact_at(fraction: &[u8], places: usize) -> bool
    ensures { result ≡ list_all (λ c. c == 48) (drop places fraction.now) }
{
    fraction.iter().skip(places).all(|digit| *digit == b'0')
}

const ZEROS: &[u8; 9] = b"000000000";

/// More than any limit.
const OVER: u128 = 1 << 63;

/// The number of units of `10^-places`, or `OVER` where it is more.
#[tactic(auto, using(crate::proofs::DecimalLemmas::are_digits_take, crate::proofs::DecimalLemmas::are_digits_zeros))]
pub(crate) fn units_at(parts: &Parts, places: usize) -> u64
    requires { places ≤ 9 }
    ensures { result ≡ min (units_of places (decimal_parts parts.now)) (2 ^ 63) }
{
    let whole = with_digits(0, parts.whole);
    let kept = parts.fraction.len().min(places);
    let exact = with_digits(whole, &parts.fraction[..kept]);
    with_digits(exact, &ZEROS[..places - kept]) as u64
}

/// The number that the digits write after those of `start`, or `OVER` where it is more.
fn with_digits(start: u128, digits: &[u8]) -> u128
    requires start { start ≤ 2 ^ 63 }
    requires digits { IsTrue (are_digits digits.now) }
    ensures value { result ≡ min (digits_value_after 10 start digits.now) (2 ^ 63) }
    ensures bound { result ≤ 2 ^ 63 }
{
    let mut value = start;
    for digit in digits {
        value = (value * 10 + u128::from(*digit - b'0')).min(OVER);
    }
    value
}
