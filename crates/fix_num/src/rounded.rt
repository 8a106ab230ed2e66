//! Reading a decimal to the nearest number of units.
ghost use Rattle.std.specs.Prelude.{◌≡◌, ◌≤◌, ◌<◌, ◌^◌, drop, pos, ◌≤ℤ◌, unsigned_abs, IsTrue};
ghost use Rattle.fix_num.specs.Digits.{are_digits};
ghost use Rattle.fix_num.specs.Parts.{decimal_parts};
ghost use Rattle.fix_num.specs.Rounded.{passes_half, rounded_reading, rounded_reading_of};

use crate::decimal::{NumFault, is_exact_at, number_within, split, units_at};
use crate::parts::Parts;

/// Reads a decimal of the form that `read_decimal` reads as the nearest whole number of units of
/// `10^-places`, halves towards plus infinity, however many digits it has. `Syntax`: the text isn't of
/// this form. `TooLarge`: the size of the rounded number passes `limit`. It is never `TooFine`.
pub fn read_rounded(text: &str, places: u32, limit: i64) -> Result<i64, NumFault>
    requires few { places ≤ 9 }
    requires limit { pos 0 ≤ℤ limit }
    ensures { result ≡ rounded_reading_of places (unsigned_abs limit) text.now }
{
    read_rounded_bytes(text.as_bytes(), places, limit)
}

/// As `read_rounded`, from the bytes of a text.
#[tactic(auto, unfolding(crate::specs::Rounded::rounded_reading_of))]
pub fn read_rounded_bytes(text: &[u8], places: u32, limit: i64) -> Result<i64, NumFault>
    requires few { places ≤ 9 }
    requires limit { pos 0 ≤ℤ limit }
    ensures { result ≡ rounded_reading_of places (unsigned_abs limit) text.now }
{
    let Some(parts) = split(text) else {
        return Err(NumFault::Syntax);
    };
    rounded_number(&parts, places as usize, limit as u64)
}

fn rounded_number(parts: &Parts, places: usize, limit: u64) -> Result<i64, NumFault>
    requires few { places ≤ 9 }
    requires limit { limit < 2 ^ 63 }
    ensures { result ≡ rounded_reading places limit (decimal_parts parts.now) }
{
    let units = units_at(parts, places);
    let size = if rest_counts(parts.negative, parts.fraction, places) {
        units + 1
    } else {
        units
    };
    number_within(parts.negative, size, limit)
}

/// Whether the digits after the last place add one to the size: from a half of a unit on, and where the
/// number is negative, past a half.
fn rest_counts(negative: bool, fraction: &[u8], places: usize) -> bool
    requires few { places ≤ 9 }
    requires digits { IsTrue (are_digits fraction.now) }
    ensures { result ≡ passes_half negative (drop places fraction.now) }
{
    if fraction.len() <= places {
        return false;
    }
    let digit = fraction[places];
    if digit == b'5' {
        return !negative || !is_exact_at(fraction, places + 1);
    }
    digit > b'5'
}
