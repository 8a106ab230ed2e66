//! Numbers and integers of values.
ghost use Rattle.std.specs.Prelude.{◌≡◌};
ghost use Rattle.value_text.specs.NumberReading.{begins_minus, channel_of, far_in_range, integer_in, number_in};

use fix_num::limits::{MAX_INTEGER, MAX_NUMBER};
use fix_num::{Fix, NumFault, has_no_point, read_decimal_bytes, read_rounded_bytes};
use token_parts::ValueFault;
use value_types::ValueRange;

const LARGEST_INTEGER: i64 = MAX_INTEGER as i64;

/// The number in millionths, which is in the range.
#[tactic(auto, unfolding(crate::specs::NumberReading::number_in))]
pub(crate) fn number(range: ValueRange, text: &[u8]) -> Result<Fix, ValueFault>
    ensures { result ≡ number_in range text.now }
{
    match read_rounded_bytes(text, 6, MAX_NUMBER as i64) {
        Ok(n) => {
            if range.contains(Fix(n)) {
                Ok(Fix(n))
            } else {
                Err(ValueFault::Unsupported)
            }
        }
        Err(NumFault::TooLarge) => {
            if is_far_in_range(range, text) {
                Err(ValueFault::Bound)
            } else {
                Err(ValueFault::Unsupported)
            }
        }
        Err(NumFault::Syntax) => Err(ValueFault::Unsupported),
        Err(NumFault::TooFine) => Err(ValueFault::Unsupported),
    }
}

/// Whether the range has the number, which is past the limit.
fn is_far_in_range(range: ValueRange, text: &[u8]) -> bool
    ensures { result ≡ far_in_range range text.now }
{
    match range {
        ValueRange::All | ValueRange::Nothing => true,
        ValueRange::NotNegative => !begins_minus(text),
        ValueRange::ZeroToOne => false,
    }
}

fn begins_minus(text: &[u8]) -> bool
    ensures { result ≡ begins_minus text.now }
{
    !text.is_empty() && text[0] == b'-'
}

/// An integer within the limit: a sign and digits only.
#[tactic(auto, unfolding(crate::specs::NumberReading::integer_in))]
pub(crate) fn integer(text: &[u8]) -> Result<i32, ValueFault>
    ensures { result ≡ integer_in text.now }
{
    if !has_no_point(text) {
        return Err(ValueFault::Unsupported);
    }
    match read_decimal_bytes(text, 0, LARGEST_INTEGER) {
        Ok(i) => Ok(i as i32),
        Err(NumFault::TooLarge) => Err(ValueFault::Bound),
        Err(NumFault::Syntax) => Err(ValueFault::Unsupported),
        Err(NumFault::TooFine) => Err(ValueFault::Unsupported),
    }
}

/// A channel of a colour: an integer from 0 to 255.
#[tactic(auto, unfolding(crate::specs::NumberReading::channel_of))]
pub(crate) fn channel(text: &[u8]) -> Option<u8>
    ensures { result ≡ channel_of text.now }
{
    if !has_no_point(text) {
        return None;
    }
    let Ok(i) = read_decimal_bytes(text, 0, 255) else {
        return None;
    };
    if i < 0 {
        return None;
    }
    Some(i as u8)
}
