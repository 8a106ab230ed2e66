//! Numbers past their limits.
ghost use Rattle.std.specs.Prelude.{◌≡◌, ◌+◌, ◌^◌, ◌==◌, ◌≤◌, pos, ◌≤ℤ◌, unsigned_abs, slice_index};
ghost use Rattle.fix_num.specs.Decimal.{signed_number};
ghost use Rattle.list_text.specs.Numbers.{clamped_nearest, not_negative};
ghost use Rattle.list_text.specs.Reading.{natural};

use fix_num::{NumFault, read_rounded_bytes};

/// The whole number of units of `10^-places` nearest to the number that the text spells; where its size
/// passes the limit, one past the limit; `None` where the text is no number.
#[tactic(auto, unfolding(crate::specs::Numbers::clamped_nearest))]
pub(crate) fn clamped(text: &[u8], places: u32, limit: i64) -> Option<i64>
    requires few { places ≤ 9 }
    requires low { pos 0 ≤ℤ limit }
    requires high { limit ≤ℤ pos (10 ^ 15) }
    ensures { result ≡ clamped_nearest places (unsigned_abs limit) text.now }
{
    match read_rounded_bytes(text, places, limit) {
        Ok(number) => Some(number),
        Err(NumFault::TooLarge) => Some(past(text, limit)),
        Err(NumFault::Syntax) => None,
        Err(NumFault::TooFine) => None,
    }
}

/// One past the limit, with the text's sign.
fn past(text: &[u8], limit: i64) -> i64
    requires low { pos 0 ≤ℤ limit }
    requires high { limit ≤ℤ pos (10 ^ 15) }
    ensures { result ≡ signed_number (slice_index text.now 0 == 45) (unsigned_abs limit + 1) }
{
    if !text.is_empty() && text[0] == b'-' {
        -limit - 1
    } else {
        limit + 1
    }
}

/// That number, unless it is negative.
#[tactic(auto, unfolding(crate::specs::Reading::natural))]
pub(crate) fn natural(text: &[u8], places: u32, limit: i64) -> Option<u64>
    requires few { places ≤ 9 }
    requires low { pos 0 ≤ℤ limit }
    requires high { limit ≤ℤ pos (10 ^ 15) }
    ensures { result ≡ natural clamped_nearest places (unsigned_abs limit) text.now }
{
    not_negative(clamped(text, places, limit)?)
}

fn not_negative(number: i64) -> Option<u64>
    ensures { result ≡ not_negative number }
{
    if number < 0 {
        return None;
    }
    Some(number as u64)
}
