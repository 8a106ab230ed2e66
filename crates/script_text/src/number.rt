//! The numbers of a line within their bounds.
ghost use Rattle.std.specs.Prelude.{◌≡◌, ◌-◌, ◌^◌, ◌≤ℤ◌, pos, IsTrue, slice_index};
ghost use Rattle.std.specs.Char.{is_ascii_digit};
ghost use Rattle.std.specs.Str.Parse.{digits_value};
ghost use Rattle.script_text.specs.Bounds.{is_from_one_to, is_node_number, is_parent_number};
ghost use Rattle.script_text.specs.Forms.{is_numeral, is_parent_word, parent_of_word, time_of_word};
ghost use Rattle.script_text.specs.Reading.{bounded_number, fault_of_time, judged_time, positive_of};

use crate::limits::{MAX_NODE, MAX_SHEET};
use crate::refusal::{ReadCommandFault, Refusal};
use fix_num::limits::MAX_TIME;
use fix_num::{Micros, NumFault, read_decimal_bytes};

/// A line that isn't in the grammar.
pub(crate) const SYNTAX: ReadCommandFault = ReadCommandFault::Refused(Refusal::Syntax);

/// A number out of its bounds.
const BOUND: ReadCommandFault = ReadCommandFault::Refused(Refusal::BoundNumber);

/// The number of the digits, from 1 to `most`.
#[tactic(auto, using(crate::proofs::NumberLemmas::numeral_reading))]
fn number_to(most: u32, word: &[u8]) -> Result<u32, ReadCommandFault>
    requires { IsTrue (is_numeral word.now) }
    ensures { result ≡ bounded_number (is_from_one_to most (digits_value 10 word.now)) (digits_value 10 word.now) }
{
    match read_decimal_bytes(word, 0, i64::from(most)) {
        Ok(number) => positive(number),
        Err(_) => Err(BOUND),
    }
}

/// The number of a node.
pub(crate) fn node_number(word: &[u8]) -> Result<u32, ReadCommandFault>
    requires { IsTrue (is_numeral word.now) }
    ensures { result ≡ bounded_number (is_node_number (digits_value 10 word.now)) (digits_value 10 word.now) }
{
    number_to(MAX_NODE, word)
}

/// The number of a sheet.
pub(crate) fn sheet_number(word: &[u8]) -> Result<u32, ReadCommandFault>
    requires { IsTrue (is_numeral word.now) }
    ensures { result ≡ bounded_number (is_from_one_to MAX_SHEET (digits_value 10 word.now)) (digits_value 10 word.now) }
{
    number_to(MAX_SHEET, word)
}

/// The number of a parent; `None` for `-`.
pub(crate) fn parent_number(word: &[u8]) -> Result<Option<u32>, ReadCommandFault>
    requires { IsTrue (is_parent_word word.now) }
    ensures { result ≡ bounded_number (is_parent_number (parent_of_word word.now)) (parent_of_word word.now) }
{
    if word == b"-".as_slice() {
        return Ok(None);
    }
    match node_number(word) {
        Ok(number) => Ok(Some(number)),
        Err(fault) => Err(fault),
    }
}

/// The size that is left of a number above 0.
fn positive(number: i64) -> Result<u32, ReadCommandFault>
    requires { number ≤ℤ pos (2 ^ 32 - 1) }
    ensures { result ≡ positive_of number }
{
    if number > 0 {
        Ok(number as u32)
    } else {
        Err(BOUND)
    }
}

fn begins_with_digit(word: &[u8]) -> bool
    ensures { result ≡ is_ascii_digit (slice_index word.now 0) }
{
    !word.is_empty() && word[0].is_ascii_digit()
}

/// A time that is digits, with a point and digits after it where wanted, in microseconds.

pub(crate) fn time(word: &[u8]) -> Result<Micros, ReadCommandFault>
    ensures { result ≡ judged_time (time_of_word word.now) }
{
    if !begins_with_digit(word) {
        return Err(SYNTAX);
    }
    match read_decimal_bytes(word, 3, MAX_TIME as i64) {
        Ok(time) => Ok(Micros(time)),
        Err(fault) => Err(fault_of_time(fault)),
    }
}

fn fault_of_time(fault: NumFault) -> ReadCommandFault
    ensures { result ≡ fault_of_time fault }
{
    match fault {
        NumFault::Syntax => SYNTAX,
        NumFault::TooFine | NumFault::TooLarge => BOUND,
    }
}
