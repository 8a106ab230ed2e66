//! Lengths and percents.
ghost use Rattle.std.specs.Prelude.{◌≡◌};
ghost use Rattle.token_parts.specs.Keywords.{look_up};
ghost use Rattle.token_parts.specs.Parts.{token_part};
ghost use Rattle.value_text.specs.NumberReading.{number_in};
ghost use Rattle.value_text.specs.Reading.{length_in, reading_map, part_in, percent_in, size_of, zero_from};
ghost use Rattle.value_text.specs.Sizes.{length_units, zero_pixels};

use crate::number::number;
use fix_num::Fix;
use token_parts::{Part, ValueFault, look_up};
use value_types::{Size, Unit, ValueRange};

pub(crate) fn zero_pixels() -> Size
    ensures { result ≡ zero_pixels }
{
    Size {
        amount: Fix(0),
        unit: Unit::Px,
    }
}

/// The length that the part is.
pub(crate) fn length(range: ValueRange, part: &Part) -> Result<Size, ValueFault>
    ensures { result ≡ length_in range (token_part part.now) }
{
    match part {
        Part::Dimension { number, unit } => match unit_named(unit) {
            Some(unit) => size(range, number, unit),
            None => Err(ValueFault::Unsupported),
        },
        Part::Number(text) => zero(range, text),
        _ => Err(ValueFault::Unsupported),
    }
}

/// The percent that the part is.
pub(crate) fn percent(range: ValueRange, part: &Part) -> Result<Size, ValueFault>
    ensures { result ≡ percent_in range (token_part part.now) }
{
    match part {
        Part::Percent(text) => size(range, text, Unit::Percent),
        _ => Err(ValueFault::Unsupported),
    }
}

/// The part of a translation: a length or a percent.
pub(crate) fn length_or_percent(part: &Part) -> Result<Size, ValueFault>
    ensures { result ≡ part_in (token_part part.now) }
{
    match part {
        Part::Percent(_) => percent(ValueRange::All, part),
        _ => length(ValueRange::All, part),
    }
}

fn unit_named(word: &[u8]) -> Option<Unit>
    ensures { result ≡ look_up length_units word.now }
{
    look_up(
        &[("px", Unit::Px), ("em", Unit::Em), ("rem", Unit::Rem)],
        word,
    )
}

fn size(range: ValueRange, text: &[u8], unit: Unit) -> Result<Size, ValueFault>
    ensures { result ≡ reading_map (size_of unit) (number_in range text.now) }
{
    match number(range, text) {
        Ok(amount) => Ok(Size { amount, unit }),
        Err(fault) => Err(fault),
    }
}

/// The number 0 alone.
fn zero(range: ValueRange, text: &[u8]) -> Result<Size, ValueFault>
    ensures { result ≡ zero_from (number_in range text.now) }
{
    match number(range, text) {
        Ok(n) => {
            if n.0 == 0 {
                Ok(zero_pixels())
            } else {
                Err(ValueFault::Unsupported)
            }
        }
        Err(_) => Err(ValueFault::Unsupported),
    }
}
