//! Values of one kind.
ghost use Rattle.std.specs.Prelude.{if◌then◌else◌, ◌≡◌, ◌∷◌, map, option_map, pos, codes};
ghost use Rattle.fix_num.specs.Rounding.{rounded_quotient};
ghost use Rattle.token_parts.specs.Keywords.{is_keyword};
ghost use Rattle.token_parts.specs.Parts.{token_part};
ghost use Rattle.value_types.specs.Keywords.{display_named, visibility_named};
ghost use Rattle.value_types.specs.Validity.{declared_range_of};
ghost use Rattle.value_text.specs.ColorReading.{color_of};
ghost use Rattle.value_text.specs.NumberReading.{integer_in, number_in};
ghost use Rattle.value_text.specs.Reading.{angle_in, both, keyword_in, kind_in, length_in, lone, lone_number, lone_word, reading_map, pair_in, percent_in, read_of, or_unsupported};
ghost use Rattle.value_text.specs.Spelling.{declared_color, declared_percent};

use crate::color::color;
use crate::number::{integer, number};
use crate::size::{length, length_or_percent, percent, zero_pixels};
use fix_num::{Fix, rnd};
use token_parts::{Part, ValueFault, is_keyword};
use value_types::{
    Declared, Display, PropertyId, Size, ValueKind, ValueRange, Visibility, range_of,
};

/// The value of this kind that the parts spell for the property.
pub(crate) fn of_kind(
    p: PropertyId,
    kind: ValueKind,
    parts: &[Part],
) -> Result<Declared, ValueFault>
    ensures { result ≡ kind_in p kind (map token_part parts.now) }
{
    let range = declared_range(p);
    match kind {
        ValueKind::Number => lone_number_value(range, parts),
        ValueKind::Length => length_value(range, parts),
        ValueKind::Percent => percent_value(p, range, parts),
        ValueKind::Auto => keyword(parts, b"auto", Declared::Auto),
        ValueKind::Normal => keyword(parts, b"normal", Declared::Length(zero_pixels())),
        ValueKind::Int => integer_value(parts),
        ValueKind::Color => color_value(parts),
        ValueKind::Angle => angle_value(range, parts),
        ValueKind::Pair => pair_value(parts),
        ValueKind::Absent => keyword(parts, b"none", Declared::Absent),
        ValueKind::Visibility => visibility_value(parts),
        ValueKind::Display => display_value(parts),
    }
}

/// The range of declared numbers: opacity is clamped only when it is computed.
fn declared_range(p: PropertyId) -> ValueRange
    ensures { result ≡ declared_range_of p }
{
    if p == PropertyId::Opacity {
        ValueRange::All
    } else {
        range_of(p)
    }
}

fn lone_number_value(range: ValueRange, parts: &[Part]) -> Result<Declared, ValueFault>
    ensures { result ≡ read_of (λ text. reading_map Declared.Number (number_in range text)) (lone_number (map token_part parts.now)) }
{
    match parts {
        [Part::Number(text)] => match number(range, text) {
            Ok(n) => Ok(Declared::Number(n)),
            Err(fault) => Err(fault),
        },
        _ => Err(ValueFault::Unsupported),
    }
}

fn length_value(range: ValueRange, parts: &[Part]) -> Result<Declared, ValueFault>
    ensures { result ≡ read_of (λ part. reading_map Declared.Length (length_in range part)) (lone (map token_part parts.now)) }
{
    match parts {
        [part] => match length(range, part) {
            Ok(size) => Ok(Declared::Length(size)),
            Err(fault) => Err(fault),
        },
        _ => Err(ValueFault::Unsupported),
    }
}

fn percent_value(p: PropertyId, range: ValueRange, parts: &[Part]) -> Result<Declared, ValueFault>
    ensures { result ≡ read_of (λ part. reading_map (declared_percent p) (percent_in range part)) (lone (map token_part parts.now)) }
{
    match parts {
        [part] => match percent(range, part) {
            Ok(size) => Ok(declared_percent(p, size)),
            Err(fault) => Err(fault),
        },
        _ => Err(ValueFault::Unsupported),
    }
}

fn declared_percent(p: PropertyId, size: Size) -> Declared
    ensures { result ≡ declared_percent p size }
{
    if p == PropertyId::Opacity {
        Declared::Number(hundredth(size.amount))
    } else {
        Declared::Length(size)
    }
}

fn hundredth(n: Fix) -> Fix
    ensures { result ≡ record { 0 = rounded_quotient n.0 (pos 100) } }
{
    Fix(rnd(i128::from(n.0), 100) as i64)
}

fn keyword(parts: &[Part], word: &[u8], value: Declared) -> Result<Declared, ValueFault>
    ensures { result ≡ read_of (keyword_in word.now value) (lone_word (map token_part parts.now)) }
{
    match parts {
        [Part::Ident(name)] => {
            if is_keyword(name, word) {
                Ok(value)
            } else {
                Err(ValueFault::Unsupported)
            }
        }
        _ => Err(ValueFault::Unsupported),
    }
}

fn integer_value(parts: &[Part]) -> Result<Declared, ValueFault>
    ensures { result ≡ read_of (λ text. reading_map Declared.Int (integer_in text)) (lone_number (map token_part parts.now)) }
{
    match parts {
        [Part::Number(text)] => match integer(text) {
            Ok(i) => Ok(Declared::Int(i)),
            Err(fault) => Err(fault),
        },
        _ => Err(ValueFault::Unsupported),
    }
}

fn color_value(parts: &[Part]) -> Result<Declared, ValueFault>
    ensures { result ≡ or_unsupported (option_map declared_color (color_of (map token_part parts.now))) }
{
    match color(parts) {
        Some(c) => Ok(Declared::Color {
            r: c.r,
            g: c.g,
            b: c.b,
            a: c.a,
        }),
        None => Err(ValueFault::Unsupported),
    }
}

fn angle_value(range: ValueRange, parts: &[Part]) -> Result<Declared, ValueFault>
    ensures { result ≡ read_of (angle_in range) (lone (map token_part parts.now)) }
{
    match parts {
        [Part::Dimension { number, unit }] => angle(range, number, unit),
        _ => Err(ValueFault::Unsupported),
    }
}

fn angle(range: ValueRange, text: &[u8], unit: &[u8]) -> Result<Declared, ValueFault>
    ensures { result ≡ (if is_keyword unit.now (codes "deg") then reading_map Declared.Angle (number_in range text.now) else Err ValueFault.Unsupported) }
{
    if !is_keyword(unit, b"deg") {
        return Err(ValueFault::Unsupported);
    }
    match number(range, text) {
        Ok(n) => Ok(Declared::Angle(n)),
        Err(fault) => Err(fault),
    }
}

fn pair_value(parts: &[Part]) -> Result<Declared, ValueFault>
    ensures { result ≡ pair_in (map token_part parts.now) }
{
    match parts {
        [part] => match length_or_percent(part) {
            Ok(x) => Ok(Declared::Pair {
                x,
                y: zero_pixels(),
            }),
            Err(fault) => Err(fault),
        },
        [first, second] => both(length_or_percent(first), length_or_percent(second)),
        _ => Err(ValueFault::Unsupported),
    }
}

/// Both parts; what is unsupported in either comes before a bound.
fn both(x: Result<Size, ValueFault>, y: Result<Size, ValueFault>) -> Result<Declared, ValueFault>
    ensures { result ≡ both Declared.Pair x y }
{
    match (x, y) {
        (Ok(x), Ok(y)) => Ok(Declared::Pair { x, y }),
        (Ok(_), Err(fault)) => Err(fault),
        (Err(fault), Ok(_)) => Err(fault),
        (Err(ValueFault::Unsupported), Err(_)) => Err(ValueFault::Unsupported),
        (Err(_), Err(fault)) => Err(fault),
    }
}

fn visibility_value(parts: &[Part]) -> Result<Declared, ValueFault>
    ensures { result ≡ read_of (λ word. or_unsupported (option_map Declared.Visible (visibility_named word))) (lone_word (map token_part parts.now)) }
{
    match parts {
        [Part::Ident(word)] => match Visibility::by_keyword(word) {
            Some(v) => Ok(Declared::Visible(v)),
            None => Err(ValueFault::Unsupported),
        },
        _ => Err(ValueFault::Unsupported),
    }
}

fn display_value(parts: &[Part]) -> Result<Declared, ValueFault>
    ensures { result ≡ read_of (λ word. or_unsupported (option_map Declared.Display (display_named word))) (lone_word (map token_part parts.now)) }
{
    match parts {
        [Part::Ident(word)] => match Display::by_keyword(word) {
            Some(d) => Ok(Declared::Display(d)),
            None => Err(ValueFault::Unsupported),
        },
        _ => Err(ValueFault::Unsupported),
    }
}
