//! The reader of a property's values.
ghost use Rattle.std.specs.Prelude.{◌≡◌, map, option_map, All, IfOk, find};
ghost use Rattle.css_token.specs.TokenLists.{LiesWithin};
ghost use Rattle.token_parts.specs.Parts.{token_parts_of, token_part};
ghost use Rattle.value_types.specs.Table.{takes};
ghost use Rattle.value_types.specs.Validity.{IsDeclaredFor};
ghost use Rattle.value_text.specs.Spelling.{IsValueAnswer};
ghost use Rattle.value_text.specs.Reading.{GivesReading, kind_at, kinds_at, declared_reading, value_in};

use crate::cascade::{cascade_keyword, declared_by};
use crate::kind::of_kind;
use css_token::Token;
use std::alloc::Global;
use token_parts::{Part, ValueFault, parts};
use value_types::{Declared, PropertyId, ValueKind, is_inherited, takes};

/// What the tokens of the text declare of the property (the "Value" line of its definition). `Unsupported`: no
/// value of the property has that spelling. `Bound`: a number in it passes its limit.
pub fn read_value(
    alloc: Global,
    p: PropertyId,
    text: &str,
    tokens: &[Token],
) -> Result<Declared, ValueFault>
    requires { All (LiesWithin text.now) tokens.now }
    ensures answer { IsValueAnswer p (token_parts_of text.now tokens.now) result }
    ensures declared { IfOk result (IsDeclaredFor p) }
    ensures reading { GivesReading result (declared_reading p (token_parts_of text.now tokens.now)) }
{
    let Ok(parts) = parts(alloc, text.as_bytes(), tokens) else {
        return Err(ValueFault::NoMemory);
    };
    declared_of_parts(p, parts.as_slice())
}

/// As `read_value`, from the parts.
#[tactic(auto, unfolding(crate::specs::Reading::declared_reading))]
pub fn declared_of_parts(p: PropertyId, parts: &[Part]) -> Result<Declared, ValueFault>
    ensures { result ≡ declared_reading p (map token_part parts.now) }
{
    match cascade_keyword(parts) {
        Some(keyword) => declared_by(is_inherited(p), keyword).ok_or(ValueFault::Unsupported),
        None => value_of_parts(p, parts),
    }
}

/// What the parts declare of the property, where they are no keyword of the cascade. `Unsupported`: no value of it has
/// that spelling. `Bound`: a number in it passes its limit.
#[tactic(auto, unfolding(crate::specs::Reading::value_in))]
pub fn value_of_parts(p: PropertyId, parts: &[Part]) -> Result<Declared, ValueFault>
    ensures { result ≡ value_in p (map token_part parts.now) }
{
    match kind_at(p, parts) {
        Some(kind) => of_kind(p, kind, parts),
        None => Err(ValueFault::Unsupported),
    }
}

/// The kind of value that the property's row names and that begins as these parts do.
fn kind_at(p: PropertyId, parts: &[Part]) -> Option<ValueKind>
    ensures { result ≡ kind_at p (map token_part parts.now) }
{
    match parts {
        [first, ..] => kind_in(p, first),
        [] => None,
    }
}

fn kind_in(p: PropertyId, part: &Part) -> Option<ValueKind>
    ensures { result ≡ find (takes p) (kinds_at (token_part part.now)) }
{
    match part {
        Part::Ident(_) => first_taken(
            p,
            &[
                ValueKind::Auto,
                ValueKind::Normal,
                ValueKind::Color,
                ValueKind::Absent,
                ValueKind::Visibility,
                ValueKind::Display,
            ],
        ),
        Part::Function(_) | Part::Hash(_) => first_taken(p, &[ValueKind::Color]),
        Part::Number(_) => first_taken(
            p,
            &[
                ValueKind::Number,
                ValueKind::Length,
                ValueKind::Int,
                ValueKind::Pair,
            ],
        ),
        Part::Percent(_) => first_taken(p, &[ValueKind::Percent, ValueKind::Pair]),
        Part::Dimension { .. } => first_taken(
            p,
            &[ValueKind::Length, ValueKind::Angle, ValueKind::Pair],
        ),
        Part::Comma | Part::Close | Part::Other => None,
    }
}

fn first_taken(p: PropertyId, kinds: &[ValueKind]) -> Option<ValueKind>
    ensures { result ≡ find (takes p) kinds.now }
{
    kinds.iter().copied().find(|kind| takes(p, *kind))
}
