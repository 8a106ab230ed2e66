//! The shorthands of properties (CSS Cascade 5, "Shorthand Properties").
ghost use Rattle.std.specs.Prelude.{◌≡◌, ◌∷◌, ◌++◌, [], map, Ok, OnOk};
ghost use Rattle.token_parts.specs.Parts.{token_part};
ghost use Rattle.value_text.specs.Reading.{or_unsupported};
ghost use Rattle.shorthand_text.specs.Declaring.{Reads};
ghost use Rattle.shorthand_text.specs.Outcomes.{all_given};
ghost use Rattle.shorthand_text.specs.Sides.{initial_lists, keyword_in_all, lists_in, property_by, shorthand_in, value_in_all};

use crate::longhand::{Longhand, one};
use crate::sides::box_longhands;
use std::alloc::{AllocError, Global};
use token_parts::{Part, ValueFault};
use value_text::{Keyword, cascade_keyword, declared_by, value_of_parts};
use value_types::{ListName, ListValue, PropertyId, Shorthand, is_inherited, longhands};

/// What the parts declare of the shorthand's longhands.
#[tactic(auto, unfolding(crate::specs::Sides::shorthand_in))]
pub(crate) fn shorthand_longhands(
    alloc: Global,
    s: Shorthand,
    parts: &[Part],
) -> Result<Vec<Longhand>, ValueFault>
    ensures { Reads (λ v. v.items) result (shorthand_in s (map token_part parts.now)) }
{
    match cascade_keyword(parts) {
        Some(keyword) => keyword_longhands(alloc, s, keyword),
        None => value_longhands(alloc, s, parts),
    }
}

fn value_longhands(alloc: Global, s: Shorthand, parts: &[Part]) -> Result<Vec<Longhand>, ValueFault>
    ensures { Reads (λ v. v.items) result (value_in_all s (map token_part parts.now)) }
{
    match s {
        Shorthand::All => Err(ValueFault::Unsupported),
        Shorthand::Background => match value_of_parts(PropertyId::BackgroundColor, parts) {
            Ok(color) => one(
                alloc,
                Longhand::Property(PropertyId::BackgroundColor, color),
            ),
            Err(fault) => Err(fault),
        },
        Shorthand::Inset => box_longhands(alloc, longhands(s), parts),
        Shorthand::Margin => box_longhands(alloc, longhands(s), parts),
        Shorthand::Padding => box_longhands(alloc, longhands(s), parts),
    }
}

/// Each longhand by the keyword of the cascade, where each may take it.
#[tactic(auto, unfolding(crate::specs::Sides::keyword_in_all))]
fn keyword_longhands(
    alloc: Global,
    s: Shorthand,
    keyword: Keyword,
) -> Result<Vec<Longhand>, ValueFault>
    ensures { Reads (λ v. v.items) result (keyword_in_all s keyword) }
{
    match properties_by(alloc, keyword, longhands(s)) {
        Ok(mut list) => match push_initial(&mut list, lists_in(s)) {
            Ok(()) => Ok(list),
            Err(_) => Err(ValueFault::NoMemory),
        },
        Err(fault) => Err(fault),
    }
}

/// `all` stands for the timing lists too.
fn lists_in(s: Shorthand) -> &'static [ListName]
    ensures { result.now ≡ lists_in s }
{
    match s {
        Shorthand::All => &ListName::ALL,
        Shorthand::Background | Shorthand::Inset | Shorthand::Margin | Shorthand::Padding => &[],
    }
}

fn properties_by(
    alloc: Global,
    keyword: Keyword,
    properties: &[PropertyId],
) -> Result<Vec<Longhand>, ValueFault>
    ensures { Reads (λ v. v.items) result (all_given (map (property_by keyword) properties.now)) }
{
    let mut list = Vec::new(alloc);
    for p in properties {
        let Some(declared) = declared_by(is_inherited(*p), keyword) else {
            return Err(ValueFault::Unsupported);
        };
        if list.push(Longhand::Property(*p, declared)).is_err() {
            return Err(ValueFault::NoMemory);
        }
    }
    Ok(list)
}

/// Puts the initial value of each list after the last.
fn push_initial(list: &mut Vec<Longhand>, names: &[ListName]) -> Result<(), AllocError>
    ensures { OnOk result (list.new.items ≡ list.old.items ++ initial_lists names.now) }
{
    for name in names {
        list.push(Longhand::List(*name, ListValue::Initial))?;
    }
    Ok(())
}

/// The initial value of each list.
pub(crate) fn initial(alloc: Global, names: &[ListName]) -> Result<Vec<Longhand>, ValueFault>
    ensures { Reads (λ v. v.items) result (Ok (initial_lists names.now)) }
{
    let mut list = Vec::new(alloc);
    match push_initial(&mut list, names) {
        Ok(()) => Ok(list),
        Err(_) => Err(ValueFault::NoMemory),
    }
}
