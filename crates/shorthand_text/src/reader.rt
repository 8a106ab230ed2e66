//! The reader of a declaration's value.
ghost use Rattle.value_types.specs.ListValues.{timing_lists};
ghost use Rattle.std.specs.Prelude.{◌≡◌, All, IfOk, find, map};
ghost use Rattle.std.specs.Str.{str_eq_ignore_ascii_case};
ghost use Rattle.css_token.specs.TokenLists.{LiesWithin};
ghost use Rattle.token_parts.specs.Parts.{token_part, token_parts_of};
ghost use Rattle.shorthand_text.specs.Declaring.{Reads, declared_of};
ghost use Rattle.shorthand_text.specs.KnownNames.{all_shorthands, is_text_of, known_name, name_of_list};
ghost use Rattle.shorthand_text.specs.Longhands.{IsLonghand};

use crate::animation::animation_lists;
use crate::known_name::{ALL_SHORTHANDS, KnownName, list_name};
use crate::longhand::{Longhand, one};
use crate::shorthand::shorthand_longhands;
use crate::transition::transition_lists;
use css_token::Token;
use list_text::list_of_parts;
use std::alloc::Global;
use token_parts::{Part, ValueFault, parts};
use value_text::declared_of_parts;
use value_types::{ListName, PropertyId};

/// The known name that these bytes are, whatever the ASCII case of their letters; `None` where they are none.
#[tactic(auto, unfolding(crate::specs::KnownNames::known_name))]
pub fn name_of(text: &[u8]) -> Option<KnownName>
    ensures { result ≡ known_name text.now }
{
    if let Some(p) = PropertyId::by_bytes(text) {
        return Some(KnownName::Property(p));
    }
    if let Some(name) = list_of(text) {
        return Some(KnownName::List(name));
    }
    shorthand_of(text)
}

fn list_of(text: &[u8]) -> Option<ListName>
    ensures { result ≡ find (λ n. str_eq_ignore_ascii_case text.now (name_of_list n)) timing_lists }
{
    ListName::ALL.iter().copied().find(|name| text.eq_ignore_ascii_case(list_name(
        *name,
    ).as_bytes()))
}

fn shorthand_of(text: &[u8]) -> Option<KnownName>
    ensures { result ≡ find (is_text_of text.now) all_shorthands }
{
    ALL_SHORTHANDS
        .iter()
        .copied()
        .find(|name| text.eq_ignore_ascii_case(name.text().as_bytes()))
}

/// What the tokens of the text declare of the known name, all longhands of a shorthand. `Unsupported`: no value
/// of it has this spelling. `BoundItems`: a list of more than 32 items. `Bound`: a number past its limit.
pub fn read_longhands(
    alloc: Global,
    name: KnownName,
    text: &str,
    tokens: &[Token],
) -> Result<Vec<Longhand>, ValueFault>
    requires { All (LiesWithin text.now) tokens.now }
    ensures reading { Reads (λ v. v.items) result (declared_of name (token_parts_of text.now tokens.now)) }
    ensures each { IfOk result (λ v. All IsLonghand v.items) }
{
    let Ok(parts) = parts(alloc, text.as_bytes(), tokens) else {
        return Err(ValueFault::NoMemory);
    };
    longhands_of(alloc, name, parts.as_slice())
}

#[tactic(auto, unfolding(crate::specs::Declaring::declared_of))]
fn longhands_of(alloc: Global, name: KnownName, parts: &[Part]) -> Result<Vec<Longhand>, ValueFault>
    ensures { Reads (λ v. v.items) result (declared_of name (map token_part parts.now)) }
{
    match name {
        KnownName::Property(p) => match declared_of_parts(p, parts) {
            Ok(declared) => one(alloc, Longhand::Property(p, declared)),
            Err(fault) => Err(fault),
        },
        KnownName::List(list) => match list_of_parts(alloc, list, parts) {
            Ok(value) => one(alloc, Longhand::List(list, value)),
            Err(fault) => Err(fault),
        },
        KnownName::Short(s) => shorthand_longhands(alloc, s, parts),
        KnownName::Transition => transition_lists(alloc, parts),
        KnownName::Animation => animation_lists(alloc, parts),
    }
}
