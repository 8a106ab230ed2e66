//! Timing lists.
ghost use Rattle.std.specs.Prelude.{◌≡◌, false, map, All, IfOk, option_map, codes, ◌||◌};
ghost use Rattle.std.specs.List.{list_all};
ghost use Rattle.css_token.specs.TokenLists.{LiesWithin};
ghost use Rattle.token_parts.specs.Keywords.{is_keyword};
ghost use Rattle.token_parts.specs.Parts.{token_parts_of, token_part};
ghost use Rattle.list_text.specs.ItemReading.{Gives, each_of, groups_of, has_sign, is_initial, is_word, items_of, items_within, list_of, micros_of, micros_within, properties_of, result_map, list_value_of};
ghost use Rattle.list_text.specs.Lists.{IsListAnswer};
ghost use Rattle.list_text.specs.Numbers.{clamped_nearest};

use crate::group::groups;
use crate::item::Item;
use css_token::Token;
use std::alloc::{AllocError, Global};
use timing_types::Items;
use timing_types::limits::MAX_ITEMS;
use token_parts::{Part, ValueFault, is_keyword, parts};
use value_types::{ListName, ListValue};

/// The value of the timing list that the tokens of the text spell (CSS Transitions 1, "Transitions"; CSS
/// Animations 1, "Declaring Animations"). `Unsupported`: none. `BoundItems`: more than 32 items. `Bound`: a number past
/// its limit. In this order.
pub fn read_list(
    alloc: Global,
    name: ListName,
    text: &str,
    tokens: &[Token],
) -> Result<ListValue, ValueFault>
    requires { All (LiesWithin text.now) tokens.now }
    ensures answer { IsListAnswer name (token_parts_of text.now tokens.now) result }
    ensures reading { Gives (λ v. v) result (list_of name (token_parts_of text.now tokens.now)) }
{
    let Ok(parts) = parts(alloc, text.as_bytes(), tokens) else {
        return Err(ValueFault::NoMemory);
    };
    list_of_parts(alloc, name, parts.as_slice())
}

/// As `read_list`, from the parts.
pub fn list_of_parts(alloc: Global, name: ListName, parts: &[Part]) -> Result<ListValue, ValueFault>
    ensures { Gives (λ v. v) result (list_of name (map token_part parts.now)) }
{
    if is_initial(parts) {
        return Ok(ListValue::Initial);
    }
    value_of(alloc, name, parts)
}

/// Whether the parts are a keyword that stands for the initial value of every list: `initial` or `unset`.
pub fn is_initial(parts: &[Part]) -> bool
    ensures { result ≡ is_initial (map token_part parts.now) }
{
    match parts {
        [Part::Ident(word)] => is_keyword(word, b"initial") || is_keyword(word, b"unset"),
        _ => false,
    }
}

fn value_of(alloc: Global, name: ListName, parts: &[Part]) -> Result<ListValue, ValueFault>
    ensures { Gives (λ v. v) result (list_value_of name (map token_part parts.now)) }
{
    match name {
        ListName::TransitionProperty => properties_of(alloc, parts),
        ListName::TransitionDuration => times(alloc, name, parts),
        ListName::TransitionDelay => times(alloc, name, parts),
        ListName::TransitionEasing => items_of(alloc, name, parts).map(ListValue::Easings),
        ListName::AnimationDuration => times(alloc, name, parts),
        ListName::AnimationDelay => times(alloc, name, parts),
        ListName::AnimationEasing => items_of(alloc, name, parts).map(ListValue::Easings),
        ListName::AnimationName => items_of(alloc, name, parts).map(ListValue::Names),
        ListName::AnimationCount => items_of(alloc, name, parts).map(ListValue::Counts),
        ListName::AnimationDirection => items_of(alloc, name, parts).map(ListValue::Directions),
        ListName::AnimationFill => items_of(alloc, name, parts).map(ListValue::Fills),
        ListName::AnimationPlayState => items_of(alloc, name, parts).map(ListValue::States),
    }
}

/// Durations or delays.
fn times(alloc: Global, name: ListName, parts: &[Part]) -> Result<ListValue, ValueFault>
    ensures { Gives (λ v. v) result (result_map ListValue.Times (items_of (micros_of clamped_nearest (has_sign name)) micros_within (map token_part parts.now))) }
{
    items_of(alloc, name, parts).map(ListValue::Times)
}

#[tactic(auto, unfolding(crate::specs::ItemReading::properties_of))]
fn properties_of(alloc: Global, parts: &[Part]) -> Result<ListValue, ValueFault>
    ensures { Gives (λ v. v) result (properties_of (map token_part parts.now)) }
{
    if is_none(parts) {
        return Ok(ListValue::Properties(Items::new(alloc)));
    }
    items_of(alloc, ListName::TransitionProperty, parts).map(ListValue::Properties)
}

fn is_none(parts: &[Part]) -> bool
    ensures { result ≡ is_word (λ w. is_keyword w (codes "none")) (map token_part parts.now) }
{
    match parts {
        [Part::Ident(word)] => is_keyword(word, b"none"),
        _ => false,
    }
}

/// The items of the list, at most 32.
fn items_of<T: Item>(alloc: Global, name: ListName, parts: &[Part]) -> Result<Items<T>, ValueFault>
    ensures { Gives (λ v. v) result (items_of (T.item_of name) T.within (map token_part parts.now)) }
{
    match found_items(alloc, name, parts) {
        Ok(found) => items_within(found),
        Err(_) => Err(ValueFault::NoMemory),
    }
}

/// The items that stand between commas, however many and however large; `None` where something else does.
pub fn found_items<T: Item>(
    alloc: Global,
    name: ListName,
    parts: &[Part],
) -> Result<Option<Vec<T>>, AllocError>
    ensures { IfOk result (λ o. option_map (λ v. v.items) o ≡ each_of (T.item_of name) (groups_of false (map token_part parts.now))) }
{
    let groups = groups(alloc, parts)?;
    each_of(alloc, name, groups.as_slice())
}

/// The items as a list. `Unsupported`: there are none. `BoundItems`: there are more than 32. `Bound`: a number passes
/// its limit. In this order.
pub fn items_within<T: Item>(found: Option<Vec<T>>) -> Result<Items<T>, ValueFault>
    ensures { result ≡ items_within T.within (option_map (λ v. v.items) found) }
{
    let Some(items) = found else {
        return Err(ValueFault::Unsupported);
    };
    if items.len() > MAX_ITEMS {
        return Err(ValueFault::BoundItems);
    }
    if !are_within(items.as_slice()) {
        return Err(ValueFault::Bound);
    }
    Ok(Items::from_vec(items))
}

/// The item of each group, where each is one.
fn each_of<T: Item>(
    alloc: Global,
    name: ListName,
    groups: &[&[Part]],
) -> Result<Option<Vec<T>>, AllocError>
    ensures { IfOk result (λ o. option_map (λ v. v.items) o ≡ each_of (T.item_of name) (map (λ g. map token_part g.now) groups.now)) }
{
    let mut items = Vec::new(alloc);
    for group in groups {
        let Some(item) = T::read(alloc, name, group)? else {
            return Ok(None);
        };
        items.push(item)?;
    }
    Ok(Some(items))
}

fn are_within<T: Item>(items: &[T]) -> bool
    ensures { result ≡ list_all T.within items.now }
{
    items.iter().all(|item| item.is_within())
}
