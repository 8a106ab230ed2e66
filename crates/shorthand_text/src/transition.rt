//! The shorthand `transition` (CSS Transitions 1, "The transition Shorthand Property").
ghost use Rattle.std.specs.Prelude.{◌≡◌, ◌∷◌, [], codes, filter_map, map, option_map, IfOk};
ghost use Rattle.std.specs.List.{list_any};
ghost use Rattle.token_parts.specs.Keywords.{is_keyword};
ghost use Rattle.token_parts.specs.Parts.{token_part};
ghost use Rattle.list_text.specs.ItemReading.{is_word};
ghost use Rattle.shorthand_text.specs.Declaring.{Reads};
ghost use Rattle.shorthand_text.specs.TimingItems.{item_duration, is_nothing, lone_nothing, property_of, transition_of_values, transition_in, transition_item, transition_longhands, transition_with, transition_within};

use crate::components::{components, take_first};
use crate::known_name::TRANSITION_LISTS;
use crate::longhand::Longhand;
use crate::shorthand::initial;
use fix_num::Micros;
use list_text::{Item, found_items, is_initial, items_within};
use std::alloc::{AllocError, Global};
use timing_types::{Easing, Items};
use token_parts::{Part, ValueFault, is_keyword};
use value_types::{ListName, ListValue, PropertyItem};

/// An item of `transition`. No property is the keyword `none`.
#[derive(Clone, Copy, Drop)]
pub(crate) struct TransitionItem {
    pub property: Option<PropertyItem>,
    pub duration: Micros,
    pub delay: Micros,
    pub easing: Easing,
}

impl Item for TransitionItem {
    ghost item_of = { λ name parts. transition_item parts };

    ghost within = { λ i. transition_within i };

    fn read(alloc: Global, _name: ListName, parts: &[Part]) -> Result<Option<Self>, AllocError> {
        transition_item(alloc, parts)
    }

    fn is_within(&self) -> bool {
        self.duration.is_within() && self.delay.is_within() && self.easing.is_within()
    }
}

#[tactic(auto, unfolding(crate::specs::TimingItems::transition_item))]
fn transition_item(alloc: Global, parts: &[Part]) -> Result<Option<TransitionItem>, AllocError>
    ensures { IfOk result (λ o. o ≡ transition_item (map token_part parts.now)) }
{
    if parts.is_empty() {
        return Ok(None);
    }
    transition_from(alloc, components(alloc, parts)?)
}

/// The item of these components: the first that fits is the easing, the first time of the others the duration, the next the
/// delay, and what is left the property.
fn transition_from(
    alloc: Global,
    mut components: Vec<&[Part]>,
) -> Result<Option<TransitionItem>, AllocError>
    ensures { IfOk result (λ o. o ≡ transition_of_values (map (λ c. map token_part c.now) components.entry.items)) }
{
    let easing = take_first(alloc, ListName::TransitionEasing, &mut components)?;
    let duration = take_first(alloc, ListName::TransitionDelay, &mut components)?;
    let delay = take_first(alloc, ListName::TransitionDelay, &mut components)?;
    match property_of(alloc, components.as_slice())? {
        Some(property) => Ok(transition_with(property, duration, delay, easing)),
        None => Ok(None),
    }
}

fn transition_with(
    property: Option<PropertyItem>,
    duration: Option<Micros>,
    delay: Option<Micros>,
    easing: Option<Easing>,
) -> Option<TransitionItem>
    ensures { result ≡ transition_with property duration delay easing }
{
    Some(TransitionItem {
        property,
        duration: duration_of(duration)?,
        delay: delay.unwrap_or(Micros(0)),
        easing: easing.unwrap_or(Easing::ease()),
    })
}

/// The duration, which isn't negative, by the first time of an item.
pub(crate) fn duration_of(time: Option<Micros>) -> Option<Micros>
    ensures { result ≡ item_duration time }
{
    let time = time.unwrap_or(Micros(0));
    if time.0 < 0 {
        return None;
    }
    Some(time)
}

/// What transitions, by the components that are nothing else.
fn property_of(
    alloc: Global,
    components: &[&[Part]],
) -> Result<Option<Option<PropertyItem>>, AllocError>
    ensures { IfOk result (λ o. o ≡ property_of (map (λ c. map token_part c.now) components.now)) }
{
    match components {
        [] => Ok(Some(Some(PropertyItem::All))),
        [component] => property_in(alloc, component),
        _ => Ok(None),
    }
}

fn property_in(
    alloc: Global,
    component: &[Part],
) -> Result<Option<Option<PropertyItem>>, AllocError>
    ensures { IfOk result (λ o. o ≡ property_of (map token_part component.now ∷ [])) }
{
    if is_none(component) {
        return Ok(Some(None));
    }
    match PropertyItem::read(alloc, ListName::TransitionProperty, component)? {
        Some(property) => Ok(Some(Some(property))),
        None => Ok(None),
    }
}

fn is_none(component: &[Part]) -> bool
    ensures { result ≡ is_word (λ w. is_keyword w (codes "none")) (map token_part component.now) }
{
    match component {
        [Part::Ident(word)] => is_keyword(word, b"none"),
        _ => false,
    }
}

/// What the parts declare of the lists of transitions.
#[tactic(auto, unfolding(crate::specs::TimingItems::transition_in))]
pub(crate) fn transition_lists(alloc: Global, parts: &[Part]) -> Result<Vec<Longhand>, ValueFault>
    ensures { Reads (λ v. v.items) result (transition_in (map token_part parts.now)) }
{
    if is_initial(parts) {
        return initial(alloc, &TRANSITION_LISTS);
    }
    let Ok(found) = found_items(alloc, ListName::TransitionProperty, parts) else {
        return Err(ValueFault::NoMemory);
    };
    match items_within(lone_nothing(found)) {
        Ok(items) => match longhands_of(alloc, items.as_slice()) {
            Ok(list) => Ok(list),
            Err(_) => Err(ValueFault::NoMemory),
        },
        Err(fault) => Err(fault),
    }
}

/// The items, where `none` stands alone.
fn lone_nothing(found: Option<Vec<TransitionItem>>) -> Option<Vec<TransitionItem>>
    ensures { option_map (λ v. v.items) result ≡ lone_nothing (option_map (λ v. v.items) found) }
{
    let items = found?;
    if has_nothing(items.as_slice()) && items.len() > 1 {
        return None;
    }
    Some(items)
}

fn has_nothing(items: &[TransitionItem]) -> bool
    ensures { result ≡ list_any is_nothing items.now }
{
    items.iter().any(|item| item.property.is_none())
}

fn longhands_of(alloc: Global, items: &[TransitionItem]) -> Result<Vec<Longhand>, AllocError>
    ensures { IfOk result (λ v. v.items ≡ transition_longhands items.now) }
{
    let mut list = Vec::new(alloc);
    let properties = ListValue::Properties(Items::from_vec(properties(alloc, items)?));
    list.push(Longhand::List(ListName::TransitionProperty, properties))?;
    let durations = ListValue::Times(Items::from_vec(durations(alloc, items)?));
    list.push(Longhand::List(ListName::TransitionDuration, durations))?;
    let delays = ListValue::Times(Items::from_vec(delays(alloc, items)?));
    list.push(Longhand::List(ListName::TransitionDelay, delays))?;
    let easings = ListValue::Easings(Items::from_vec(easings(alloc, items)?));
    list.push(Longhand::List(ListName::TransitionEasing, easings))?;
    Ok(list)
}

fn properties(alloc: Global, items: &[TransitionItem]) -> Result<Vec<PropertyItem>, AllocError>
    ensures { IfOk result (λ v. v.items ≡ filter_map (λ i. i.property) items.now) }
{
    items.iter().filter_map(|item| item.property).collect(alloc)
}

fn durations(alloc: Global, items: &[TransitionItem]) -> Result<Vec<Micros>, AllocError>
    ensures { IfOk result (λ v. v.items ≡ map (λ i. i.duration) items.now) }
{
    items.iter().map(|item| item.duration).collect(alloc)
}

fn delays(alloc: Global, items: &[TransitionItem]) -> Result<Vec<Micros>, AllocError>
    ensures { IfOk result (λ v. v.items ≡ map (λ i. i.delay) items.now) }
{
    items.iter().map(|item| item.delay).collect(alloc)
}

fn easings(alloc: Global, items: &[TransitionItem]) -> Result<Vec<Easing>, AllocError>
    ensures { IfOk result (λ v. v.items ≡ map (λ i. i.easing) items.now) }
{
    items.iter().map(|item| item.easing).collect(alloc)
}
