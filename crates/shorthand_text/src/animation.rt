//! The shorthand `animation` (CSS Animations 1, "The animation shorthand property").
ghost use Rattle.std.specs.Prelude.{◌≡◌, ◌++◌, map, IfOk, OnOk};
ghost use Rattle.token_parts.specs.Parts.{token_part};
ghost use Rattle.shorthand_text.specs.Declaring.{Reads};
ghost use Rattle.shorthand_text.specs.TimingItems.{animation_of_values, animation_in, animation_item, animation_longhands, animation_with, animation_within, name_in, playing_longhands, timing_longhands};

use crate::components::{components, take_first};
use crate::known_name::ANIMATION_LISTS;
use crate::longhand::Longhand;
use crate::shorthand::initial;
use crate::transition::duration_of;
use fix_num::{Fix, Micros};
use list_text::{Item, found_items, is_initial, items_within};
use std::alloc::{AllocError, Global};
use timing_types::{Count, Direction, Easing, Fill, Items, Name, PlayState};
use token_parts::{Part, ValueFault};
use value_types::{ListName, ListValue};

/// An item of `animation`. No name is the keyword `none`.
#[derive(Drop)]
pub(crate) struct AnimationItem {
    pub name: Option<Name>,
    pub duration: Micros,
    pub delay: Micros,
    pub easing: Easing,
    pub count: Count,
    pub direction: Direction,
    pub fill: Fill,
    pub state: PlayState,
}

impl Item for AnimationItem {
    ghost item_of = { λ name parts. animation_item parts };

    ghost within = { λ i. animation_within i };

    fn read(alloc: Global, _name: ListName, parts: &[Part]) -> Result<Option<Self>, AllocError> {
        animation_item(alloc, parts)
    }

    fn is_within(&self) -> bool {
        self.duration.is_within()
            && self.delay.is_within()
            && self.easing.is_within()
            && self.count.is_within()
    }
}

#[tactic(auto, unfolding(crate::specs::TimingItems::animation_item))]
fn animation_item(alloc: Global, parts: &[Part]) -> Result<Option<AnimationItem>, AllocError>
    ensures { IfOk result (λ o. o ≡ animation_item (map token_part parts.now)) }
{
    if parts.is_empty() {
        return Ok(None);
    }
    animation_from(alloc, components(alloc, parts)?)
}

/// The item of these components: each is the first of direction, fill mode, play state, easing, count, duration and delay
/// that it fits and that is none yet, else the name.
fn animation_from(
    alloc: Global,
    mut components: Vec<&[Part]>,
) -> Result<Option<AnimationItem>, AllocError>
    ensures { IfOk result (λ o. o ≡ animation_of_values (map (λ c. map token_part c.now) components.entry.items)) }
{
    let direction = take_first(alloc, ListName::AnimationDirection, &mut components)?;
    let fill = take_first(alloc, ListName::AnimationFill, &mut components)?;
    let state = take_first(alloc, ListName::AnimationPlayState, &mut components)?;
    let easing = take_first(alloc, ListName::AnimationEasing, &mut components)?;
    let count = take_first(alloc, ListName::AnimationCount, &mut components)?;
    let duration = take_first(alloc, ListName::AnimationDelay, &mut components)?;
    let delay = take_first(alloc, ListName::AnimationDelay, &mut components)?;
    match name_in(alloc, components.as_slice())? {
        Some(name) => Ok(animation_with(
            name, duration, delay, easing, count, direction, fill, state,
        )),
        None => Ok(None),
    }
}

fn animation_with(
    name: Option<Name>,
    duration: Option<Micros>,
    delay: Option<Micros>,
    easing: Option<Easing>,
    count: Option<Count>,
    direction: Option<Direction>,
    fill: Option<Fill>,
    state: Option<PlayState>,
) -> Option<AnimationItem>
    ensures { result ≡ animation_with name duration delay easing count direction fill state }
{
    Some(AnimationItem {
        name,
        duration: duration_of(duration)?,
        delay: delay.unwrap_or(Micros(0)),
        easing: easing.unwrap_or(Easing::ease()),
        count: count.unwrap_or(Count::Times(Fix::ONE)),
        direction: direction.unwrap_or(Direction::Normal),
        fill: fill.unwrap_or(Fill::Nothing),
        state: state.unwrap_or(PlayState::Running),
    })
}

/// The name, by the components that are nothing else.
fn name_in(alloc: Global, components: &[&[Part]]) -> Result<Option<Option<Name>>, AllocError>
    ensures { IfOk result (λ o. o ≡ name_in (map (λ c. map token_part c.now) components.now)) }
{
    match components {
        [] => Ok(Some(None)),
        [component] => Item::read(alloc, ListName::AnimationName, component),
        _ => Ok(None),
    }
}

/// What the parts declare of the lists of animations.
#[tactic(auto, unfolding(crate::specs::TimingItems::animation_in))]
pub(crate) fn animation_lists(alloc: Global, parts: &[Part]) -> Result<Vec<Longhand>, ValueFault>
    ensures { Reads (λ v. v.items) result (animation_in (map token_part parts.now)) }
{
    if is_initial(parts) {
        return initial(alloc, &ANIMATION_LISTS);
    }
    let Ok(found) = found_items(alloc, ListName::AnimationName, parts) else {
        return Err(ValueFault::NoMemory);
    };
    match items_within(found) {
        Ok(items) => match longhands_of(alloc, items.as_slice()) {
            Ok(list) => Ok(list),
            Err(_) => Err(ValueFault::NoMemory),
        },
        Err(fault) => Err(fault),
    }
}

fn longhands_of(alloc: Global, items: &[AnimationItem]) -> Result<Vec<Longhand>, AllocError>
    ensures { IfOk result (λ v. v.items ≡ animation_longhands items.now) }
{
    let mut list = Vec::new(alloc);
    push_timing(alloc, &mut list, items)?;
    push_playing(alloc, &mut list, items)?;
    Ok(list)
}

/// Puts the names, durations, delays and easings after the last.
fn push_timing(
    alloc: Global,
    list: &mut Vec<Longhand>,
    items: &[AnimationItem],
) -> Result<(), AllocError>
    ensures { OnOk result (list.new.items ≡ list.old.items ++ timing_longhands items.now) }
{
    let names = ListValue::Names(names(alloc, items)?);
    list.push(Longhand::List(ListName::AnimationName, names))?;
    let durations = ListValue::Times(Items::from_vec(durations(alloc, items)?));
    list.push(Longhand::List(ListName::AnimationDuration, durations))?;
    let delays = ListValue::Times(Items::from_vec(delays(alloc, items)?));
    list.push(Longhand::List(ListName::AnimationDelay, delays))?;
    let easings = ListValue::Easings(Items::from_vec(easings(alloc, items)?));
    list.push(Longhand::List(ListName::AnimationEasing, easings))?;
    Ok(())
}

/// Puts the counts, directions, fill modes and play states after the last.
fn push_playing(
    alloc: Global,
    list: &mut Vec<Longhand>,
    items: &[AnimationItem],
) -> Result<(), AllocError>
    ensures { OnOk result (list.new.items ≡ list.old.items ++ playing_longhands items.now) }
{
    let counts = ListValue::Counts(Items::from_vec(counts(alloc, items)?));
    list.push(Longhand::List(ListName::AnimationCount, counts))?;
    let directions = ListValue::Directions(Items::from_vec(directions(alloc, items)?));
    list.push(Longhand::List(ListName::AnimationDirection, directions))?;
    let fills = ListValue::Fills(Items::from_vec(fills(alloc, items)?));
    list.push(Longhand::List(ListName::AnimationFill, fills))?;
    let states = ListValue::States(Items::from_vec(states(alloc, items)?));
    list.push(Longhand::List(ListName::AnimationPlayState, states))?;
    Ok(())
}

fn names(alloc: Global, items: &[AnimationItem]) -> Result<Items<Option<Name>>, AllocError>
    ensures { IfOk result (λ l. l ≡ map (λ i. i.name) items.now) }
{
    let mut names = Vec::new(alloc);
    for item in items {
        names.push(name_of(alloc, item)?)?;
    }
    Ok(Items::from_vec(names))
}

fn name_of(alloc: Global, item: &AnimationItem) -> Result<Option<Name>, AllocError>
    ensures { IfOk result (λ name. name ≡ item.now.name) }
{
    match &item.name {
        None => Ok(None),
        Some(name) => Ok(Some(name.copy(alloc)?)),
    }
}

fn durations(alloc: Global, items: &[AnimationItem]) -> Result<Vec<Micros>, AllocError>
    ensures { IfOk result (λ v. v.items ≡ map (λ i. i.duration) items.now) }
{
    items.iter().map(|item| item.duration).collect(alloc)
}

fn delays(alloc: Global, items: &[AnimationItem]) -> Result<Vec<Micros>, AllocError>
    ensures { IfOk result (λ v. v.items ≡ map (λ i. i.delay) items.now) }
{
    items.iter().map(|item| item.delay).collect(alloc)
}

fn easings(alloc: Global, items: &[AnimationItem]) -> Result<Vec<Easing>, AllocError>
    ensures { IfOk result (λ v. v.items ≡ map (λ i. i.easing) items.now) }
{
    items.iter().map(|item| item.easing).collect(alloc)
}

fn counts(alloc: Global, items: &[AnimationItem]) -> Result<Vec<Count>, AllocError>
    ensures { IfOk result (λ v. v.items ≡ map (λ i. i.count) items.now) }
{
    items.iter().map(|item| item.count).collect(alloc)
}

fn directions(alloc: Global, items: &[AnimationItem]) -> Result<Vec<Direction>, AllocError>
    ensures { IfOk result (λ v. v.items ≡ map (λ i. i.direction) items.now) }
{
    items.iter().map(|item| item.direction).collect(alloc)
}

fn fills(alloc: Global, items: &[AnimationItem]) -> Result<Vec<Fill>, AllocError>
    ensures { IfOk result (λ v. v.items ≡ map (λ i. i.fill) items.now) }
{
    items.iter().map(|item| item.fill).collect(alloc)
}

fn states(alloc: Global, items: &[AnimationItem]) -> Result<Vec<PlayState>, AllocError>
    ensures { IfOk result (λ v. v.items ≡ map (λ i. i.state) items.now) }
{
    items.iter().map(|item| item.state).collect(alloc)
}
