//! The lists that time transitions and animations, of winning declarations.

ghost use Rattle.std.specs.Prelude.{◌≡◌, IfOk, IfSome, option_copied, unwrap_or};
ghost use Rattle.std.specs.Bool.{OnFalse, OnTrue};
ghost use Rattle.timing_types.specs.TimingLists.{initial_animations};
ghost use Rattle.value_types.specs.ListValues.{IsListValueFor};
ghost use Rattle.value_types.specs.TransitionLists.{initial_transitions};
ghost use Rattle.computed_style.specs.ComputedStyles.{animation_lists_of, list_winner, transition_lists_of};
ghost use Rattle.computed_style.specs.DeclaredItems.{counts_or, directions_or, easings_or, fills_or, names_or, properties_or, states_or, times_or};
ghost use Rattle.computed_style.specs.Winners.{AreDeclarations};

use crate::declared_set::Winning;
use fix_num::{Fix, Micros};
use std::alloc::{AllocError, Global};
use timing_types::{
    AnimationLists, Count, Direction, Easing, Fill, Items, IterationLists, Name, PlayState,
    PlaybackLists, copy_names,
};
use value_types::{ListName, ListValue, PropertyItem, Shared, TransitionLists};

/// The lists that time transitions; `None`, which takes no memory, where none of them is declared.
pub(crate) fn transition_lists(
    alloc: Global,
    d: &Winning,
) -> Result<Option<Shared<TransitionLists>>, AllocError>
    ensures { IfOk result (λ lists. unwrap_or lists initial_transitions ≡ transition_lists_of d.now) }
{
    if declares_no_transition(d) {
        return Ok(None);
    }
    let items = properties(alloc, list_winner(d, ListName::TransitionProperty))?;
    let durations = times(alloc, list_winner(d, ListName::TransitionDuration))?;
    let delays = times(alloc, list_winner(d, ListName::TransitionDelay))?;
    let easings = easings(alloc, list_winner(d, ListName::TransitionEasing))?;
    let lists = TransitionLists::new(items, durations, delays, easings);
    Ok(Some(Shared::new(alloc, lists)?))
}

/// The lists that time animations; `None`, which takes no memory, where none of them is declared.
pub(crate) fn animation_lists(
    alloc: Global,
    d: &Winning,
) -> Result<Option<Shared<AnimationLists>>, AllocError>
    ensures { IfOk result (λ lists. unwrap_or lists initial_animations ≡ animation_lists_of d.now) }
{
    if declares_no_animation(d) {
        return Ok(None);
    }
    let names = names(alloc, list_winner(d, ListName::AnimationName))?;
    let timing = timing_of(alloc, d)?;
    let playing = playing_of(alloc, d)?;
    let lists = AnimationLists::new(names, timing, playing);
    Ok(Some(Shared::new(alloc, lists)?))
}

/// When the iterations of animations begin, how long they last, how they run and how many there are.
fn timing_of(alloc: Global, d: &Winning) -> Result<IterationLists, AllocError>
    ensures durations { IfOk result (λ t. t.durations ≡ (animation_lists_of d.now).durations) }
    ensures delays { IfOk result (λ t. t.delays ≡ (animation_lists_of d.now).delays) }
    ensures easings { IfOk result (λ t. t.easings ≡ (animation_lists_of d.now).easings) }
    ensures counts { IfOk result (λ t. t.counts ≡ (animation_lists_of d.now).counts) }
{
    Ok(IterationLists {
        durations: times(alloc, list_winner(d, ListName::AnimationDuration))?,
        delays: times(alloc, list_winner(d, ListName::AnimationDelay))?,
        easings: easings(alloc, list_winner(d, ListName::AnimationEasing))?,
        counts: counts(alloc, list_winner(d, ListName::AnimationCount))?,
    })
}

/// Which way they run, what is shown outside of them, and whether they run at all.
fn playing_of(alloc: Global, d: &Winning) -> Result<PlaybackLists, AllocError>
    ensures directions { IfOk result (λ p. p.directions ≡ (animation_lists_of d.now).directions) }
    ensures fills { IfOk result (λ p. p.fills ≡ (animation_lists_of d.now).fills) }
    ensures states { IfOk result (λ p. p.states ≡ (animation_lists_of d.now).states) }
{
    Ok(PlaybackLists {
        directions: directions(alloc, list_winner(d, ListName::AnimationDirection))?,
        fills: fills(alloc, list_winner(d, ListName::AnimationFill))?,
        states: states(alloc, list_winner(d, ListName::AnimationPlayState))?,
    })
}

// ---- winners

/// The winner of a timing list: important declarations before normal ones.
fn list_winner(d: &Winning, name: ListName) -> Option<&ListValue>
    ensures value { option_copied result ≡ list_winner d.now name }
    ensures all { AreDeclarations d.now }
{
    match d.list(name, true) {
        None => d.list(name, false),
        important => important,
    }
}

fn declares_no_transition(d: &Winning) -> bool
    ensures { OnTrue result (transition_lists_of d.now ≡ initial_transitions) }
{
    !is_declared(d, ListName::TransitionProperty)
        && !is_declared(d, ListName::TransitionDuration)
        && !is_declared(d, ListName::TransitionDelay)
        && !is_declared(d, ListName::TransitionEasing)
}

fn declares_no_animation(d: &Winning) -> bool
    ensures { OnTrue result (animation_lists_of d.now ≡ initial_animations) }
{
    !is_declared(d, ListName::AnimationName)
        && !is_declared(d, ListName::AnimationDuration)
        && !is_declared(d, ListName::AnimationDelay)
        && !is_declared(d, ListName::AnimationEasing)
        && !is_declared(d, ListName::AnimationCount)
        && !is_declared(d, ListName::AnimationDirection)
        && !is_declared(d, ListName::AnimationFill)
        && !is_declared(d, ListName::AnimationPlayState)
}

fn is_declared(d: &Winning, name: ListName) -> bool
    ensures { OnFalse result (list_winner d.now name ≡ None) }
{
    list_winner(d, name).is_some()
}

// ---- what a declaration gives a list, or its initial items

fn properties(
    alloc: Global,
    declared: Option<&ListValue>,
) -> Result<Items<PropertyItem>, AllocError>
    ensures { IfOk result (λ items. items ≡ properties_or initial_transitions.items (option_copied declared.entry)) }
{
    match declared {
        Some(ListValue::Properties(items)) => items.copy(alloc),
        _ => Items::of(alloc, PropertyItem::All),
    }
}

fn times(alloc: Global, declared: Option<&ListValue>) -> Result<Items<Micros>, AllocError>
    ensures { IfOk result (λ items. items ≡ times_or initial_transitions.durations (option_copied declared.entry)) }
{
    match declared {
        Some(ListValue::Times(items)) => items.copy(alloc),
        _ => Items::of(alloc, Micros(0)),
    }
}

fn easings(alloc: Global, declared: Option<&ListValue>) -> Result<Items<Easing>, AllocError>
    ensures { IfOk result (λ items. items ≡ easings_or initial_transitions.easings (option_copied declared.entry)) }
{
    match declared {
        Some(ListValue::Easings(items)) => items.copy(alloc),
        _ => Items::of(alloc, Easing::ease()),
    }
}

fn names(alloc: Global, declared: Option<&ListValue>) -> Result<Items<Option<Name>>, AllocError>
    ensures { IfOk result (λ items. items ≡ names_or initial_animations.names (option_copied declared.entry)) }
{
    match declared {
        Some(ListValue::Names(items)) => copy_names(alloc, items.as_slice()),
        _ => Items::of(alloc, None),
    }
}

fn counts(alloc: Global, declared: Option<&ListValue>) -> Result<Items<Count>, AllocError>
    ensures { IfOk result (λ items. items ≡ counts_or initial_animations.counts (option_copied declared.entry)) }
{
    match declared {
        Some(ListValue::Counts(items)) => items.copy(alloc),
        _ => Items::of(alloc, Count::Times(Fix::ONE)),
    }
}

fn directions(alloc: Global, declared: Option<&ListValue>) -> Result<Items<Direction>, AllocError>
    ensures { IfOk result (λ items. items ≡ directions_or initial_animations.directions (option_copied declared.entry)) }
{
    match declared {
        Some(ListValue::Directions(items)) => items.copy(alloc),
        _ => Items::of(alloc, Direction::Normal),
    }
}

fn fills(alloc: Global, declared: Option<&ListValue>) -> Result<Items<Fill>, AllocError>
    ensures { IfOk result (λ items. items ≡ fills_or initial_animations.fills (option_copied declared.entry)) }
{
    match declared {
        Some(ListValue::Fills(items)) => items.copy(alloc),
        _ => Items::of(alloc, Fill::Nothing),
    }
}

fn states(alloc: Global, declared: Option<&ListValue>) -> Result<Items<PlayState>, AllocError>
    ensures { IfOk result (λ items. items ≡ states_or initial_animations.states (option_copied declared.entry)) }
{
    match declared {
        Some(ListValue::States(items)) => items.copy(alloc),
        _ => Items::of(alloc, PlayState::Running),
    }
}
