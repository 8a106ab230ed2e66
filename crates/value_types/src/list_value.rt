//! Declared values of the timing lists.

ghost use Rattle.std.specs.Prelude.{◌≡◌, IfOk};

use crate::shorthand::PropertyItem;
use fix_num::Micros;
use std::alloc::{AllocError, Global};
use timing_types::{Count, Direction, Easing, Fill, Items, Name, PlayState, Same, copy_names};

/// A timing list. The variants in `Easing` are the lists of timing functions, and `AnimationCount` is that
/// of iteration counts.
#[derive(Clone, Copy, Debug, PartialEq, Eq)]
pub enum ListName {
    TransitionProperty,
    TransitionDuration,
    TransitionDelay,
    TransitionEasing,
    AnimationName,
    AnimationDuration,
    AnimationDelay,
    AnimationEasing,
    AnimationCount,
    AnimationDirection,
    AnimationFill,
    AnimationPlayState,
}

impl ListName {
    /// The twelve lists, those of transitions first.
    pub const ALL: [ListName; 12] = [
        ListName::TransitionProperty,
        ListName::TransitionDuration,
        ListName::TransitionDelay,
        ListName::TransitionEasing,
        ListName::AnimationName,
        ListName::AnimationDuration,
        ListName::AnimationDelay,
        ListName::AnimationEasing,
        ListName::AnimationCount,
        ListName::AnimationDirection,
        ListName::AnimationFill,
        ListName::AnimationPlayState,
    ];
}

/// What a declaration gives a timing list: a keyword of the cascade, or its items. No list is inherited, so
/// `Inherit` is a value of none.
#[derive(Debug, Drop)]
pub enum ListValue {
    Inherit,
    Initial,
    Properties(Items<PropertyItem>),
    /// Durations or delays.
    Times(Items<Micros>),
    Easings(Items<Easing>),
    Names(Items<Option<Name>>),
    Counts(Items<Count>),
    Directions(Items<Direction>),
    Fills(Items<Fill>),
    States(Items<PlayState>),
}

impl ListValue {
    /// The same value again.
    pub fn copy(&self, alloc: Global) -> Result<ListValue, AllocError>
        ensures { IfOk result (λ copy. copy ≡ self.now) }
    {
        Ok(match self {
            ListValue::Inherit => ListValue::Inherit,
            ListValue::Initial => ListValue::Initial,
            ListValue::Properties(list) => ListValue::Properties(list.copy(alloc)?),
            ListValue::Times(list) => ListValue::Times(list.copy(alloc)?),
            ListValue::Easings(list) => ListValue::Easings(list.copy(alloc)?),
            ListValue::Names(list) => ListValue::Names(copy_names(alloc, list.as_slice())?),
            ListValue::Counts(list) => ListValue::Counts(list.copy(alloc)?),
            ListValue::Directions(list) => ListValue::Directions(list.copy(alloc)?),
            ListValue::Fills(list) => ListValue::Fills(list.copy(alloc)?),
            ListValue::States(list) => ListValue::States(list.copy(alloc)?),
        })
    }
}

impl Same for ListValue {
    fn is_same(&self, other: &ListValue) -> bool {
        match (self, other) {
            (ListValue::Inherit, ListValue::Inherit) | (ListValue::Initial, ListValue::Initial) => {
                true
            }
            (ListValue::Properties(xs), ListValue::Properties(ys)) => xs.is_same(ys),
            (ListValue::Times(xs), ListValue::Times(ys)) => xs.is_same(ys),
            (ListValue::Easings(xs), ListValue::Easings(ys)) => xs.is_same(ys),
            (ListValue::Names(xs), ListValue::Names(ys)) => xs.is_same(ys),
            (ListValue::Counts(xs), ListValue::Counts(ys)) => xs.is_same(ys),
            (ListValue::Directions(xs), ListValue::Directions(ys)) => xs.is_same(ys),
            (ListValue::Fills(xs), ListValue::Fills(ys)) => xs.is_same(ys),
            (ListValue::States(xs), ListValue::States(ys)) => xs.is_same(ys),
            _ => false,
        }
    }
}
