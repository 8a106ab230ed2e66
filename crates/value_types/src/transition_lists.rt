//! The lists that time transitions.

ghost use Rattle.std.specs.Prelude.{◌≡◌, ◌≤◌, length, IfOk};
ghost use Rattle.timing_types.specs.Timing.{IsDelay, IsDuration, IsEasing};
ghost use Rattle.timing_types.specs.TimingLists.{IsListOf};
ghost use Rattle.value_types.specs.TransitionLists.{initial_transitions, transition_values};

use crate::shorthand::PropertyItem;
use fix_num::Micros;
use std::alloc::{AllocError, Global};
use std::marker::Model;
use timing_types::limits::MAX_ITEMS;
use timing_types::{Easing, Items, Same};

/// The four lists that time the transitions of an element (CSS Transitions 1, "Transitions"). Durations are 0 to
/// 10^15 microseconds, delays within 10^15, easings within their bounds. Each list has at most 32 items; only `items` may
/// be empty, and is so for the keyword `none`.
#[derive(Drop)]
pub struct TransitionLists {
    items: Items<PropertyItem>,
    durations: Items<Micros>,
    delays: Items<Micros>,
    easings: Items<Easing>,
}

impl Model for TransitionLists {
    ghost use Rattle.value_types.specs.TransitionLists.{TransitionValues, IsTransitionValues, transition_values};

    ghost Value = { TransitionValues };

    ghost view = { λ l. transition_values l.items l.durations l.delays l.easings };

    ghost invariant = { λ l. IsTransitionValues (transition_values l.items l.durations l.delays l.easings) };
}

impl TransitionLists {
    /// These lists. Takes no memory.
    pub fn new(
        items: Items<PropertyItem>,
        durations: Items<Micros>,
        delays: Items<Micros>,
        easings: Items<Easing>,
    ) -> Self
        requires items { length items ≤ MAX_ITEMS }
        requires durations { IsListOf IsDuration durations }
        requires delays { IsListOf IsDelay delays }
        requires easings { IsListOf IsEasing easings }
        ensures { result ≡ transition_values items durations delays easings }
    {
        TransitionLists {
            items,
            durations,
            delays,
            easings,
        }
    }

    /// The initial value of each list.
    pub fn initial(alloc: Global) -> Result<Self, AllocError>
        ensures { IfOk result (λ lists. lists ≡ initial_transitions) }
    {
        Ok(TransitionLists {
            items: Items::of(alloc, PropertyItem::All)?,
            durations: Items::of(alloc, Micros(0))?,
            delays: Items::of(alloc, Micros(0))?,
            easings: Items::of(alloc, Easing::ease())?,
        })
    }

    /// The same lists again.
    pub fn copy(&self, alloc: Global) -> Result<Self, AllocError>
        ensures { IfOk result (λ lists. lists ≡ self.now) }
    {
        Ok(TransitionLists {
            items: self.items.copy(alloc)?,
            durations: self.durations.copy(alloc)?,
            delays: self.delays.copy(alloc)?,
            easings: self.easings.copy(alloc)?,
        })
    }

    /// The items of `transition-property`.
    pub fn items(&self) -> &[PropertyItem]
        ensures value { result.now ≡ self.now.items }
        ensures bounds { length result.now ≤ MAX_ITEMS }
    {
        self.items.as_slice()
    }

    /// The items of `transition-duration`.
    pub fn durations(&self) -> &[Micros]
        ensures value { result.now ≡ self.now.durations }
        ensures bounds { IsListOf IsDuration result.now }
    {
        self.durations.as_slice()
    }

    /// The items of `transition-delay`.
    pub fn delays(&self) -> &[Micros]
        ensures value { result.now ≡ self.now.delays }
        ensures bounds { IsListOf IsDelay result.now }
    {
        self.delays.as_slice()
    }

    /// The items of `transition-timing-function`.
    pub fn easings(&self) -> &[Easing]
        ensures value { result.now ≡ self.now.easings }
        ensures bounds { IsListOf IsEasing result.now }
    {
        self.easings.as_slice()
    }
}

impl Same for TransitionLists {
    fn is_same(&self, other: &TransitionLists) -> bool {
        self.items.is_same(&other.items)
            && self.durations.is_same(&other.durations)
            && self.delays.is_same(&other.delays)
            && self.easings.is_same(&other.easings)
    }
}
