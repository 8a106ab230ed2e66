//! Matching items.

ghost use Rattle.std.specs.Prelude.{◌≡◌, Some, if◌then◌else◌, option_copied, unwrap_or};
ghost use Rattle.timing_types.specs.Timing.{IsDelay, IsDuration, IsEasing, ease};
ghost use Rattle.timing_types.specs.TimingLists.{IsListOf, no_time};
ghost use Rattle.value_types.specs.TransitionLists.{initial_transitions};
ghost use Rattle.transition_list.specs.Matching.{IsMatchOf, is_among, last_named, match_at, match_of, names, repeated};

use crate::matched::{Match, MatchedItem};
use fix_num::Micros;
use timing_types::Easing;
use value_types::{PropertyId, PropertyItem, TransitionLists, longhands};

/// The match of a property: what the last item of `transition-property` that names it gives, each shorter
/// list being repeated (CSS Transitions 1, section 3, "matching transition-property value"). `None` exactly
/// where no item names it.
pub fn matching(lists: &TransitionLists, p: PropertyId) -> Option<Match>
    ensures matches { IsMatchOf lists.now p result }
    ensures value { result ≡ match_of lists.now p }
{
    found(lists, p)
}

/// The match of a property by lists of which none may be given: each is initial then.
#[tactic(auto, unfolding(crate::specs::Matching::last_named_from))]
pub fn matching_or_initial(lists: Option<&TransitionLists>, p: PropertyId) -> Option<Match>
    ensures { result ≡ match_of (unwrap_or (option_copied lists.entry) initial_transitions) p }
{
    match lists {
        Some(lists) => matching(lists, p),
        None => Some(initial_match()),
    }
}

/// What the initial lists give each property.
fn initial_match() -> Match
    ensures { result ≡ match_at initial_transitions 0 }
{
    Match::new(MatchedItem {
        duration: Micros(0),
        delay: Micros(0),
        easing: Easing::ease(),
    })
}

fn found(lists: &TransitionLists, p: PropertyId) -> Option<Match>
    ensures { result ≡ match_of lists.now p }
{
    let index = last_named(lists.items(), p)?;
    Some(match_at(lists, index))
}

/// The index of the last item that names the property.
fn last_named(items: &[PropertyItem], p: PropertyId) -> Option<usize>
    ensures { result ≡ last_named p items.now }
{
    let mut last = None;
    for (i, item) in items.iter().enumerate() {
        last = if_named(names(*item, p), i, last);
    }
    last
}

/// This index where its item names the property, else the one before.
fn if_named(named: bool, index: usize, before: Option<usize>) -> Option<usize>
    ensures { result ≡ (if named then Some index else before) }
{
    if named { Some(index) } else { before }
}

/// Whether the item is the property, a shorthand that stands for it, or `all`.
fn names(item: PropertyItem, p: PropertyId) -> bool
    ensures { result ≡ names item p }
{
    match item {
        PropertyItem::All => true,
        PropertyItem::Property(q) => q.number() == p.number(),
        PropertyItem::Short(shorthand) => is_among(longhands(shorthand), p),
        PropertyItem::Unknown => false,
    }
}

fn is_among(properties: &[PropertyId], p: PropertyId) -> bool
    ensures { result ≡ is_among p properties.now }
{
    properties.iter().any(|q| q.number() == p.number())
}

/// What the lists give at an index.
fn match_at(lists: &TransitionLists, index: usize) -> Match
    ensures { result ≡ match_at lists.now index }
{
    Match::new(MatchedItem {
        duration: duration_at(lists.durations(), index),
        delay: delay_at(lists.delays(), index),
        easing: easing_at(lists.easings(), index),
    })
}

fn duration_at(durations: &[Micros], index: usize) -> Micros
    requires { IsListOf IsDuration durations.now }
    ensures value { result ≡ repeated no_time durations.now index }
    ensures bounds { IsDuration result }
{
    durations[index % durations.len()]
}

fn delay_at(delays: &[Micros], index: usize) -> Micros
    requires { IsListOf IsDelay delays.now }
    ensures value { result ≡ repeated no_time delays.now index }
    ensures bounds { IsDelay result }
{
    delays[index % delays.len()]
}

fn easing_at(easings: &[Easing], index: usize) -> Easing
    requires { IsListOf IsEasing easings.now }
    ensures value { result ≡ repeated ease easings.now index }
    ensures bounds { IsEasing result }
{
    easings[index % easings.len()]
}
