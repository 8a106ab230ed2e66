//! What the lists of an element give its animations.
ghost use Rattle.std.specs.Prelude.{◌≡◌, ◌<◌, ◌+◌, ◌%◌, ◌^◌, Some, count_by, length, option_copied, slice_get};
ghost use Rattle.animation_names.specs.Continuing.{is_paused_at, timing_at};
ghost use Rattle.animation_names.specs.NameLists.{animated_name, has_keyframes, is_item, places_after};

use sheet_types::Sheets;
use style_data::{AnimTiming, AnimationTiming};
use timing_types::{AnimationLists, Name, PlayState};

/// The item at a place of a list that is repeated.
fn repeated<T: Copy>(items: &[T], i: usize) -> T
    requires { 0 < length items.now }
    ensures { slice_get items.now (i % length items.now) ≡ Some result }
{
    items[i % items.len()]
}

/// The timing that the lists give a place.
pub(crate) fn timing_at(lists: &AnimationLists, i: usize) -> AnimTiming
    ensures { result ≡ timing_at lists.now i }
{
    AnimTiming::new(AnimationTiming {
        duration: repeated(lists.durations(), i),
        delay: repeated(lists.delays(), i),
        count: repeated(lists.counts(), i),
        direction: repeated(lists.directions(), i),
        fill: repeated(lists.fills(), i),
        easing: repeated(lists.easings(), i),
    })
}

/// Whether the animation at a place is paused.
pub(crate) fn is_paused_at(lists: &AnimationLists, i: usize) -> bool
    ensures { result ≡ is_paused_at lists.now i }
{
    match repeated(lists.states(), i) {
        PlayState::Running => false,
        PlayState::Paused => true,
    }
}

/// The name of an item, where it is other than `none` and has a keyframes rule.
#[tactic(auto, unfolding(crate::specs::NameLists::has_keyframes))]
pub(crate) fn animated_name<'a>(item: &'a Option<Name>, sheets: &Sheets) -> Option<&'a Name>
    ensures { option_copied result ≡ animated_name (has_keyframes sheets.now) item.now }
{
    match item {
        Some(name) if sheets.keyframes_named(name.as_bytes()).is_some() => Some(name),
        _ => None,
    }
}

/// How many places after this one have the name.
pub(crate) fn places_after(names: &[Option<Name>], i: usize, name: &[u8]) -> usize
    requires { i < length names.now }
    ensures { result ≡ places_after names.now i name.now }
{
    names
        .iter()
        .skip(i + 1)
        .filter(|item| is_item(name, item))
        .count()
}

fn is_item(name: &[u8], item: &Option<Name>) -> bool
    ensures { result ≡ is_item name.now item.now }
{
    match item {
        None => false,
        Some(n) => n.as_bytes() == name,
    }
}
