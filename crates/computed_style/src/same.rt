//! Equality of styles and declarations.

ghost use Rattle.std.specs.Prelude.{◌≡◌, ◌↔◌, ◌∷◌, [], IsTrue, option_copied, unwrap_or};
ghost use Rattle.timing_types.specs.TimingLists.{initial_animations};
ghost use Rattle.value_types.specs.TransitionLists.{initial_transitions};

use crate::winners::Winners;
use fix_num::{Fix, Micros};
use timing_types::{AnimationLists, Count, Direction, Easing, Fill, Name, PlayState, Same};
use value_types::{PropertyItem, TransitionLists};

impl Same for Winners {
    fn is_same(&self, other: &Winners) -> bool {
        self.important.is_same(&other.important) && self.normal.is_same(&other.normal)
    }
}

fn is_only<T: Same>(xs: &[T], x: &T) -> bool
    ensures { IsTrue result ↔ (xs.now ≡ x.now ∷ []) }
{
    xs.len() == 1 && xs[0].is_same(x)
}

/// Whether each list that times transitions is initial.
fn are_initial_transitions(lists: &TransitionLists) -> bool
    ensures { IsTrue result ↔ (lists.now ≡ initial_transitions) }
{
    is_only(lists.items(), &PropertyItem::All)
        && is_only(lists.durations(), &Micros(0))
        && is_only(lists.delays(), &Micros(0))
        && is_only(lists.easings(), &Easing::ease())
}

/// Whether each list that times animations is initial.
fn are_initial_animations(lists: &AnimationLists) -> bool
    ensures { IsTrue result ↔ (lists.now ≡ initial_animations) }
{
    let none: Option<Name> = None;
    is_only(lists.names(), &none)
        && is_only(lists.durations(), &Micros(0))
        && is_only(lists.delays(), &Micros(0))
        && is_only(lists.easings(), &Easing::ease())
        && is_only(lists.counts(), &Count::Times(Fix::ONE))
        && is_only(lists.directions(), &Direction::Normal)
        && is_only(lists.fills(), &Fill::Nothing)
        && is_only(lists.states(), &PlayState::Running)
}

/// Whether the lists that time transitions are the same, where lists that are left out are initial.
pub(crate) fn time_transitions_alike(
    a: Option<&TransitionLists>,
    b: Option<&TransitionLists>,
) -> bool
    ensures { IsTrue result ↔ (unwrap_or (option_copied a.entry) initial_transitions ≡ unwrap_or (option_copied b.entry) initial_transitions) }
{
    match (a, b) {
        (None, None) => true,
        (Some(a), Some(b)) => a.is_same(b),
        (Some(a), None) => are_initial_transitions(a),
        (None, Some(b)) => are_initial_transitions(b),
    }
}

/// Whether the lists that time animations are the same, where lists that are left out are initial.
pub(crate) fn time_animations_alike(a: Option<&AnimationLists>, b: Option<&AnimationLists>) -> bool
    ensures { IsTrue result ↔ (unwrap_or (option_copied a.entry) initial_animations ≡ unwrap_or (option_copied b.entry) initial_animations) }
{
    match (a, b) {
        (None, None) => true,
        (Some(a), Some(b)) => a.is_same(b),
        (Some(a), None) => are_initial_animations(a),
        (None, Some(b)) => are_initial_animations(b),
    }
}
