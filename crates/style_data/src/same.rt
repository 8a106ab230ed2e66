//! Equality of what is kept.

ghost use Rattle.std.specs.Prelude.{◌≡◌, ◌↔◌, IsTrue};

use crate::animation::{Animation, AnimationState};
use crate::gone::{Gone, Subject};
use crate::timing::AnimTiming;
use crate::transition::{Completed, Running, Transition};
use interpolation::same;
use timing_types::Same;
use value_types::PropertyId;

impl Same for Subject {
    fn is_same(&self, other: &Subject) -> bool {
        match (self, other) {
            (Subject::Property(p), Subject::Property(q)) => p == q,
            (Subject::Animation(a), Subject::Animation(b)) => a.is_same(b),
            _ => false,
        }
    }
}

impl Same for Gone {
    fn is_same(&self, other: &Gone) -> bool {
        self.subject.is_same(&other.subject)
            && self.place == other.place
            && self.cancelled == other.cancelled
            && self.elapsed == other.elapsed
            && self.generation == other.generation
            && self.position == other.position
            && self.seen == other.seen
    }
}

impl Same for Completed {
    fn is_same(&self, other: &Completed) -> bool {
        same(self.to, other.to)
    }
}

impl Same for Running {
    fn is_same(&self, other: &Running) -> bool {
        are_same_transitions(self.get(), other.get())
    }
}

fn are_same_transitions(a: Transition, b: Transition) -> bool
    ensures { IsTrue result ↔ (a ≡ b) }
{
    have_same_values(a, b) && have_same_times(a, b) && have_same_origin(a, b)
}

fn have_same_values(a: Transition, b: Transition) -> bool
    ensures { IsTrue result ↔ ((a.from ≡ b.from) × (a.to ≡ b.to) × (a.adjusted ≡ b.adjusted)) }
{
    same(a.from, b.from) && same(a.to, b.to) && same(a.adjusted, b.adjusted)
}

fn have_same_times(a: Transition, b: Transition) -> bool
    ensures { IsTrue result ↔ ((a.created ≡ b.created) × (a.start ≡ b.start) × (a.end ≡ b.end) × (a.easing ≡ b.easing)) }
{
    a.created == b.created && a.start == b.start && a.end == b.end && a.easing.is_same(&b.easing)
}

fn have_same_origin(a: Transition, b: Transition) -> bool
    ensures { IsTrue result ↔ ((a.factor ≡ b.factor) × (a.generation ≡ b.generation) × (a.position ≡ b.position) × (a.seen ≡ b.seen)) }
{
    a.factor == b.factor
        && a.generation == b.generation
        && a.position == b.position
        && a.seen == b.seen
}

impl Same for AnimTiming {
    fn is_same(&self, other: &AnimTiming) -> bool {
        let (a, b) = (self.get(), other.get());
        a.duration == b.duration
            && a.delay == b.delay
            && a.count.is_same(&b.count)
            && a.direction == b.direction
            && a.fill == b.fill
            && a.easing.is_same(&b.easing)
    }
}

impl Same for AnimationState {
    fn is_same(&self, other: &AnimationState) -> bool {
        self.name.is_same(&other.name)
            && self.place == other.place
            && self.first_place == other.first_place
            && self.created == other.created
            && self.start == other.start
            && self.hold.is_same(&other.hold)
            && self.timing.is_same(&other.timing)
            && self.generation == other.generation
            && self.position == other.position
            && self.seen == other.seen
            && self.iteration == other.iteration
    }
}

impl Same for Animation {
    fn is_same(&self, other: &Animation) -> bool {
        self.get().is_same(other.get())
    }
}

/// Whether the lists of properties have the same of the same properties.
pub(crate) fn have_same<T: Same>(xs: &[(PropertyId, T)], ys: &[(PropertyId, T)]) -> bool
    ensures { IsTrue result ↔ (xs.now ≡ ys.now) }
{
    if xs.len() != ys.len() {
        return false;
    }
    for (i, x) in xs.iter().enumerate() {
        let y = &ys[i];
        if x.0 != y.0 {
            return false;
        }
        if !x.1.is_same(&y.1) {
            return false;
        }
    }
    true
}
