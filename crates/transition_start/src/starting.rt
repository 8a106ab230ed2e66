//! The rules by which a transition starts or stays.
ghost use Rattle.std.specs.Prelude.{◌≡◌, ◌⊎◌, IsNone, IsSome, IsTrue, IfSome, None, Some, ◌+ℤ◌, option_copied, option_map};
ghost use Rattle.interpolation.specs.Interpolation.{is_interpolable};
ghost use Rattle.style_data.specs.Kept.{IsCompletedFor, IsKeptFor};
ghost use Rattle.style_data.specs.Transitions.{IsMoment};
ghost use Rattle.transition_list.specs.MatchedItems.{IsMatchedItem};
ghost use Rattle.value_types.specs.Validity.{IsValid};
ghost use Rattle.transition_start.specs.Change.{IsChange, change_at, combined_duration, property_change};
ghost use Rattle.transition_start.specs.Functions.{decision_of};
ghost use Rattle.transition_start.specs.Results.{decision_with, gone_item, new_transition, reversing_transition};
ghost use Rattle.transition_start.specs.Sampling.{sample_of};

use crate::cancel::cancelled;
use crate::change::PropertyChange;
use crate::sample::{output_at, value_at};
use fix_num::{Bill, Micros};
use interpolation::{able, same};
use reversing::{reversed_times, shortened};
use style_data::{Completed, Decision, Phase, Running, Transition};
use transition_list::{Match, MatchedItem};
use value_types::{PropertyId, Value};

/// Decides, for one property, what a style change event at time `t` makes of its transitions, by the rules
/// of CSS Transitions Level 1, section 3: from the running and the completed one that it had, never both, the
/// before-change and the after-change value, and the matching item. A new transition gets the generation and
/// the tree position. What then runs, or has completed, ends at the after-change value, and what has completed has a
/// match.
#[tactic(auto, unfolding(crate::specs::Functions::decision_of, crate::specs::Functions::rule_of))]
pub fn decide(
    p: PropertyId,
    running: Option<&Running>,
    completed: Option<&Completed>,
    before: Value,
    after: Value,
    matched: Option<Match>,
    t: Micros,
    generation: u32,
    position: u32,
) -> Decision
    requires apart { IsNone running ⊎ IsNone completed }
    requires running { IfSome running (λ r. IsKeptFor p r.now) }
    requires completed { IfSome completed (λ c. IsCompletedFor p c.now) }
    requires before { IsValid p before }
    requires after { IsValid p after }
    requires time { IsMoment t.0 }
    ensures decision { result ≡ decision_of (change_at (property_change p before after t.0 generation position) (option_copied running.entry) (option_copied completed.entry) matched) }
    ensures running { IfSome result.running (IsKeptFor p) }
    ensures completed { IfSome result.completed (IsCompletedFor p) }
    ensures apart { IsNone result.running ⊎ IsNone result.completed }
    ensures arrives { IfSome result.running (λ r. r.to ≡ after) }
    ensures stays_there { IfSome result.completed (λ c. (c.to ≡ after) × IsSome matched) }
{
    let change = PropertyChange {
        property: p,
        before,
        after,
        time: t,
        generation,
        position,
    };
    // Rule 3: no item of `transition-property` matches. The other rules want a match.
    let Some(matched) = matched else {
        return unmatched(change, running);
    };
    match running {
        None => without_running(change, completed, matched.get()),
        Some(r) => with_running(change, *r, matched.get()),
    }
}

/// Rule 3: where no item matches, a running transition is cancelled and a completed one is removed.
fn unmatched(change: PropertyChange, running: Option<&Running>) -> Decision
    requires change { IsChange change }
    requires kept { IfSome running (λ r. IsKeptFor change.property r.now) }
    ensures { result ≡ decision_with None None (option_map (λ r. gone_item change.property r change.time.0) (option_copied running.entry)) }
{
    match running {
        None => decision_with(None, None),
        Some(r) => in_place_of(change, *r, None),
    }
}

/// Rules 1 and 2, where no transition runs.
#[tactic(auto, unfolding(crate::specs::Functions::decision_of, crate::specs::Functions::rule_of))]
fn without_running(
    change: PropertyChange,
    completed: Option<&Completed>,
    item: MatchedItem,
) -> Decision
    requires change { IsChange change }
    requires item { IsMatchedItem item }
    requires completed { IfSome completed (λ c. IsCompletedFor change.property c.now) }
    ensures decision { result ≡ decision_of (change_at change None (option_copied completed.entry) (Some item)) }
    ensures running { IfSome result.running (IsKeptFor change.property) }
    ensures completed { IfSome result.completed (IsCompletedFor change.property) }
    ensures apart { IsNone result.running ⊎ IsNone result.completed }
    ensures arrives { IfSome result.running (λ r. r.to ≡ change.after) }
    ensures stays_there { IfSome result.completed (λ c. c.to ≡ change.after) }
{
    // A completed transition that ends at the after-change value stays, and none starts.
    if let Some(done) = completed {
        if same(done.to, change.after) {
            return decision_with(None, Some(*done));
        }
    }
    // Rule 1 doesn't apply: the values are the same, or have no way between them, or there is no time. A completed
    // transition that ends elsewhere is removed by rule 2.
    if same(change.before, change.after)
        || !able(change.property, change.before, change.after)
        || combined_duration(item) <= 0
    {
        return decision_with(None, None);
    }
    // Rule 1: a transition starts from the before-change value.
    decision_with(Some(new_transition(change, item, change.before)), None)
}

/// Rules 4.1 to 4.4, where a transition runs.
#[tactic(auto, unfolding(crate::specs::Functions::decision_of, crate::specs::Functions::rule_of))]
fn with_running(change: PropertyChange, r: Running, item: MatchedItem) -> Decision
    requires change { IsChange change }
    requires item { IsMatchedItem item }
    requires kept { IsKeptFor change.property r }
    ensures decision { result ≡ decision_of (change_at change (Some r) None (Some item)) }
    ensures running { IfSome result.running (IsKeptFor change.property) }
    ensures completed { IsNone result.completed }
    ensures arrives { IfSome result.running (λ r. r.to ≡ change.after) }
{
    let (p, after) = (change.property, change.after);
    // What runs to the after-change value runs on.
    if same(r.get().to, after) {
        return decision_with(Some(r), None);
    }
    let current = value_at(p, &r, change.time);
    // Rule 4.1: it is there already, or has no way there.
    if same(current, after) || !able(p, current, after) {
        return in_place_of(change, r, None);
    }
    // Rule 4.2: there is no time.
    if combined_duration(item) <= 0 {
        return in_place_of(change, r, None);
    }
    // Rule 4.3: it goes back to where it came from.
    if same(r.get().adjusted, after) {
        return in_place_of(change, r, Some(reversing_transition(change, item, r)));
    }
    // Rule 4.4: it goes on to another value.
    in_place_of(change, r, Some(new_transition(change, item, current)))
}

fn decision_with(running: Option<Running>, completed: Option<Completed>) -> Decision
    ensures { result ≡ decision_with running completed None }
{
    Decision {
        running,
        completed,
        gone: None,
    }
}

/// The running transition `r` is cancelled, and another may run in its place.
fn in_place_of(change: PropertyChange, r: Running, running: Option<Running>) -> Decision
    requires change { IsChange change }
    requires kept { IsKeptFor change.property r }
    ensures { result ≡ decision_with running None (Some (gone_item change.property r change.time.0)) }
{
    Decision {
        running,
        completed: None,
        gone: Some(cancelled(change.property, &r, change.time)),
    }
}

/// The matching duration, at least 0, and the matching delay together, in microseconds.
fn combined_duration(item: MatchedItem) -> i64
    requires { IsMatchedItem item }
    ensures { result ≡ combined_duration item }
{
    item.duration.0.max(0) + item.delay.0
}

/// A transition that starts after the matching delay and lasts the matching duration.
fn new_transition(change: PropertyChange, item: MatchedItem, from: Value) -> Running
    requires change { IsChange change }
    requires item { IsMatchedItem item }
    requires from { IsValid change.property from }
    requires way { IsTrue (is_interpolable change.property from change.after) }
    ensures value { result ≡ new_transition change item from }
    ensures kept { IsKeptFor change.property result }
    ensures arrives { result.to ≡ change.after }
{
    let (start, end) = times(change.time, item);
    Running::new(Transition {
        from,
        to: change.after,
        adjusted: from,
        created: change.time,
        start,
        end,
        easing: item.easing,
        factor: Bill(1_000_000_000),
        generation: change.generation,
        position: change.position,
        seen: Phase::Idle,
    })
}

/// When a transition starts and ends that starts at time `t` and its delay.
fn times(t: Micros, item: MatchedItem) -> (Micros, Micros)
    requires time { IsMoment t.0 }
    requires item { IsMatchedItem item }
    ensures start { result.0.0 ≡ t.0 +ℤ item.delay.0 }
    ensures end { result.1.0 ≡ (t.0 +ℤ item.delay.0) +ℤ item.duration.0 }
{
    let start = t.0 + item.delay.0;
    (Micros(start), Micros(start + item.duration.0))
}

/// A transition that goes back from the current value of `r`, shortened by what that has done (section 3.1).
fn reversing_transition(change: PropertyChange, item: MatchedItem, r: Running) -> Running
    requires change { IsChange change }
    requires item { IsMatchedItem item }
    requires kept { IsKeptFor change.property r }
    requires way { IsTrue (is_interpolable change.property (sample_of change.property r change.time.0) change.after) }
    ensures value { result ≡ reversing_transition change item r }
    ensures kept { IsKeptFor change.property result }
    ensures arrives { result.to ≡ change.after }
{
    let old = r.get();
    let factor = shortened(old.factor, output_at(old, change.time));
    let (start, end) = reversed_times(change.time, item.delay, item.duration, factor);
    Running::new(Transition {
        from: value_at(change.property, &r, change.time),
        to: change.after,
        adjusted: old.to,
        created: change.time,
        start,
        end,
        easing: item.easing,
        factor,
        generation: change.generation,
        position: change.position,
        seen: Phase::Idle,
    })
}
