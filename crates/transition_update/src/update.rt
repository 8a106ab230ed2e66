//! The update of all transitions of an element.

ghost use Rattle.std.specs.Prelude.{◌≡◌, ◌++◌, ◌⊎◌, IfOk, IfSome, IsNone, IsTrue, OnOk, option_copied, option_to_list};
ghost use Rattle.std.specs.Bool.{OnTrue};
ghost use Rattle.computed_style.specs.ByProperty.{kept_for};
ghost use Rattle.computed_style.specs.Styles.{value_of};
ghost use Rattle.style_data.specs.Kept.{IsCompletedFor, IsKeptFor};
ghost use Rattle.style_data.specs.TransitionSets.{AreTransitions, ComesLast, kept_with};
ghost use Rattle.style_data.specs.Transitions.{IsMoment};
ghost use Rattle.transition_update.specs.Idle.{AreOthersSame, HasNone, IsIdle};
ghost use Rattle.transition_update.specs.Updates.{cancelled_by, decision_for, style_change, transitions_after};

use crate::event::StyleChangeEvent;
use crate::staying::all_end_there;
use computed_style::Style;
use std::alloc::{AllocError, Global};
use style_data::{Decision, Gone, Transitions};
use transition_list::matching_or_initial;
use transition_start::decide;
use value_types::PropertyId;

/// What a style change event leaves of an element's transitions, and those that it cancelled, in the order of
/// their properties.
#[derive(Drop)]
pub struct UpdatedTransitions {
    pub transitions: Transitions,
    pub gone: Vec<Gone>,
}

/// Applies the rules of CSS Transitions Level 1, section 3, to each property of a rendered element: from the
/// transitions that it had, its before-change and its after-change style. Takes memory only for a third running or a
/// third completed transition, and for those that are cancelled.
pub fn update_transitions(
    alloc: Global,
    transitions: &Transitions,
    before: &Style,
    after: &Style,
    event: StyleChangeEvent,
) -> Result<UpdatedTransitions, AllocError>
    requires { IsMoment event.time.0 }
    ensures transitions { IfOk result (λ u. u.transitions ≡ transitions_after (style_change before.now after.now event) transitions.now) }
    ensures gone { IfOk result (λ u. u.gone.items ≡ cancelled_by (style_change before.now after.now event) transitions.now) }
{
    update_each(alloc, transitions, before, after, event, false)
}

/// The same where the styles differ at most in properties of which a transition is kept: no others are looked at. Where all
/// these end at the after-change value and are matched, they are copied and no rule is asked.
pub fn update_kept_transitions(
    alloc: Global,
    transitions: &Transitions,
    before: &Style,
    after: &Style,
    event: StyleChangeEvent,
) -> Result<UpdatedTransitions, AllocError>
    requires time { IsMoment event.time.0 }
    requires others { (p : PropertyId) → HasNone transitions.now p → value_of before.now p ≡ value_of after.now p }
    ensures transitions { IfOk result (λ u. u.transitions ≡ transitions_after (style_change before.now after.now event) transitions.now) }
    ensures gone { IfOk result (λ u. u.gone.items ≡ cancelled_by (style_change before.now after.now event) transitions.now) }
{
    if all_end_there(transitions, after) {
        return Ok(UpdatedTransitions {
            transitions: transitions.copy(alloc)?,
            gone: Vec::new(alloc),
        });
    }
    update_each(alloc, transitions, before, after, event, true)
}

/// Applies the rules to one property after another, and passes over those of which no transition is kept where it is
/// known that they have the same value in both styles.
fn update_each(
    alloc: Global,
    transitions: &Transitions,
    before: &Style,
    after: &Style,
    event: StyleChangeEvent,
    others_same: bool,
) -> Result<UpdatedTransitions, AllocError>
    requires time { IsMoment event.time.0 }
    requires others { IsTrue others_same → AreOthersSame before.now after.now transitions.now }
    ensures transitions { IfOk result (λ u. u.transitions ≡ transitions_after (style_change before.now after.now event) transitions.now) }
    ensures gone { IfOk result (λ u. u.gone.items ≡ cancelled_by (style_change before.now after.now event) transitions.now) }
{
    let mut updated = UpdatedTransitions {
        transitions: Transitions::new(alloc),
        gone: Vec::new(alloc),
    };
    // Its clause says that no property has both a running and a completed one, which the rules want.
    let _ = transitions.running();
    for p in &PropertyId::ALL {
        update_property(
            &mut updated,
            *p,
            transitions,
            before,
            after,
            event,
            others_same,
        )?;
    }
    Ok(updated)
}

/// Puts what the rules leave of one property's transitions after those of the properties before it.
fn update_property(
    updated: &mut UpdatedTransitions,
    p: PropertyId,
    transitions: &Transitions,
    before: &Style,
    after: &Style,
    event: StyleChangeEvent,
    others_same: bool,
) -> Result<(), AllocError>
    requires time { IsMoment event.time.0 }
    requires kept { AreTransitions transitions.now }
    requires last { ComesLast p updated.old.transitions }
    requires others { IsTrue others_same → AreOthersSame before.now after.now transitions.now }
    ensures transitions { OnOk result (updated.new.transitions ≡ (let d = decision_for (style_change before.now after.now event) transitions.now p in kept_with updated.old.transitions p d.running d.completed)) }
    ensures gone { OnOk result (updated.new.gone.items ≡ updated.old.gone.items ++ option_to_list (decision_for (style_change before.now after.now event) transitions.now p).gone) }
{
    if is_idle(p, transitions, before, after, others_same) {
        return Ok(());
    }
    let decision = decision_for(p, transitions, before, after, event);
    updated
        .transitions
        .keep(p, decision.running, decision.completed)?;
    push_some(&mut updated.gone, decision.gone)
}

/// Whether nothing starts, and nothing is there to change, so that no rule has to be asked.
fn is_idle(
    p: PropertyId,
    transitions: &Transitions,
    before: &Style,
    after: &Style,
    others_same: bool,
) -> bool
    requires { IsTrue others_same → AreOthersSame before.now after.now transitions.now }
    ensures { OnTrue result (IsIdle before.now after.now transitions.now p) }
{
    has_none(p, transitions) && (others_same || before.is_same_at(after, p))
}

/// Whether no transition of the property runs, and none has completed.
fn has_none(p: PropertyId, transitions: &Transitions) -> bool
    ensures { OnTrue result (HasNone transitions.now p) }
{
    kept_in(transitions.running(), p).is_none() && kept_in(transitions.completed(), p).is_none()
}

/// What is kept of a property.
fn kept_in<T>(kept: &[(PropertyId, T)], p: PropertyId) -> Option<&T>
    ensures { option_copied result ≡ kept_for p kept.now }
{
    kept.iter()
        .find(|item| item.0.number() == p.number())
        .map(|item| &item.1)
}

fn push_some(items: &mut Vec<Gone>, item: Option<Gone>) -> Result<(), AllocError>
    ensures { OnOk result (items.new.items ≡ items.old.items ++ option_to_list item) }
{
    match item {
        None => Ok(()),
        Some(item) => Ok(items.push(item)?),
    }
}

/// What the rules leave of one property's transitions.
#[tactic(auto, unfolding(crate::specs::Updates::decision_for))]
fn decision_for(
    p: PropertyId,
    transitions: &Transitions,
    before: &Style,
    after: &Style,
    event: StyleChangeEvent,
) -> Decision
    requires time { IsMoment event.time.0 }
    requires kept { AreTransitions transitions.now }
    ensures decision { result ≡ decision_for (style_change before.now after.now event) transitions.now p }
    ensures running { IfSome result.running (IsKeptFor p) }
    ensures completed { IfSome result.completed (IsCompletedFor p) }
    ensures apart { IsNone result.running ⊎ IsNone result.completed }
{
    let running = transitions.running_of(p);
    let completed = transitions.completed_of(p);
    let (from, to) = (before.value(p), after.value(p));
    decide(
        p,
        running.as_ref(),
        completed.as_ref(),
        from,
        to,
        matching_or_initial(after.transitions(), p),
        event.time,
        event.generation,
        event.position,
    )
}
