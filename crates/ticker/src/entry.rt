//! The tick of one entry.
ghost use Rattle.std.specs.Prelude.{◌≡◌, ◌++◌, IfOk, IsFalse, IsSome, IsTrue, OnOk, [], false, map};
ghost use Rattle.std.specs.List.{list_any};
ghost use Rattle.std.specs.Prelude.{int_le};
ghost use Rattle.style_data.specs.Transitions.{IsMoment};
ghost use Rattle.doc_tree.specs.Element.{position_of};
ghost use Rattle.ticker.specs.Ticks.{effect_events, entry_events, seen_with_property, ticked_animation, ticked_effects, ticked_entry, ticked_transitions, with_animations, with_running};

use crate::animation::push_animations;
use crate::cancel::push_cancels;
use crate::stays::{has_ended_one, iteration_now, ticked_animations, ticked_transitions};
use crate::transition::push_transitions;
use anim_timing::phase_at;
use doc_tree::Tree;
use fix_num::Micros;
use std::alloc::{AllocError, Global};
use style_data::{Effects, Entry, Event};
use transition_start::phase_at as transition_phase_at;

/// Appends the events of an element's effects.
fn push_events(
    alloc: Global,
    events: &mut Vec<Event>,
    element: u32,
    position: u32,
    effects: &Effects,
    t: Micros,
) -> Result<(), AllocError>
    requires { IsMoment t.0 }
    ensures { OnOk result (events.new.items ≡ events.old.items ++ effect_events element position t.0 effects.now) }
{
    let running = effects.transitions().running();
    push_transitions(events, element, position, running, t)?;
    push_animations(alloc, events, element, position, effects.animations(), t)?;
    push_cancels(alloc, events, element, effects.gone())
}

/// Keeps the phases of the running transitions at time `t` as those last seen.
fn see_transitions(entry: &mut Entry, t: Micros)
    ensures { entry.new ≡ with_running entry.old (map (seen_with_property t.0) entry.old.effects.transitions.running) }
{
    for i in 0..entry.running().len() {
        let seen = transition_phase_at(&entry.running()[i].1, t);
        entry.see_transition(i, seen);
    }
}

/// Keeps the phases and iterations of the animations at time `t` as those last seen.
fn see_animations(entry: &mut Entry, t: Micros)
    requires { IsMoment t.0 }
    ensures { entry.new ≡ with_animations entry.old (map (ticked_animation t.0) entry.old.effects.animations) }
{
    for i in 0..entry.animations().len() {
        let a = &entry.animations()[i];
        let (seen, iteration) = (phase_at(a, t), iteration_now(a, t));
        entry.see_animation(i, seen, iteration);
    }
}

/// The effects that a tick leaves.
fn ticked_effects(alloc: Global, effects: &Effects, t: Micros) -> Result<Effects, AllocError>
    requires { IsMoment t.0 }
    ensures { IfOk result (λ ticked. ticked ≡ ticked_effects t.0 effects.now) }
{
    let transitions = ticked_transitions(alloc, effects.transitions(), t)?;
    let animations = ticked_animations(alloc, effects.animations(), t)?;
    Ok(Effects::new(transitions, animations, Vec::new(alloc)))
}

/// The tick of an entry with these effects, in place where nothing ends and nothing was cancelled.
fn tick_effects(alloc: Global, entry: &mut Entry, t: Micros) -> Result<(), AllocError>
    requires { IsMoment t.0 }
    ensures { OnOk result (entry.new ≡ record entry.old { effects = ticked_effects t.0 entry.old.effects }) }
{
    let Some(effects) = entry.effects() else {
        return Ok(());
    };
    if effects.gone().is_empty() && !has_ended_one(effects.transitions().running(), t) {
        see_transitions(entry, t);
        see_animations(entry, t);
        return Ok(());
    }
    let effects = ticked_effects(alloc, effects, t)?;
    entry.set_effects(alloc, effects)
}

/// Appends the events of an element's entry, and keeps what they tell as seen.
pub(crate) fn tick_entry(
    alloc: Global,
    events: &mut Vec<Event>,
    item: &mut (u32, Entry),
    tree: &Tree,
    t: Micros,
) -> Result<(), AllocError>
    requires time { IsMoment t.0 }
    requires known { IsSome (position_of item.old.0 tree.now) }
    ensures events { OnOk result (events.new.items ≡ events.old.items ++ entry_events tree.now t.0 item.old) }
    ensures entry { OnOk result (item.new ≡ ticked_entry t.0 item.old) }
{
    let Some(effects) = item.1.effects() else {
        return Ok(());
    };
    let position = tree.position(item.0).unwrap();
    push_events(alloc, events, item.0, position, effects, t)?;
    tick_effects(alloc, &mut item.1, t)
}
