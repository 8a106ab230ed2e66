//! What a tick leaves of transitions and animations.
ghost use Rattle.std.specs.Prelude.{◌≡◌, IfOk, IfSome, IsTrue, OnOk, map, false};
ghost use Rattle.std.specs.List.{list_any};
ghost use Rattle.std.specs.Prelude.{int_le};
ghost use Rattle.style_data.specs.Kept.{IsCompletedFor, IsKeptFor};
ghost use Rattle.style_data.specs.TransitionSets.{AreTransitions};
ghost use Rattle.style_data.specs.Transitions.{IsMoment};
ghost use Rattle.ticker.specs.AnimationEvents.{iteration_now};
ghost use Rattle.ticker.specs.Ticks.{completed_after, completed_by, running_after, still_running, ticked_animation, ticked_transitions};

use anim_timing::{phase_at, progress_at};
use fix_num::Micros;
use std::alloc::{AllocError, Global};
use style_data::{Animation, Completed, Running, Transitions};
use transition_start::phase_at as transition_phase_at;
use value_types::PropertyId;

/// A running transition at time `t`, with its phase as the one last seen; `None` where it has ended.
fn still_running(r: Running, t: Micros) -> Option<Running>
    ensures { result ≡ still_running t.0 r }
{
    if r.get().end.0 <= t.0 {
        return None;
    }
    Some(r.with_seen(transition_phase_at(&r, t)))
}

/// A running transition that has ended by time `t`, completed.
fn completed_by(r: Running, t: Micros) -> Option<Completed>
    ensures { result ≡ completed_by t.0 r }
{
    let r = r.get();
    if r.end.0 <= t.0 {
        return Some(Completed { to: r.to });
    }
    None
}

/// The running transition that a tick leaves of a property.
fn running_after(transitions: &Transitions, p: PropertyId, t: Micros) -> Option<Running>
    ensures value { result ≡ running_after t.0 transitions.now p }
    ensures kept { IfSome result (IsKeptFor p) }
{
    match transitions.running_of(p) {
        Some(r) => still_running(r, t),
        None => None,
    }
}

/// The completed transition that a tick leaves of a property.
fn completed_after(transitions: &Transitions, p: PropertyId, t: Micros) -> Option<Completed>
    ensures value { result ≡ completed_after t.0 transitions.now p }
    ensures kept { IfSome result (IsCompletedFor p) }
{
    if let Some(r) = transitions.running_of(p) {
        if let Some(completed) = completed_by(r, t) {
            return Some(completed);
        }
    }
    transitions.completed_of(p)
}

/// The transitions that a tick leaves.
pub(crate) fn ticked_transitions(
    alloc: Global,
    transitions: &Transitions,
    t: Micros,
) -> Result<Transitions, AllocError>
    ensures { IfOk result (λ ticked. ticked ≡ ticked_transitions t.0 transitions.now) }
{
    let mut ticked = Transitions::new(alloc);
    // Its clause says that no property has both a running and a completed one.
    let _ = transitions.running();
    for p in &PropertyId::ALL {
        let running = running_after(transitions, *p, t);
        let completed = completed_after(transitions, *p, t);
        ticked.keep(*p, running, completed)?;
    }
    Ok(ticked)
}

/// Whether one of the transitions has ended by time `t`.
pub(crate) fn has_ended_one(running: &[(PropertyId, Running)], t: Micros) -> bool
    ensures { result ≡ list_any (λ x. int_le x.1.end.0 t.0) running.now }
{
    running.iter().any(|item| item.1.get().end.0 <= t.0)
}

/// The animation's current iteration at time `t`; where it has none, the one that was last seen.
pub(crate) fn iteration_now(a: &Animation, t: Micros) -> u64
    requires { IsMoment t.0 }
    ensures { result ≡ iteration_now a.now t.0 }
{
    match progress_at(a, t) {
        Some(progress) => progress.iteration,
        None => a.get().iteration,
    }
}

/// The same animations, with their phases and iterations at time `t` as those last seen.
pub(crate) fn ticked_animations(
    alloc: Global,
    animations: &[Animation],
    t: Micros,
) -> Result<Vec<Animation>, AllocError>
    requires { IsMoment t.0 }
    ensures { IfOk result (λ ticked. ticked.items ≡ map (ticked_animation t.0) animations.now) }
{
    let mut ticked = Vec::new(alloc);
    for a in animations {
        ticked.push(ticked_animation(alloc, a, t)?)?;
    }
    Ok(ticked)
}

fn ticked_animation(alloc: Global, a: &Animation, t: Micros) -> Result<Animation, AllocError>
    requires { IsMoment t.0 }
    ensures { IfOk result (λ ticked. ticked ≡ ticked_animation t.0 a.now) }
{
    let mut ticked = a.copy(alloc)?;
    ticked.see(phase_at(a, t), iteration_now(a, t));
    Ok(ticked)
}
