//! The events of running transitions.
ghost use Rattle.std.specs.Prelude.{◌≡◌, ◌++◌, map, OnOk};
ghost use Rattle.std.specs.List.{flat_map};
ghost use Rattle.style_data.specs.Transitions.{IsTransition};
ghost use Rattle.style_data.specs.declared.gone.Subject.TheVariants.{Property};
ghost use Rattle.ticker.specs.Events.{told_event, transition_standing};
ghost use Rattle.ticker.specs.Ticks.{transition_events};
ghost use Rattle.ticker.specs.TransitionEvents.{transition_occurrences, transitionend, transitionrun, transitionstart};

use crate::event::{Occurrence, Standing, push_of_property};
use fix_num::Micros;
use std::alloc::AllocError;
use style_data::{Event, EventKind, Phase, Running, Transition};
use transition_start::{elapsed_at, phase_at};
use value_types::PropertyId;

/// Where a transition of an element at this position in tree order stands.
fn transition_standing(position: u32, p: PropertyId, r: &Running) -> Standing
    ensures { result ≡ transition_standing position p r.now }
{
    Standing {
        class: 0,
        first: position,
        second: r.get().generation,
        third: p.number(),
    }
}

/// It is created.
fn transitionrun(r: &Running) -> Occurrence
    ensures { result ≡ transitionrun r.now }
{
    let created = r.get().created;
    Occurrence {
        kind: EventKind::Run,
        elapsed: elapsed_at(r, created),
        time: created,
    }
}

/// Its delay is over.
fn transitionstart(r: &Running) -> Occurrence
    ensures { result ≡ transitionstart r.now }
{
    let Transition { created, start, .. } = r.get();
    Occurrence {
        kind: EventKind::Start,
        elapsed: elapsed_at(r, created),
        time: Micros(created.0.max(start.0)),
    }
}

/// Its active duration has elapsed.
fn transitionend(r: &Running) -> Occurrence
    ensures { result ≡ transitionend r.now }
{
    ended(r.get())
}

fn ended(r: Transition) -> Occurrence
    requires { IsTransition r }
    ensures { result ≡ transitionend r }
{
    Occurrence {
        kind: EventKind::End,
        elapsed: Micros(r.end.0 - r.start.0),
        time: Micros(r.created.0.max(r.end.0)),
    }
}

/// Appends what a transition tells between the phase in which it was last seen and the one in which it is.
fn push_between(
    events: &mut Vec<Event>,
    element: u32,
    p: PropertyId,
    at: Standing,
    r: &Running,
    seen: Phase,
    now: Phase,
) -> Result<(), AllocError>
    ensures { OnOk result (events.new.items ≡ events.old.items ++ map (told_event element (Property p) at) (transition_occurrences r.now seen now)) }
{
    match (seen, now) {
        (Phase::Idle, Phase::Before) => {
            push_of_property(events, element, p, at, &[transitionrun(r)])
        }
        (Phase::Idle, Phase::Active) => {
            let occurrences = [transitionrun(r), transitionstart(r)];
            push_of_property(events, element, p, at, &occurrences)
        }
        (Phase::Idle, Phase::After) => {
            let occurrences = [transitionrun(r), transitionstart(r), transitionend(r)];
            push_of_property(events, element, p, at, &occurrences)
        }
        (Phase::Before, Phase::Active) => {
            push_of_property(events, element, p, at, &[transitionstart(r)])
        }
        (Phase::Before, Phase::After) => {
            let occurrences = [transitionstart(r), transitionend(r)];
            push_of_property(events, element, p, at, &occurrences)
        }
        (Phase::Active, Phase::After) => {
            push_of_property(events, element, p, at, &[transitionend(r)])
        }
        _ => Ok(()),
    }
}

/// Appends the events of a running transition.
fn push_transition(
    events: &mut Vec<Event>,
    element: u32,
    position: u32,
    item: &(PropertyId, Running),
    t: Micros,
) -> Result<(), AllocError>
    ensures { OnOk result (events.new.items ≡ events.old.items ++ transition_events element position t.0 item.now) }
{
    let (p, r) = *item;
    push_between(
        events,
        element,
        p,
        transition_standing(position, p, &r),
        &r,
        r.get().seen,
        phase_at(&r, t),
    )
}

/// Appends the events of running transitions.
pub(crate) fn push_transitions(
    events: &mut Vec<Event>,
    element: u32,
    position: u32,
    running: &[(PropertyId, Running)],
    t: Micros,
) -> Result<(), AllocError>
    ensures { OnOk result (events.new.items ≡ events.old.items ++ flat_map (transition_events element position t.0) running.now) }
{
    for item in running {
        push_transition(events, element, position, item, t)?;
    }
    Ok(())
}
