//! The events of cancelled transitions and animations.
ghost use Rattle.std.specs.Prelude.{◌≡◌, ◌++◌, OnOk};
ghost use Rattle.std.specs.List.{flat_map};
ghost use Rattle.ticker.specs.Events.{cancelled_standing, is_cancel_told};
ghost use Rattle.ticker.specs.Ticks.{cancel_events};

use crate::event::{Occurrence, Standing, told_event};
use std::alloc::{AllocError, Global};
use style_data::{Event, EventKind, Gone, Phase, Subject};

/// Where a cancelled transition or animation stands.
fn cancelled_standing(gone: &Gone) -> Standing
    ensures { result ≡ cancelled_standing gone.now.subject gone.now }
{
    let (class, third) = match &gone.subject {
        Subject::Property(p) => (1, p.number()),
        Subject::Animation(_) => (3, gone.place),
    };
    Standing {
        class,
        first: gone.generation,
        second: gone.position,
        third,
    }
}

/// Whether the cancel of what was last seen in this phase is told.
fn is_cancel_told(seen: Phase) -> bool
    ensures { result ≡ is_cancel_told seen }
{
    matches!(seen, Phase::Before | Phase::Active)
}

/// Appends the event of a cancelled transition or animation, where it has one: where it was seen, and hadn't ended.
pub(crate) fn push_cancel(
    alloc: Global,
    events: &mut Vec<Event>,
    element: u32,
    gone: &Gone,
) -> Result<(), AllocError>
    ensures { OnOk result (events.new.items ≡ events.old.items ++ cancel_events element gone.now) }
{
    if !is_cancel_told(gone.seen) {
        return Ok(());
    }
    let subject = gone.subject.copy(alloc)?;
    let occurrence = Occurrence {
        kind: EventKind::Cancel,
        elapsed: gone.elapsed,
        time: gone.cancelled,
    };
    events.push(told_event(element, subject, cancelled_standing(gone), occurrence))?;
    Ok(())
}

/// Appends the events of what was cancelled of one element.
pub(crate) fn push_cancels(
    alloc: Global,
    events: &mut Vec<Event>,
    element: u32,
    items: &[Gone],
) -> Result<(), AllocError>
    ensures { OnOk result (events.new.items ≡ events.old.items ++ flat_map (cancel_events element) items.now) }
{
    for gone in items {
        push_cancel(alloc, events, element, gone)?;
    }
    Ok(())
}

/// Appends the events of what removed elements had.
pub(crate) fn push_departed(
    alloc: Global,
    events: &mut Vec<Event>,
    departed: &[(u32, Gone)],
) -> Result<(), AllocError>
    ensures { OnOk result (events.new.items ≡ events.old.items ++ flat_map (λ d. cancel_events d.0 d.1) departed.now) }
{
    for item in departed {
        push_cancel(alloc, events, item.0, &item.1)?;
    }
    Ok(())
}
