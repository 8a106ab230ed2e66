//! Ticks: rows after the tables of CSS Transitions Level 2 and CSS Animations Level 2, "Event dispatch".
ghost use Rattle.style_data.specs.Transitions.{IsMoment};

use crate::effects::{faded, millis, spun};
use doc_tree::Tree;
use fix_num::Micros;
use std::alloc::{AllocError, Global};
use std::test::Fail;
use style_data::EventKind::{Cancel, End, Iteration, Run, Start};
use style_data::{Effects, Entry, Event, EventKind, Gone, Phase, Subject};
use ticker::tick;
use value_types::PropertyId;

/// The phase in which a fade in the second from 1 s on was last seen, the time in milliseconds, and what a tick then tells: kinds and
/// elapsed times in milliseconds.
const FADES: [(Phase, u16, &[(EventKind, u16)]); 4] = [
    (Phase::Idle, 2000, &[(Run, 0), (Start, 0), (End, 1000)]),
    (Phase::Idle, 500, &[(Run, 0)]),
    (Phase::Before, 1500, &[(Start, 0)]),
    (Phase::Active, 1500, &[]),
];

/// The same of an animation of two and a half iterations of a second, with the iteration that was last seen.
const SPINS: [(Phase, u8, u16, &[(EventKind, u16)]); 5] = [
    (Phase::Idle, 0, 500, &[(Start, 0)]),
    (Phase::Active, 0, 1500, &[(Iteration, 1000)]),
    (Phase::Active, 1, 2600, &[(End, 2500)]),
    (Phase::Before, 0, 2600, &[(Start, 0), (End, 2500)]),
    (Phase::After, 2, 1500, &[(Start, 2500)]),
];

/// What a tick tells of element 1 with these effects.
fn tick_of(
    alloc: Global,
    tree: &Tree,
    effects: Effects,
    t: Micros,
) -> Result<Vec<Event>, AllocError>
    requires { IsMoment t.0 }
{
    let mut entry = Entry::fresh(alloc)?;
    entry.set_effects(alloc, effects)?;
    let mut entries = Vec::new(alloc);
    entries.push((1, entry))?;
    if tree.position(1).is_none() {
        return Ok(Vec::new(alloc));
    }
    tick(alloc, &mut entries, &mut Vec::new(alloc), tree, t)
}

fn are_told(events: &[Event], told: &[(EventKind, u16)]) -> bool {
    events.len() == told.len()
        && events.iter().zip(told).all(|(event, row)| event.kind == row.0
            && event.elapsed == millis(row.1))
}

#[test]
fn phases_tell_events(rt: HostRuntime) -> Result<(), Fail> {
    let mut tree = Tree::new(rt.alloc())?;
    tree.add(1, None, "a")?;
    for (seen, t, told) in &FADES {
        let events = tick_of(rt.alloc(), &tree, faded(rt.alloc(), *seen)?, millis(*t))?;
        assert!(rt; are_told(&events, told));
    }
    for (seen, iteration, t, told) in &SPINS {
        let effects = spun(rt.alloc(), *seen, *iteration)?;
        let events = tick_of(rt.alloc(), &tree, effects, millis(*t))?;
        assert!(rt; are_told(&events, told));
    }
    Ok(())
}

/// A fade of element 2 that was cancelled at 1.5 s.
fn gone(seen: Phase) -> Gone {
    Gone {
        subject: Subject::Property(PropertyId::Opacity),
        place: 0,
        cancelled: Micros(1_500_000),
        elapsed: Micros(500_000),
        generation: 1,
        position: 1,
        seen,
    }
}

#[test]
fn seen_cancels_are_told(rt: HostRuntime) -> Result<(), Fail> {
    let mut departed = Vec::new(rt.alloc());
    departed.push((2, gone(Phase::Idle)))?;
    departed.push((2, gone(Phase::Before)))?;
    let tree = Tree::new(rt.alloc())?;
    let events = tick(
        rt.alloc(),
        &mut Vec::new(rt.alloc()),
        &mut departed,
        &tree,
        Micros(0),
    )?;
    assert!(rt; departed.is_empty() && are_told(&events, &[(Cancel, 500)]));
    Ok(())
}
