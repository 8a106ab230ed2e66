//! Events and their keys.
ghost use Rattle.std.specs.Prelude.{◌≡◌, ◌++◌, map, OnOk};
ghost use Rattle.style_data.specs.declared.gone.Subject.{Subject};
ghost use Rattle.style_data.specs.declared.gone.Subject.TheVariants.{Animation, Property};
ghost use Rattle.ticker.specs.Events.{told_event};

use fix_num::Micros;
use std::alloc::{AllocError, Global};
use style_data::{Event, EventKind, Key, Subject};
use timing_types::Name;
use value_types::PropertyId;

/// Something of which an event is sent. Times are microseconds.
#[derive(Clone, Copy)]
pub(crate) struct Occurrence {
    pub(crate) kind: EventKind,
    /// The elapsed time.
    pub(crate) elapsed: Micros,
    /// The scheduled event time.
    pub(crate) time: Micros,
}

/// Where the events of a transition or an animation stand in composite order, field by field.
#[derive(Clone, Copy)]
pub struct Standing {
    /// 0 and 1: transitions with and without an owning element; 2 and 3: animations.
    pub class: u32,
    pub first: u32,
    pub second: u32,
    pub third: u32,
}

/// What occurs to a subject of an element, as its event.
pub(crate) fn told_event(element: u32, subject: Subject, at: Standing, o: Occurrence) -> Event
    ensures { result ≡ told_event element subject at o }
{
    Event {
        element,
        subject,
        kind: o.kind,
        elapsed: o.elapsed,
        key: Key {
            time: o.time,
            class: at.class,
            first: at.first,
            second: at.second,
            third: at.third,
            kind: o.kind.number(),
        },
    }
}

/// Appends what occurs to a transition of a property.
pub(crate) fn push_of_property(
    events: &mut Vec<Event>,
    element: u32,
    p: PropertyId,
    at: Standing,
    occurrences: &[Occurrence],
) -> Result<(), AllocError>
    ensures { OnOk result (events.new.items ≡ events.old.items ++ map (told_event element (Property p) at) occurrences.now) }
{
    for o in occurrences {
        events.push(told_event(element, Subject::Property(p), at, *o))?;
    }
    Ok(())
}

/// Appends what occurs to an animation of this name.
pub(crate) fn push_of_animation(
    alloc: Global,
    events: &mut Vec<Event>,
    element: u32,
    name: &Name,
    at: Standing,
    occurrences: &[Occurrence],
) -> Result<(), AllocError>
    ensures { OnOk result (events.new.items ≡ events.old.items ++ map (told_event element (Animation name.now) at) occurrences.now) }
{
    for o in occurrences {
        let subject = Subject::Animation(name.copy(alloc)?);
        events.push(told_event(element, subject, at, *o))?;
    }
    Ok(())
}
