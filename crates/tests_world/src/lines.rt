//! Lines of a transcript, byte by byte.
ghost use Rattle.style_data.specs.Transitions.{IsMoment};

use fix_num::{Bill, Fix, Micros};
use script_text::Refusal;
use sheet_rules::{BoundName, CssFault};
use shorthand_text::KnownName;
use std::alloc::{AllocError, Global};
use std::test::Fail;
use style_data::{
    AnimTiming, Animation, AnimationState, AnimationTiming, Completed, Event, EventKind, Gone, Key,
    Phase, Running, Subject, Transition,
};
use timing_types::{Count, Direction, Easing, Fill, Name, is_animation_name};
use transcript_text::{Item, write_line};
use value_types::{ListName, PropertyId, Shorthand, Value};

/// The animation's name, or none for `opacity`; a kind; the elapsed time in microseconds.
const EVENTS: [(Option<&str>, EventKind, i64, &str); 10] = [
    (None, EventKind::Run, 0, "event 1 transitionrun opacity 0\n"),
    (
        None,
        EventKind::Start,
        400_000,
        "event 1 transitionstart opacity 0.4\n",
    ),
    (
        None,
        EventKind::Iteration,
        0,
        "event 1 transitioniteration opacity 0\n",
    ),
    (
        None,
        EventKind::End,
        1_000_000,
        "event 1 transitionend opacity 1\n",
    ),
    (
        None,
        EventKind::Cancel,
        250_001,
        "event 1 transitioncancel opacity 0.250001\n",
    ),
    (Some("a"), EventKind::Run, 0, "event 1 animationrun a 0\n"),
    (
        Some("b"),
        EventKind::Start,
        0,
        "event 1 animationstart b 0\n",
    ),
    (
        Some("k"),
        EventKind::Iteration,
        1_000_000,
        "event 1 animationiteration k 1\n",
    ),
    (
        Some("k"),
        EventKind::End,
        2_500_000,
        "event 1 animationend k 2.5\n",
    ),
    (
        Some("a"),
        EventKind::Cancel,
        200_000,
        "event 1 animationcancel a 0.2\n",
    ),
];

/// The start value, the end value and the reversing-adjusted start value in millionths; the start and the duration in
/// milliseconds; the factor in hundredths; the generation.
const RUNNING: [([i64; 3], [u16; 2], u8, u32, &str); 4] = [
    (
        [250_000, 0, 1_000_000],
        [250, 250],
        25,
        3,
        "running 1 opacity from 0.25 to 0 adjusted 1 start 250 end 500 factor 0.25 generation 3\n",
    ),
    (
        [150_000, 1_000_000, 0],
        [350, 850],
        85,
        4,
        "running 1 opacity from 0.15 to 1 adjusted 0 start 350 end 1200 factor 0.85 generation 4\n",
    ),
    (
        [500_000, 250_000, 500_000],
        [500, 1000],
        100,
        3,
        "running 1 opacity from 0.5 to 0.25 adjusted 0.5 start 500 end 1500 factor 1 generation 3\n",
    ),
    (
        [0, 1_000_000, 0],
        [0, 3000],
        100,
        2,
        "running 1 opacity from 0 to 1 adjusted 0 start 0 end 3000 factor 1 generation 2\n",
    ),
];

/// The place, the start and where it is held, in milliseconds.
const ANIMATIONS: [(u32, &str, u16, Option<u16>, &str); 3] = [
    (0, "b", 0, None, "animation 2 0 b start 0\n"),
    (1, "a", 1000, None, "animation 2 1 a start 1000\n"),
    (0, "k", 0, Some(1250), "animation 2 0 k hold 1250\n"),
];

/// The animation's name, or none for `opacity`; when it was cancelled, in microseconds.
const GONE: [(Option<&str>, i64, &str); 2] = [
    (None, 250_500, "gone 1 transition opacity cancelled 250.5\n"),
    (Some("a"), 200_000, "gone 1 animation a cancelled 200\n"),
];

const VALUES: [(PropertyId, Value, &str); 4] = [
    (
        PropertyId::Opacity,
        Value::Number(Fix(500_000)),
        "value 2 opacity 0.5\n",
    ),
    (
        PropertyId::Color,
        Value::Color {
            r: 150,
            g: 0,
            b: 0,
            a: Fix(1_000_000),
        },
        "value 2 color rgb(150, 0, 0)\n",
    ),
    (
        PropertyId::Width,
        Value::Length {
            px: Fix(7_000_000),
            pct: Fix(0),
        },
        "value 2 width 7px\n",
    ),
    (PropertyId::ZIndex, Value::Auto, "value 2 z-index auto\n"),
];

const REFUSALS: [(u32, Refusal, &str); 12] = [
    (1, Refusal::BoundLine, "refused 1 bound line\n"),
    (13, Refusal::Syntax, "refused 13 syntax\n"),
    (14, Refusal::BoundNumber, "refused 14 bound number\n"),
    (3, Refusal::UnknownNode, "refused 3 unknown-node\n"),
    (4, Refusal::NodeTaken, "refused 4 node-taken\n"),
    (
        6,
        Refusal::TimeBack(Micros(10_000)),
        "refused 6 time-back 10\n",
    ),
    (
        6,
        Refusal::TimeBack(Micros(1_500)),
        "refused 6 time-back 1.5\n",
    ),
    (11, Refusal::BoundNodes, "refused 11 bound nodes\n"),
    (11, Refusal::BoundDepth, "refused 11 bound depth\n"),
    (12, Refusal::BoundRoot, "refused 12 bound root\n"),
    (12, Refusal::BoundClasses, "refused 12 bound classes\n"),
    (2, Refusal::NoStyle, "refused 2 no-style\n"),
];

/// Faults of line 7.
const FAULTS: [(CssFault, &str); 14] = [
    (CssFault::BadToken { at: 12 }, "refused 7 bad-css at 12\n"),
    (
        CssFault::UnsupportedRule { at: 0 },
        "refused 7 unsupported-rule at 0\n",
    ),
    (
        CssFault::UnsupportedValue {
            name: KnownName::Property(PropertyId::Width),
            at: 0,
        },
        "refused 7 unsupported-value width at 0\n",
    ),
    (
        CssFault::UnsupportedValue {
            name: KnownName::List(ListName::TransitionEasing),
            at: 3,
        },
        "refused 7 unsupported-value transition-timing-function at 3\n",
    ),
    (
        CssFault::UnsupportedValue {
            name: KnownName::Short(Shorthand::Margin),
            at: 3,
        },
        "refused 7 unsupported-value margin at 3\n",
    ),
    (
        CssFault::UnsupportedValue {
            name: KnownName::Transition,
            at: 16,
        },
        "refused 7 unsupported-value transition at 16\n",
    ),
    (
        CssFault::UnsupportedValue {
            name: KnownName::Animation,
            at: 15,
        },
        "refused 7 unsupported-value animation at 15\n",
    ),
    (
        CssFault::Bound {
            what: BoundName::Value,
            at: 0,
        },
        "refused 7 bound value at 0\n",
    ),
    (
        CssFault::Bound {
            what: BoundName::Items,
            at: 1,
        },
        "refused 7 bound items at 1\n",
    ),
    (
        CssFault::Bound {
            what: BoundName::Declarations,
            at: 2,
        },
        "refused 7 bound declarations at 2\n",
    ),
    (
        CssFault::Bound {
            what: BoundName::Rules,
            at: 3,
        },
        "refused 7 bound rules at 3\n",
    ),
    (
        CssFault::Bound {
            what: BoundName::Selectors,
            at: 4,
        },
        "refused 7 bound selectors at 4\n",
    ),
    (
        CssFault::Bound {
            what: BoundName::Compounds,
            at: 5,
        },
        "refused 7 bound compounds at 5\n",
    ),
    (
        CssFault::Bound {
            what: BoundName::Offsets,
            at: 6,
        },
        "refused 7 bound offsets at 6\n",
    ),
];

/// Whether the line of the item is this.
fn is_told_as(alloc: Global, item: Item, line: &str) -> Result<bool, AllocError> {
    let mut out = Vec::new(alloc);
    write_line(&mut out, &item)?;
    Ok(out.as_slice() == line.as_bytes())
}

fn millis(t: u16) -> Micros
    ensures { IsMoment result.0 }
{
    Micros(i64::from(t) * 1000)
}

fn name(alloc: Global, text: &str) -> Result<Name, AllocError> {
    if is_animation_name(text.as_bytes()) {
        return Name::from_bytes(alloc, text.as_bytes());
    }
    Ok(Name::underscore(alloc))
}

/// The animation of this name, or the transition of `opacity`.
fn subject(alloc: Global, animation: Option<&str>) -> Result<Subject, AllocError> {
    match animation {
        Some(text) => Ok(Subject::Animation(name(alloc, text)?)),
        None => Ok(Subject::Property(PropertyId::Opacity)),
    }
}

/// An event of element 1.
fn event(subject: Subject, kind: EventKind, elapsed: i64) -> Item {
    Item::Event(Event {
        element: 1,
        subject,
        kind,
        elapsed: Micros(elapsed),
        key: Key {
            time: Micros(0),
            class: 0,
            first: 0,
            second: 0,
            third: 0,
            kind: kind.number(),
        },
    })
}

fn fade(values: [i64; 3], times: [u16; 2], factor: u8, generation: u32) -> Running {
    let start = millis(times[0]);
    Running::new(Transition {
        from: Value::Number(Fix(values[0])),
        to: Value::Number(Fix(values[1])),
        adjusted: Value::Number(Fix(values[2])),
        created: start,
        start,
        end: Micros(start.0 + i64::from(times[1]) * 1000),
        easing: Easing::Linear,
        factor: Bill(i64::from(factor.min(100)) * 10_000_000),
        generation,
        position: 0,
        seen: Phase::Active,
    })
}

fn spin(name: Name, place: u32, start: u16, hold: Option<u16>) -> Animation {
    let timing = AnimTiming::new(AnimationTiming {
        duration: Micros(1_000_000),
        delay: Micros(0),
        count: Count::Infinite,
        direction: Direction::Normal,
        fill: Fill::Nothing,
        easing: Easing::Linear,
    });
    Animation::new(AnimationState {
        name,
        place,
        first_place: 0,
        created: Micros(0),
        start: millis(start),
        hold: match hold {
            Some(t) => Some(millis(t)),
            None => None,
        },
        timing,
        generation: 1,
        position: 0,
        seen: Phase::Active,
        iteration: 0,
    })
}

fn cancelled(subject: Subject, cancelled: i64) -> Gone {
    Gone {
        subject,
        place: 0,
        cancelled: Micros(cancelled),
        elapsed: Micros(0),
        generation: 1,
        position: 0,
        seen: Phase::Active,
    }
}

#[test]
fn events_have_lines(rt: HostRuntime) -> Result<(), Fail> {
    for (animation, kind, elapsed, line) in &EVENTS {
        let item = event(subject(rt.alloc(), *animation)?, *kind, *elapsed);
        assert!(rt; is_told_as(rt.alloc(), item, line)?);
    }
    Ok(())
}

#[test]
fn transitions_have_lines(rt: HostRuntime) -> Result<(), Fail> {
    for (values, times, factor, generation, line) in &RUNNING {
        let item = Item::Running {
            node: 1,
            property: PropertyId::Opacity,
            running: fade(*values, *times, *factor, *generation),
        };
        assert!(rt; is_told_as(rt.alloc(), item, line)?);
    }
    let completed = Item::Completed {
        node: 2,
        property: PropertyId::Color,
        completed: Completed {
            to: Value::Color {
                r: 200,
                g: 0,
                b: 0,
                a: Fix(1_000_000),
            },
        },
    };
    assert!(rt;
        is_told_as(
            rt.alloc(),
            completed,
            "completed 2 color to rgb(200, 0, 0)\n"
        )?
    );
    Ok(())
}

#[test]
fn animations_have_lines(rt: HostRuntime) -> Result<(), Fail> {
    for (place, text, start, hold, line) in &ANIMATIONS {
        let item = Item::Animation {
            node: 2,
            animation: spin(name(rt.alloc(), text)?, *place, *start, *hold),
        };
        assert!(rt; is_told_as(rt.alloc(), item, line)?);
    }
    for (animation, at, line) in &GONE {
        let item = Item::Gone {
            node: 1,
            gone: cancelled(subject(rt.alloc(), *animation)?, *at),
        };
        assert!(rt; is_told_as(rt.alloc(), item, line)?);
    }
    Ok(())
}

#[test]
fn values_have_lines(rt: HostRuntime) -> Result<(), Fail> {
    let work = Item::Work {
        frame: 1,
        updated: 2,
    };
    assert!(rt; is_told_as(rt.alloc(), work, "work 1 2\n")?);
    for (property, value, line) in &VALUES {
        let item = Item::Value {
            node: 2,
            property: *property,
            value: *value,
        };
        assert!(rt; is_told_as(rt.alloc(), item, line)?);
    }
    Ok(())
}

#[test]
fn refusals_have_lines(rt: HostRuntime) -> Result<(), Fail> {
    for (number, refusal, line) in &REFUSALS {
        let item = Item::Refused {
            line: *number,
            refusal: *refusal,
        };
        assert!(rt; is_told_as(rt.alloc(), item, line)?);
    }
    for (fault, line) in &FAULTS {
        let item = Item::Refused {
            line: 7,
            refusal: Refusal::Css(*fault),
        };
        assert!(rt; is_told_as(rt.alloc(), item, line)?);
    }
    Ok(())
}
