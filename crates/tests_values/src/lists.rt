//! Tests of `list_text`: every keyword and item of the twelve lists, by value, typed from CSS Transitions 1 and CSS
//! Animations 1.

use crate::reading::{easing, list};
use fix_num::{Fix, Micros};
use timing_types::{Count, Direction, Easing, Fill, Items, Jump, PlayState};
use token_parts::ValueFault;
use value_types::{ListName, ListValue, PropertyId, PropertyItem, Shorthand};

/// The only item.
fn only<T: Copy>(items: &Items<T>) -> Option<T> {
    if items.len() == 1 {
        items.get(0).copied()
    } else {
        None
    }
}

fn property(rt: &HostRuntime, text: &str) -> Option<PropertyItem> {
    match list(rt, ListName::TransitionProperty, text) {
        Ok(ListValue::Properties(items)) => only(&items),
        _ => None,
    }
}

fn time(rt: &HostRuntime, name: ListName, text: &str) -> Option<Micros> {
    match list(rt, name, text) {
        Ok(ListValue::Times(items)) => only(&items),
        _ => None,
    }
}

fn count(rt: &HostRuntime, text: &str) -> Option<Count> {
    match list(rt, ListName::AnimationCount, text) {
        Ok(ListValue::Counts(items)) => only(&items),
        _ => None,
    }
}

fn direction(rt: &HostRuntime, text: &str) -> Option<Direction> {
    match list(rt, ListName::AnimationDirection, text) {
        Ok(ListValue::Directions(items)) => only(&items),
        _ => None,
    }
}

fn fill(rt: &HostRuntime, text: &str) -> Option<Fill> {
    match list(rt, ListName::AnimationFill, text) {
        Ok(ListValue::Fills(items)) => only(&items),
        _ => None,
    }
}

fn state(rt: &HostRuntime, text: &str) -> Option<PlayState> {
    match list(rt, ListName::AnimationPlayState, text) {
        Ok(ListValue::States(items)) => only(&items),
        _ => None,
    }
}

#[test]
fn transition_properties(rt: HostRuntime) {
    for p in PropertyId::ALL {
        assert!(rt; property(&rt, p.name()) == Some(PropertyItem::Property(p)));
    }
    for (text, wanted) in [
        ("ALL", PropertyItem::All),
        ("background", PropertyItem::Short(Shorthand::Background)),
        ("Inset", PropertyItem::Short(Shorthand::Inset)),
        ("margin", PropertyItem::Short(Shorthand::Margin)),
        ("padding", PropertyItem::Short(Shorthand::Padding)),
        ("--x", PropertyItem::Unknown),
        ("revert", PropertyItem::Unknown),
        ("transition-delay", PropertyItem::Unknown),
    ] {
        assert!(rt; property(&rt, text) == Some(wanted));
    }
}

#[test]
fn times(rt: HostRuntime) {
    for (text, wanted) in [
        ("1s", 1_000_000),
        ("2MS", 2_000),
        (".0005ms", 1),
        ("-.0005ms", 0),
        ("1000000000s", 1_000_000_000_000_000),
    ] {
        for name in [
            ListName::TransitionDuration,
            ListName::TransitionDelay,
            ListName::AnimationDuration,
            ListName::AnimationDelay,
        ] {
            assert!(rt; time(&rt, name, text) == Some(Micros(wanted)));
        }
    }
    assert!(rt; time(&rt, ListName::TransitionDelay, "-1s") == Some(Micros(-1_000_000)));
    assert!(rt; time(&rt, ListName::AnimationDelay, "-1s") == Some(Micros(-1_000_000)));
}

#[test]
fn counts_and_keywords(rt: HostRuntime) {
    assert!(rt; count(&rt, "0.5") == Some(Count::Times(Fix(500_000))));
    assert!(rt; count(&rt, "Infinite") == Some(Count::Infinite));
    for (text, wanted) in [
        ("normal", Direction::Normal),
        ("reverse", Direction::Reverse),
        ("alternate", Direction::Alternate),
        ("alternate-reverse", Direction::AlternateReverse),
    ] {
        assert!(rt; direction(&rt, text) == Some(wanted));
    }
    for (text, wanted) in [
        ("none", Fill::Nothing),
        ("forwards", Fill::Forwards),
        ("backwards", Fill::Backwards),
        ("both", Fill::Both),
    ] {
        assert!(rt; fill(&rt, text) == Some(wanted));
    }
    for (text, wanted) in [
        ("running", PlayState::Running),
        ("paused", PlayState::Paused),
    ] {
        assert!(rt; state(&rt, text) == Some(wanted));
    }
}

/// Whether the text is the list of one animation's name, or of `none`.
fn is_name(rt: &HostRuntime, text: &str, wanted: Option<&[u8]>) -> bool {
    match list(rt, ListName::AnimationName, text) {
        Ok(ListValue::Names(items)) => match (items.as_slice(), wanted) {
            ([Some(name)], Some(bytes)) => name.as_bytes() == bytes,
            ([None], None) => true,
            _ => false,
        },
        _ => false,
    }
}

#[test]
fn animation_names(rt: HostRuntime) {
    assert!(rt; is_name(&rt, "Fade", Some(b"Fade")));
    assert!(rt; is_name(&rt, "revert", Some(b"revert")));
    assert!(rt; is_name(&rt, "None", None));
}

const fn curve(x1: i32, y1: i32, x2: i32, y2: i32) -> Easing {
    Easing::Cubic { x1, y1, x2, y2 }
}

const fn steps(count: u32, jump: Jump) -> Easing {
    Easing::Steps { count, jump }
}

#[test]
fn easings(rt: HostRuntime) {
    for (text, wanted) in [
        ("Linear", Easing::Linear),
        (" ease /**/", curve(250, 100, 250, 1000)),
        ("ease-in", curve(420, 0, 1000, 1000)),
        ("ease-out", curve(0, 0, 580, 1000)),
        ("ease-in-out", curve(420, 0, 580, 1000)),
        ("step-start", steps(1, Jump::Start)),
        ("step-end", steps(1, Jump::End)),
        ("steps(+3)", steps(3, Jump::End)),
        ("steps(3, start)", steps(3, Jump::Start)),
        ("steps(3, jump-start)", steps(3, Jump::Start)),
        ("steps(3, end)", steps(3, Jump::End)),
        ("steps(3, jump-end)", steps(3, Jump::End)),
        ("steps(3, jump-both)", steps(3, Jump::Both)),
        ("STEPS( 2, Jump-None )", steps(2, Jump::Nowhere)),
        (
            "cubic-bezier(1.0004, -10, 0, 10)",
            curve(1000, -10_000, 0, 10_000),
        ),
    ] {
        assert!(rt; easing(&rt, text) == Ok(wanted));
    }
}

/// How many items are read, or the fault.
fn length(rt: &HostRuntime, name: ListName, text: &str) -> Result<usize, ValueFault> {
    Ok(match list(rt, name, text)? {
        ListValue::Inherit => 98,
        ListValue::Initial => 99,
        ListValue::Properties(items) => items.len(),
        ListValue::Times(items) => items.len(),
        ListValue::Easings(items) => items.len(),
        ListValue::Names(items) => items.len(),
        ListValue::Counts(items) => items.len(),
        ListValue::Directions(items) => items.len(),
        ListValue::Fills(items) => items.len(),
        ListValue::States(items) => items.len(),
    })
}

const MOST: &str = "a,a,a,a,a,a,a,a,a,a,a,a,a,a,a,a,a,a,a,a,a,a,a,a,a,a,a,a,a,a,a,a";

const MANY: &str = "a,a,a,a,a,a,a,a,a,a,a,a,a,a,a,a,a,a,a,a,a,a,a,a,a,a,a,a,a,a,a,a,a";

const UNSUPPORTED: Result<usize, ValueFault> = Err(ValueFault::Unsupported);

const BOUND: Result<usize, ValueFault> = Err(ValueFault::Bound);

const LISTS: [(ListName, &str, Result<usize, ValueFault>); 31] = [
    (
        ListName::TransitionProperty,
        "all, Width, margin, --x",
        Ok(4),
    ),
    (ListName::TransitionProperty, "none", Ok(0)),
    (ListName::TransitionProperty, "none, a", UNSUPPORTED),
    (ListName::TransitionProperty, MOST, Ok(32)),
    (ListName::TransitionDuration, "1s, 0ms", Ok(2)),
    (ListName::TransitionDuration, "-1s", UNSUPPORTED),
    (ListName::TransitionDuration, "1000000001s", BOUND),
    (
        ListName::TransitionDuration,
        "1000000001s, 1px",
        UNSUPPORTED,
    ),
    (ListName::TransitionDelay, "-1000000001s", BOUND),
    (ListName::TransitionDelay, "0", UNSUPPORTED),
    (ListName::TransitionEasing, "steps(2, start), ease", Ok(2)),
    (
        ListName::TransitionEasing,
        "steps(2, start ease)",
        UNSUPPORTED,
    ),
    (
        ListName::TransitionEasing,
        "steps(1, jump-none)",
        UNSUPPORTED,
    ),
    (ListName::TransitionEasing, "steps(2.0)", UNSUPPORTED),
    (ListName::TransitionEasing, "steps(1000001, start)", BOUND),
    (ListName::AnimationName, "none, Fade, revert", Ok(3)),
    (ListName::AnimationName, "a, inherit", UNSUPPORTED),
    (ListName::AnimationName, MANY, Err(ValueFault::BoundItems)),
    (ListName::AnimationDuration, "2ms,", UNSUPPORTED),
    (ListName::AnimationDelay, "", UNSUPPORTED),
    (
        ListName::AnimationEasing,
        "cubic-bezier(1.0005, 0, 0, 0)",
        UNSUPPORTED,
    ),
    (
        ListName::AnimationEasing,
        "cubic-bezier(0, 11, 2, 0)",
        UNSUPPORTED,
    ),
    (
        ListName::AnimationEasing,
        "cubic-bezier(0, 0, 0, -11)",
        BOUND,
    ),
    (
        ListName::AnimationEasing,
        "cubic-bezier(0, 0, 0)",
        UNSUPPORTED,
    ),
    (ListName::AnimationEasing, "smooth", UNSUPPORTED),
    (ListName::AnimationCount, "-1", UNSUPPORTED),
    (ListName::AnimationCount, "1000000.000001", BOUND),
    (ListName::AnimationDirection, "none", UNSUPPORTED),
    (ListName::AnimationFill, "inherit", UNSUPPORTED),
    (ListName::AnimationPlayState, "running, paused", Ok(2)),
    (ListName::AnimationPlayState, "Unset", Ok(99)),
];

#[test]
fn lengths_and_faults(rt: HostRuntime) {
    for (name, text, wanted) in &LISTS {
        assert!(rt; length(&rt, *name, text) == *wanted);
    }
}
