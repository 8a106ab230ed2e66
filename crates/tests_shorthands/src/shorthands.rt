//! Tests of `shorthand_text`: the names of properties, timing lists and shorthands, and what shorthands declare, typed
//! from CSS Box 4, CSS Backgrounds 3, CSS Cascade 5, CSS Transitions 1 and CSS Animations 1.

use css_token::tokens;
use fix_num::{Fix, Micros};
use shorthand_text::{KnownName, Longhand, name_of, read_longhands};
use timing_types::{Count, Direction, Easing, Fill, Jump, Name, PlayState};
use token_parts::ValueFault;
use value_types::{Declared, ListName, ListValue, PropertyId, PropertyItem, Shorthand, Size, Unit};

// Each known name, and what it names.
const NAMES: [(&str, KnownName); 43] = [
    (
        "background-color",
        KnownName::Property(PropertyId::BackgroundColor),
    ),
    ("bottom", KnownName::Property(PropertyId::Bottom)),
    ("color", KnownName::Property(PropertyId::Color)),
    ("display", KnownName::Property(PropertyId::Display)),
    ("font-size", KnownName::Property(PropertyId::FontSize)),
    ("height", KnownName::Property(PropertyId::Height)),
    ("left", KnownName::Property(PropertyId::Left)),
    (
        "letter-spacing",
        KnownName::Property(PropertyId::LetterSpacing),
    ),
    (
        "margin-bottom",
        KnownName::Property(PropertyId::MarginBottom),
    ),
    ("margin-left", KnownName::Property(PropertyId::MarginLeft)),
    ("margin-right", KnownName::Property(PropertyId::MarginRight)),
    ("margin-top", KnownName::Property(PropertyId::MarginTop)),
    ("opacity", KnownName::Property(PropertyId::Opacity)),
    (
        "padding-bottom",
        KnownName::Property(PropertyId::PaddingBottom),
    ),
    ("padding-left", KnownName::Property(PropertyId::PaddingLeft)),
    (
        "padding-right",
        KnownName::Property(PropertyId::PaddingRight),
    ),
    ("padding-top", KnownName::Property(PropertyId::PaddingTop)),
    ("right", KnownName::Property(PropertyId::Right)),
    ("rotate", KnownName::Property(PropertyId::Rotate)),
    ("top", KnownName::Property(PropertyId::Top)),
    ("translate", KnownName::Property(PropertyId::Translate)),
    ("visibility", KnownName::Property(PropertyId::Visibility)),
    ("width", KnownName::Property(PropertyId::Width)),
    ("z-index", KnownName::Property(PropertyId::ZIndex)),
    (
        "transition-property",
        KnownName::List(ListName::TransitionProperty),
    ),
    (
        "transition-duration",
        KnownName::List(ListName::TransitionDuration),
    ),
    (
        "transition-delay",
        KnownName::List(ListName::TransitionDelay),
    ),
    (
        "transition-timing-function",
        KnownName::List(ListName::TransitionEasing),
    ),
    ("animation-name", KnownName::List(ListName::AnimationName)),
    (
        "animation-duration",
        KnownName::List(ListName::AnimationDuration),
    ),
    ("animation-delay", KnownName::List(ListName::AnimationDelay)),
    (
        "animation-timing-function",
        KnownName::List(ListName::AnimationEasing),
    ),
    (
        "animation-iteration-count",
        KnownName::List(ListName::AnimationCount),
    ),
    (
        "animation-direction",
        KnownName::List(ListName::AnimationDirection),
    ),
    (
        "animation-fill-mode",
        KnownName::List(ListName::AnimationFill),
    ),
    (
        "animation-play-state",
        KnownName::List(ListName::AnimationPlayState),
    ),
    ("all", KnownName::Short(Shorthand::All)),
    ("background", KnownName::Short(Shorthand::Background)),
    ("inset", KnownName::Short(Shorthand::Inset)),
    ("margin", KnownName::Short(Shorthand::Margin)),
    ("padding", KnownName::Short(Shorthand::Padding)),
    ("transition", KnownName::Transition),
    ("animation", KnownName::Animation),
];

#[test]
fn names(rt: HostRuntime) {
    for (text, name) in NAMES {
        assert!(rt; name_of(text.as_bytes()) == Some(name));
        assert!(rt; name.text() == text);
    }
    assert!(rt; name_of(b"Margin-TOP") == Some(KnownName::Property(PropertyId::MarginTop)));
    for text in [
        "",
        "margin-",
        "transitions",
        "transition-behavior",
        "font",
        "-webkit-transition",
        "all ",
    ] {
        assert!(rt; name_of(text.as_bytes()) == None);
    }
}

/// What the text declares of the name.
fn longhands(rt: &HostRuntime, name: KnownName, text: &str) -> Result<Vec<Longhand>, ValueFault> {
    if text.len() > 1000 {
        return Err(ValueFault::NoMemory);
    }
    let Ok(list) = tokens(rt.alloc(), text) else {
        return Err(ValueFault::NoMemory);
    };
    read_longhands(rt.alloc(), name, text, list.as_slice())
}

fn fault(rt: &HostRuntime, name: KnownName, text: &str) -> Option<ValueFault> {
    match longhands(rt, name, text) {
        Ok(_) => None,
        Err(fault) => Some(fault),
    }
}

// ---- shorthands of properties

fn is_given(longhand: Option<&Longhand>, p: PropertyId, wanted: Declared) -> bool {
    match longhand {
        Some(Longhand::Property(q, declared)) => *q == p && *declared == wanted,
        _ => false,
    }
}

/// Whether the text gives these sides: bottom, left, right, top.
fn gives_sides(rt: &HostRuntime, s: Shorthand, text: &str, sides: [Declared; 4]) -> bool {
    let Ok(list) = longhands(rt, KnownName::Short(s), text) else {
        return false;
    };
    let ps = match s {
        Shorthand::Margin => [
            PropertyId::MarginBottom,
            PropertyId::MarginLeft,
            PropertyId::MarginRight,
            PropertyId::MarginTop,
        ],
        Shorthand::Padding => [
            PropertyId::PaddingBottom,
            PropertyId::PaddingLeft,
            PropertyId::PaddingRight,
            PropertyId::PaddingTop,
        ],
        _ => [
            PropertyId::Bottom,
            PropertyId::Left,
            PropertyId::Right,
            PropertyId::Top,
        ],
    };
    list.len() == 4
        && is_given(list.get(0), ps[0], sides[0])
        && is_given(list.get(1), ps[1], sides[1])
        && is_given(list.get(2), ps[2], sides[2])
        && is_given(list.get(3), ps[3], sides[3])
}

const fn size(amount: i64, unit: Unit) -> Declared {
    Declared::Length(Size {
        amount: Fix(amount),
        unit,
    })
}

#[test]
fn sides(rt: HostRuntime) {
    let px = size(1_000_000, Unit::Px);
    let em = size(2_500_000, Unit::Em);
    let percent = size(-3_000_000, Unit::Percent);
    let rem = size(4_000_000, Unit::Rem);
    let zero = size(0, Unit::Px);
    let auto = Declared::Auto;
    let initial = Declared::Initial;
    for (s, text, wanted) in [
        (Shorthand::Margin, "1px", [px, px, px, px]),
        (Shorthand::Margin, "1px 2.5em", [px, em, em, px]),
        (Shorthand::Margin, "1px 2.5em -3%", [percent, em, em, px]),
        (
            Shorthand::Margin,
            "1px 2.5em -3% 4rem",
            [percent, rem, em, px],
        ),
        (Shorthand::Margin, " AUTO/**/1PX ", [auto, px, px, auto]),
        (
            Shorthand::Margin,
            "Initial",
            [initial, initial, initial, initial],
        ),
        (Shorthand::Padding, "0 1px", [zero, px, px, zero]),
        (
            Shorthand::Padding,
            "unset",
            [initial, initial, initial, initial],
        ),
        (Shorthand::Inset, "auto 1px 0", [zero, px, px, auto]),
        (Shorthand::Inset, "0 1px auto 4rem", [auto, rem, px, zero]),
    ] {
        assert!(rt; gives_sides(&rt, s, text, wanted));
    }
}

#[test]
fn background(rt: HostRuntime) {
    let red = Declared::Color {
        r: 255,
        g: 0,
        b: 0,
        a: Fix(1_000_000),
    };
    let clear = Declared::Color {
        r: 0,
        g: 0,
        b: 0,
        a: Fix(0),
    };
    for (text, wanted) in [
        ("red", red),
        ("#F00", red),
        ("rgb(255, 0, 0)", red),
        ("transparent", clear),
        ("unset", Declared::Initial),
    ] {
        let Ok(list) = longhands(&rt, KnownName::Short(Shorthand::Background), text) else {
            assert!(rt; false);
            return;
        };
        assert!(rt; list.len() == 1);
        assert!(rt; is_given(list.get(0), PropertyId::BackgroundColor, wanted));
    }
}

const INHERITED: [PropertyId; 4] = [
    PropertyId::Color,
    PropertyId::FontSize,
    PropertyId::LetterSpacing,
    PropertyId::Visibility,
];

/// Whether `all` by this keyword gives every property, the inherited ones as said, and every list initially.
fn gives_all(rt: &HostRuntime, text: &str, inherited: Declared) -> bool {
    let Ok(list) = longhands(rt, KnownName::Short(Shorthand::All), text) else {
        return false;
    };
    for (i, p) in PropertyId::ALL.iter().enumerate() {
        let wanted = if INHERITED.contains(p) {
            inherited
        } else {
            Declared::Initial
        };
        if !is_given(list.get(i), *p, wanted) {
            return false;
        }
    }
    for (i, (_, name)) in NAMES[24..36].iter().enumerate() {
        match (list.get(24 + i), name) {
            (Some(Longhand::List(n, ListValue::Initial)), KnownName::List(wanted)) => {
                if *n != *wanted {
                    return false;
                }
            }
            _ => return false,
        }
    }
    list.len() == 36
}

#[test]
fn all(rt: HostRuntime) {
    assert!(rt; gives_all(&rt, "initial", Declared::Initial));
    assert!(rt; gives_all(&rt, "UNSET", Declared::Inherit));
}

#[test]
fn property_faults(rt: HostRuntime) {
    let unsupported = ValueFault::Unsupported;
    let bound = ValueFault::Bound;
    for (s, text, wanted) in [
        (Shorthand::Margin, "", unsupported),
        (Shorthand::Margin, "initial 1px", unsupported),
        (Shorthand::Margin, "1px unset", unsupported),
        (Shorthand::Margin, "inherit", unsupported),
        (Shorthand::Margin, "1px, 2px", unsupported),
        (Shorthand::Margin, "1px 2px 3px 4px 5px", unsupported),
        (Shorthand::Margin, "1000001px 2px 3px 4px 5px", unsupported),
        (Shorthand::Margin, "1000001px 5vh", unsupported),
        (Shorthand::Margin, "5vh 1000001px", unsupported),
        (Shorthand::Margin, "1000001px 5px", bound),
        (Shorthand::Margin, "5px auto -1000001px", bound),
        (Shorthand::Padding, "auto", unsupported),
        (Shorthand::Padding, "1px -1px", unsupported),
        (Shorthand::Padding, "-1000001px", unsupported),
        (Shorthand::Inset, "none", unsupported),
        (Shorthand::Background, "red blue", unsupported),
        (Shorthand::Background, "none", unsupported),
        (Shorthand::Background, "inherit", unsupported),
        (Shorthand::Background, "", unsupported),
        (Shorthand::All, "inherit", unsupported),
        (Shorthand::All, "none", unsupported),
        (Shorthand::All, "initial initial", unsupported),
        (Shorthand::All, "", unsupported),
    ] {
        assert!(rt; fault(&rt, KnownName::Short(s), text) == Some(wanted));
    }
}

// ---- shorthands of timing lists

struct Transition<'a> {
    text: &'a str,
    properties: &'a [PropertyItem],
    durations: &'a [Micros],
    delays: &'a [Micros],
    easings: &'a [Easing],
}

const EASE: Easing = Easing::Cubic {
    x1: 250,
    y1: 100,
    x2: 250,
    y2: 1000,
};

const EASE_IN: Easing = Easing::Cubic {
    x1: 420,
    y1: 0,
    x2: 1000,
    y2: 1000,
};

const ZERO: Micros = Micros(0);

const SECOND: Micros = Micros(1_000_000);

const TRANSITIONS: [Transition; 14] = [
    Transition {
        text: "none",
        properties: &[],
        durations: &[ZERO],
        delays: &[ZERO],
        easings: &[EASE],
    },
    Transition {
        text: "1s None",
        properties: &[],
        durations: &[SECOND],
        delays: &[ZERO],
        easings: &[EASE],
    },
    Transition {
        text: "1s",
        properties: &[PropertyItem::All],
        durations: &[SECOND],
        delays: &[ZERO],
        easings: &[EASE],
    },
    Transition {
        text: "ALL 1s",
        properties: &[PropertyItem::All],
        durations: &[SECOND],
        delays: &[ZERO],
        easings: &[EASE],
    },
    Transition {
        text: "width 1s linear 2ms",
        properties: &[PropertyItem::Property(PropertyId::Width)],
        durations: &[SECOND],
        delays: &[Micros(2000)],
        easings: &[Easing::Linear],
    },
    Transition {
        text: "2ms linear -1s width",
        properties: &[PropertyItem::Property(PropertyId::Width)],
        durations: &[Micros(2000)],
        delays: &[Micros(-1_000_000)],
        easings: &[Easing::Linear],
    },
    Transition {
        text: "linear",
        properties: &[PropertyItem::All],
        durations: &[ZERO],
        delays: &[ZERO],
        easings: &[Easing::Linear],
    },
    // The second easing is the name of a property.
    Transition {
        text: "linear ease",
        properties: &[PropertyItem::Unknown],
        durations: &[ZERO],
        delays: &[ZERO],
        easings: &[Easing::Linear],
    },
    Transition {
        text: "steps(2, start) ease",
        properties: &[PropertyItem::Unknown],
        durations: &[ZERO],
        delays: &[ZERO],
        easings: &[Easing::Steps {
            count: 2,
            jump: Jump::Start,
        }],
    },
    Transition {
        text: "margin steps(3)0s",
        properties: &[PropertyItem::Short(Shorthand::Margin)],
        durations: &[ZERO],
        delays: &[ZERO],
        easings: &[Easing::Steps {
            count: 3,
            jump: Jump::End,
        }],
    },
    Transition {
        text: "cubic-bezier(0, .5, 1, -2) 1s revert",
        properties: &[PropertyItem::Unknown],
        durations: &[SECOND],
        delays: &[ZERO],
        easings: &[Easing::Cubic {
            x1: 0,
            y1: 500,
            x2: 1000,
            y2: -2000,
        }],
    },
    Transition {
        text: "-0.0000004s all",
        properties: &[PropertyItem::All],
        durations: &[ZERO],
        delays: &[ZERO],
        easings: &[EASE],
    },
    Transition {
        text: "opacity 1s, 2ms ease-in color, --x",
        properties: &[
            PropertyItem::Property(PropertyId::Opacity),
            PropertyItem::Property(PropertyId::Color),
            PropertyItem::Unknown,
        ],
        durations: &[SECOND, Micros(2000), ZERO],
        delays: &[ZERO, ZERO, ZERO],
        easings: &[EASE, EASE_IN, EASE],
    },
    Transition {
        text: "1s 1s, 1s 1s",
        properties: &[PropertyItem::All, PropertyItem::All],
        durations: &[SECOND, SECOND],
        delays: &[SECOND, SECOND],
        easings: &[EASE, EASE],
    },
];

fn is_transition(list: &[Longhand], wanted: &Transition) -> bool {
    match list {
        [
            Longhand::List(ListName::TransitionProperty, ListValue::Properties(properties)),
            Longhand::List(ListName::TransitionDuration, ListValue::Times(durations)),
            Longhand::List(ListName::TransitionDelay, ListValue::Times(delays)),
            Longhand::List(ListName::TransitionEasing, ListValue::Easings(easings)),
        ] => {
            properties.as_slice() == wanted.properties
                && durations.as_slice() == wanted.durations
                && delays.as_slice() == wanted.delays
                && easings.as_slice() == wanted.easings
        }
        _ => false,
    }
}

#[test]
fn transitions(rt: HostRuntime) {
    for row in &TRANSITIONS {
        let Ok(list) = longhands(&rt, KnownName::Transition, row.text) else {
            assert!(rt; false);
            return;
        };
        assert!(rt; is_transition(list.as_slice(), row));
    }
}

struct Animation<'a> {
    text: &'a str,
    /// No text is the keyword `none`.
    names: &'a [&'a str],
    durations: &'a [Micros],
    delays: &'a [Micros],
    easings: &'a [Easing],
    counts: &'a [Count],
    directions: &'a [Direction],
    fills: &'a [Fill],
    states: &'a [PlayState],
}

const ONCE: Count = Count::Times(Fix(1_000_000));

const ANIMATIONS: [Animation; 9] = [
    Animation {
        text: "none",
        names: &[""],
        durations: &[ZERO],
        delays: &[ZERO],
        easings: &[EASE],
        counts: &[ONCE],
        directions: &[Direction::Normal],
        fills: &[Fill::Nothing],
        states: &[PlayState::Running],
    },
    // The first `none` is the fill mode, the second the name.
    Animation {
        text: "none none",
        names: &[""],
        durations: &[ZERO],
        delays: &[ZERO],
        easings: &[EASE],
        counts: &[ONCE],
        directions: &[Direction::Normal],
        fills: &[Fill::Nothing],
        states: &[PlayState::Running],
    },
    Animation {
        text: "both none",
        names: &[""],
        durations: &[ZERO],
        delays: &[ZERO],
        easings: &[EASE],
        counts: &[ONCE],
        directions: &[Direction::Normal],
        fills: &[Fill::Both],
        states: &[PlayState::Running],
    },
    Animation {
        text: "Fade 1s",
        names: &["Fade"],
        durations: &[SECOND],
        delays: &[ZERO],
        easings: &[EASE],
        counts: &[ONCE],
        directions: &[Direction::Normal],
        fills: &[Fill::Nothing],
        states: &[PlayState::Running],
    },
    Animation {
        text: "1s ease-in 2ms 2.5 reverse FORWARDS paused fade",
        names: &["fade"],
        durations: &[SECOND],
        delays: &[Micros(2000)],
        easings: &[EASE_IN],
        counts: &[Count::Times(Fix(2_500_000))],
        directions: &[Direction::Reverse],
        fills: &[Fill::Forwards],
        states: &[PlayState::Paused],
    },
    Animation {
        text: "fade paused backwards alternate infinite 1s steps(1, end) -1s",
        names: &["fade"],
        durations: &[SECOND],
        delays: &[Micros(-1_000_000)],
        easings: &[Easing::Steps {
            count: 1,
            jump: Jump::End,
        }],
        counts: &[Count::Infinite],
        directions: &[Direction::Alternate],
        fills: &[Fill::Backwards],
        states: &[PlayState::Paused],
    },
    // What is set already is the name.
    Animation {
        text: "linear linear",
        names: &["linear"],
        durations: &[ZERO],
        delays: &[ZERO],
        easings: &[Easing::Linear],
        counts: &[ONCE],
        directions: &[Direction::Normal],
        fills: &[Fill::Nothing],
        states: &[PlayState::Running],
    },
    Animation {
        text: "3 infinite",
        names: &["infinite"],
        durations: &[ZERO],
        delays: &[ZERO],
        easings: &[EASE],
        counts: &[Count::Times(Fix(3_000_000))],
        directions: &[Direction::Normal],
        fills: &[Fill::Nothing],
        states: &[PlayState::Running],
    },
    Animation {
        text: "a 1s, alternate-reverse, revert 0 running",
        names: &["a", "", "revert"],
        durations: &[SECOND, ZERO, ZERO],
        delays: &[ZERO, ZERO, ZERO],
        easings: &[EASE, EASE, EASE],
        counts: &[ONCE, ONCE, Count::Times(Fix(0))],
        directions: &[
            Direction::Normal,
            Direction::AlternateReverse,
            Direction::Normal,
        ],
        fills: &[Fill::Nothing, Fill::Nothing, Fill::Nothing],
        states: &[PlayState::Running, PlayState::Running, PlayState::Running],
    },
];

fn is_name(name: &Option<Name>, wanted: &str) -> bool {
    match name {
        None => wanted.is_empty(),
        Some(name) => name.as_bytes() == wanted.as_bytes(),
    }
}

fn are_names(names: &[Option<Name>], wanted: &[&str]) -> bool {
    for (name, text) in names.iter().zip(wanted) {
        if !is_name(name, text) {
            return false;
        }
    }
    names.len() == wanted.len()
}

fn is_animation(list: &[Longhand], wanted: &Animation) -> bool {
    match list {
        [
            Longhand::List(ListName::AnimationName, ListValue::Names(names)),
            Longhand::List(ListName::AnimationDuration, ListValue::Times(durations)),
            Longhand::List(ListName::AnimationDelay, ListValue::Times(delays)),
            Longhand::List(ListName::AnimationEasing, ListValue::Easings(easings)),
            playing @ ..,
        ] => {
            are_names(names.as_slice(), wanted.names)
                && durations.as_slice() == wanted.durations
                && delays.as_slice() == wanted.delays
                && easings.as_slice() == wanted.easings
                && is_playing(playing, wanted)
        }
        _ => false,
    }
}

fn is_playing(list: &[Longhand], wanted: &Animation) -> bool {
    match list {
        [
            Longhand::List(ListName::AnimationCount, ListValue::Counts(counts)),
            Longhand::List(ListName::AnimationDirection, ListValue::Directions(directions)),
            Longhand::List(ListName::AnimationFill, ListValue::Fills(fills)),
            Longhand::List(ListName::AnimationPlayState, ListValue::States(states)),
        ] => {
            counts.as_slice() == wanted.counts
                && directions.as_slice() == wanted.directions
                && fills.as_slice() == wanted.fills
                && states.as_slice() == wanted.states
        }
        _ => false,
    }
}

#[test]
fn animations(rt: HostRuntime) {
    for row in &ANIMATIONS {
        let Ok(list) = longhands(&rt, KnownName::Animation, row.text) else {
            assert!(rt; false);
            return;
        };
        assert!(rt; is_animation(list.as_slice(), row));
    }
}

/// Whether the lists from one number to the next are initial, and no others are given.
fn gives_initial(
    rt: &HostRuntime,
    name: KnownName,
    text: &str,
    lists: &[(&str, KnownName)],
) -> bool {
    let Ok(list) = longhands(rt, name, text) else {
        return false;
    };
    for (longhand, (_, name)) in list.iter().zip(lists) {
        match (longhand, name) {
            (Longhand::List(n, ListValue::Initial), KnownName::List(wanted)) => {
                if *n != *wanted {
                    return false;
                }
            }
            _ => return false,
        }
    }
    list.len() == lists.len()
}

#[test]
fn initial_lists(rt: HostRuntime) {
    assert!(rt; gives_initial(&rt, KnownName::Transition, "initial", &NAMES[24..28]));
    assert!(rt; gives_initial(&rt, KnownName::Animation, "Unset", &NAMES[28..36]));
}

/// Texts that are no value of `transition`, and why.
const TRANSITION_FAULTS: [(&str, ValueFault); 26] = [
    ("", ValueFault::Unsupported),
    ("1s,", ValueFault::Unsupported),
    (",", ValueFault::Unsupported),
    ("1s 2s 3s", ValueFault::Unsupported),
    ("-1s", ValueFault::Unsupported),
    ("-1s 2s", ValueFault::Unsupported),
    ("width height", ValueFault::Unsupported),
    ("linear ease ease", ValueFault::Unsupported),
    ("none none", ValueFault::Unsupported),
    ("none, 1s", ValueFault::Unsupported),
    ("1s, none", ValueFault::Unsupported),
    ("inherit", ValueFault::Unsupported),
    ("1s initial", ValueFault::Unsupported),
    ("1s, unset", ValueFault::Unsupported),
    ("steps(2) steps(3)", ValueFault::Unsupported),
    ("steps(2", ValueFault::Unsupported),
    ("1s 1", ValueFault::Unsupported),
    ("1s (", ValueFault::Unsupported),
    ("1000000001s -1s width 5vh", ValueFault::Unsupported),
    ("1000000001s", ValueFault::Bound),
    ("1s -1000000001s", ValueFault::Bound),
    ("steps(1000001)", ValueFault::Bound),
    ("cubic-bezier(0, 11, 0, 0)", ValueFault::Bound),
    (
        "a,a,a,a,a,a,a,a,a,a,a,a,a,a,a,a,a,a,a,a,a,a,a,a,a,a,a,a,a,a,a,a,a",
        ValueFault::BoundItems,
    ),
    (
        "a,a,a,a,a,a,a,a,a,a,a,a,a,a,a,a,a,a,a,a,a,a,a,a,a,a,a,a,a,a,a,a,none",
        ValueFault::Unsupported,
    ),
    (
        "a,a,a,a,a,a,a,a,a,a,a,a,a,a,a,a,a,a,a,a,a,a,a,a,a,a,a,a,a,a,a,a,1000000001s",
        ValueFault::BoundItems,
    ),
];

/// Texts that are no value of `animation`, and why.
const ANIMATION_FAULTS: [(&str, ValueFault); 14] = [
    ("", ValueFault::Unsupported),
    ("a b", ValueFault::Unsupported),
    ("none none none", ValueFault::Unsupported),
    ("1 2", ValueFault::Unsupported),
    ("-1", ValueFault::Unsupported),
    ("1s 2s 3s", ValueFault::Unsupported),
    ("-1s", ValueFault::Unsupported),
    ("inherit", ValueFault::Unsupported),
    ("a unset", ValueFault::Unsupported),
    ("'a'", ValueFault::Unsupported),
    ("1000001", ValueFault::Bound),
    ("1000000001s", ValueFault::Bound),
    (
        "a,a,a,a,a,a,a,a,a,a,a,a,a,a,a,a,a,a,a,a,a,a,a,a,a,a,a,a,a,a,a,a,a",
        ValueFault::BoundItems,
    ),
    ("1 2, 1000001", ValueFault::Unsupported),
];

#[test]
fn list_faults(rt: HostRuntime) {
    for (text, wanted) in TRANSITION_FAULTS {
        assert!(rt; fault(&rt, KnownName::Transition, text) == Some(wanted));
    }
    for (text, wanted) in ANIMATION_FAULTS {
        assert!(rt; fault(&rt, KnownName::Animation, text) == Some(wanted));
    }
}
