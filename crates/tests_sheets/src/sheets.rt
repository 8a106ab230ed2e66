//! Style sheets and style attributes from their texts.

ghost use Rattle.std.specs.Prelude.{◌≤◌, length};

use fix_num::{Bill, Fix};
use sheet_rules::CssFault::{BadToken, Bound, UnsupportedRule, UnsupportedValue};
use sheet_rules::{
    BoundName, CssFault, Declaration, SelectorPlace, Sheets, read_sheet, read_style,
};
use shorthand_text::{KnownName, Longhand};
use std::alloc::{AllocError, Global};
use std::test::Fail;
use timing_types::{Easing, Jump};
use value_types::{Declared, Frame, ListName, PropertyId};

const HEIGHT: KnownName = KnownName::Property(PropertyId::Height);

const WIDTH: KnownName = KnownName::Property(PropertyId::Width);

const DELAY: KnownName = KnownName::List(ListName::TransitionDelay);

/// The first fault of each text that is no sheet.
const SHEET_FAULTS: [(&str, CssFault); 52] = [
    // A bad token, wherever it stands, before all else; the first of several.
    ("/* x", BadToken { at: 0 }),
    ("@media print { } \\", BadToken { at: 17 }),
    ("p { width: 1vh } \" \\", BadToken { at: 17 }),
    // A token that may not stand there.
    ("p { 1 }", BadToken { at: 4 }),
    ("p { : }", BadToken { at: 4 }),
    ("p { ( }", BadToken { at: 4 }),
    ("p { --a() }", BadToken { at: 4 }),
    ("p { width 1px }", BadToken { at: 10 }),
    ("p { width/**/{ }", BadToken { at: 13 }),
    ("@keyframes k { to { { } }", BadToken { at: 20 }),
    // Brackets that don't pair, also in the value of an unknown property.
    ("p { x: (1 }", BadToken { at: 10 }),
    ("p { x: f(1 }", BadToken { at: 11 }),
    ("p { x: [1) }", BadToken { at: 9 }),
    ("p { x: (1] }", BadToken { at: 9 }),
    ("p { x: 1] }", BadToken { at: 8 }),
    ("p { x: 1) }", BadToken { at: 8 }),
    ("p { x: { } }", BadToken { at: 7 }),
    ("p { x: ({ }", BadToken { at: 8 }),
    ("p { width: 5vh) }", BadToken { at: 14 }),
    ("p { width: (1px }", BadToken { at: 16 }),
    ("p { x: (1", BadToken { at: 9 }),
    // The end of the text, where a `{` or a `}` is wanted.
    ("p", BadToken { at: 1 }),
    ("p { width: 1px", BadToken { at: 14 }),
    ("p { width", BadToken { at: 9 }),
    ("p { } }", BadToken { at: 7 }),
    ("p { } a:hover", BadToken { at: 13 }),
    ("@keyframes", BadToken { at: 10 }),
    ("@keyframes k { ", BadToken { at: 15 }),
    ("@keyframes k { 50", BadToken { at: 17 }),
    ("@keyframes k { to { }", BadToken { at: 21 }),
    // Rules that are of no form of this profile.
    ("@media", UnsupportedRule { at: 0 }),
    (" @font-face { width: 5vh }", UnsupportedRule { at: 1 }),
    ("p { } a:hover { }", UnsupportedRule { at: 6 }),
    ("a @media { }", UnsupportedRule { at: 0 }),
    ("a } b { }", UnsupportedRule { at: 0 }),
    (" { }", UnsupportedRule { at: 1 }),
    ("@keyframes { }", UnsupportedRule { at: 0 }),
    ("p { } @keyframes a b { }", UnsupportedRule { at: 6 }),
    ("@keyframes \"a\" { }", UnsupportedRule { at: 0 }),
    ("@keyframes k { { } }", UnsupportedRule { at: 15 }),
    ("@keyframes k { 50 { } }", UnsupportedRule { at: 15 }),
    ("@keyframes k { 100.1% { } }", UnsupportedRule { at: 15 }),
    ("@keyframes k { -1% { } }", UnsupportedRule { at: 15 }),
    ("@keyframes k { to, { } }", UnsupportedRule { at: 15 }),
    ("@keyframes k { from to { } }", UnsupportedRule { at: 15 }),
    (
        "@keyframes k { to { } 10%, all { } }",
        UnsupportedRule { at: 22 },
    ),
    // Values, told at the name.
    (
        "p { width: 1px; height: 2vh }",
        UnsupportedValue {
            name: HEIGHT,
            at: 16,
        },
    ),
    ("p { WIDTH : }", UnsupportedValue { name: WIDTH, at: 4 }),
    (
        "p { width: 1px !foo; x: ) }",
        UnsupportedValue { name: WIDTH, at: 4 },
    ),
    (
        "@keyframes k { to { width: !important 1px } }",
        UnsupportedValue {
            name: WIDTH,
            at: 20,
        },
    ),
    (
        "p { Transition-Delay: 1px }",
        UnsupportedValue { name: DELAY, at: 4 },
    ),
    (
        "p { z-index: 2147483648; width: 5vh }",
        Bound {
            what: BoundName::Value,
            at: 4,
        },
    ),
];

/// The first fault of each text that is no style attribute.
const STYLE_FAULTS: [(&str, CssFault); 13] = [
    ("}", BadToken { at: 0 }),
    ("{", BadToken { at: 0 }),
    ("width", BadToken { at: 5 }),
    ("width: 1px }", BadToken { at: 11 }),
    ("width: (1px", BadToken { at: 11 }),
    ("width: (1px }", BadToken { at: 12 }),
    ("x: \n; 1", BadToken { at: 6 }),
    ("width: 5vh }", UnsupportedValue { name: WIDTH, at: 0 }),
    ("x: !; width: !", UnsupportedValue { name: WIDTH, at: 6 }),
    (
        "width: 1px !important 2px",
        UnsupportedValue { name: WIDTH, at: 0 },
    ),
    (
        "opacity: 2; z-index: 2147483648",
        Bound {
            what: BoundName::Value,
            at: 12,
        },
    ),
    (
        "transition-timing-function: steps(1000001)",
        Bound {
            what: BoundName::Value,
            at: 0,
        },
    ),
    (
        "transition-delay: -1000000001s",
        Bound {
            what: BoundName::Value,
            at: 0,
        },
    ),
];

/// The limits of sheets: what stands first, what is repeated and how often, what stands last, and the fault.
const LIMITS: [(&str, &str, usize, &str, Option<CssFault>); 20] = [
    ("", "a{}", 4096, "", None),
    (
        "",
        "a{}",
        4096,
        "@media",
        Some(Bound {
            what: BoundName::Rules,
            at: 12288,
        }),
    ),
    ("", "a{}", 4095, " @keyframes k{} ", None),
    (
        "",
        "a{}",
        4096,
        " @keyframes",
        Some(Bound {
            what: BoundName::Rules,
            at: 12289,
        }),
    ),
    ("p{", "top:0;", 64, "}", None),
    (
        "p{",
        "top:0;",
        64,
        "top}",
        Some(Bound {
            what: BoundName::Declarations,
            at: 386,
        }),
    ),
    (
        "p{",
        "x:0;",
        64,
        "x:)}",
        Some(Bound {
            what: BoundName::Declarations,
            at: 258,
        }),
    ),
    (
        "@keyframes k{to{",
        "all:0;",
        64,
        "all:0}}",
        Some(Bound {
            what: BoundName::Declarations,
            at: 400,
        }),
    ),
    ("p{transition-delay:0s", ",0s", 31, "}", None),
    (
        "p{transition-delay:0s",
        ",0s",
        32,
        "}",
        Some(Bound {
            what: BoundName::Items,
            at: 2,
        }),
    ),
    (
        "p{transition-delay:1000000001s",
        ",0s",
        32,
        "}",
        Some(Bound {
            what: BoundName::Items,
            at: 2,
        }),
    ),
    ("*", ",*", 31, "{}", None),
    (
        "a{}*",
        ",*",
        32,
        "{}",
        Some(Bound {
            what: BoundName::Selectors,
            at: 3,
        }),
    ),
    (
        "a a a a a a a a a a a a a a a a a",
        ",*",
        32,
        "{}",
        Some(Bound {
            what: BoundName::Selectors,
            at: 0,
        }),
    ),
    ("*", " *", 15, "{}", None),
    (
        "a{} *",
        " *",
        16,
        "{}",
        Some(Bound {
            what: BoundName::Compounds,
            at: 4,
        }),
    ),
    ("@keyframes k{to", ",to", 63, "{}}", None),
    (
        "@keyframes k{to",
        ",to",
        64,
        "{}}",
        Some(Bound {
            what: BoundName::Offsets,
            at: 13,
        }),
    ),
    ("@keyframes k{", "to{}", 64, "}", None),
    (
        "@keyframes k{",
        "to{}",
        64,
        " from{width:5vh}}",
        Some(Bound {
            what: BoundName::Offsets,
            at: 270,
        }),
    ),
];

/// What is over a limit, and of no form besides.
const WORSE: [(&str, &str, usize, &str, CssFault); 3] = [
    ("*", ",*", 32, ",{}", UnsupportedRule { at: 0 }),
    (
        "@keyframes k{to",
        ",to",
        64,
        ",{}}",
        UnsupportedRule { at: 13 },
    ),
    (
        "p{transition-delay:1px",
        ",0s",
        32,
        "}",
        UnsupportedValue { name: DELAY, at: 2 },
    ),
];

/// The declarations of style attributes: property, value, importance and place.
const STYLES: [(&str, &[(PropertyId, Declared, bool, u32)]); 6] = [
    ("", &[]),
    (" ; ;", &[]),
    (
        "opacity: .5",
        &[(
            PropertyId::Opacity,
            Declared::Number(Fix(500_000)),
            false,
            0,
        )],
    ),
    (
        "OPACITY:1;;opacity : 0!Important",
        &[
            (
                PropertyId::Opacity,
                Declared::Number(Fix(1_000_000)),
                false,
                0,
            ),
            (PropertyId::Opacity, Declared::Number(Fix(0)), true, 1),
        ],
    ),
    (
        "x:(;)[];--y:f(:);opacity:0 ! important ;",
        &[(PropertyId::Opacity, Declared::Number(Fix(0)), true, 2)],
    ),
    (
        "x:;bottom:auto",
        &[(PropertyId::Bottom, Declared::Auto, false, 1)],
    ),
];

const OPAQUE: Declared = Declared::Number(Fix(1_000_000));

const CLEAR: Declared = Declared::Number(Fix(0));

/// The frames of sheets of one keyframes rule: offset, property, value and easing.
const FRAMES: [(&str, &[(i64, PropertyId, Declared, Option<Easing>)]); 7] = [
    ("@keyframes none { }", &[]),
    (
        "@KeyFrames k { TO { opacity: 0 } from { opacity: 1 } }",
        &[
            (0, PropertyId::Opacity, OPAQUE, None),
            (1_000_000_000, PropertyId::Opacity, CLEAR, None),
        ],
    ),
    (
        "@keyframes k{50%,from{opacity:0;bottom:auto}}",
        &[
            (0, PropertyId::Bottom, Declared::Auto, None),
            (0, PropertyId::Opacity, CLEAR, None),
            (500_000_000, PropertyId::Bottom, Declared::Auto, None),
            (500_000_000, PropertyId::Opacity, CLEAR, None),
        ],
    ),
    (
        "@keyframes k { 0% { opacity: 0 } from { opacity: 1; opacity: 0 !important } }",
        &[(0, PropertyId::Opacity, OPAQUE, None)],
    ),
    (
        "@keyframes k { to { opacity: 0; animation-timing-function: step-end, linear; animation-timing-function: linear !important } }",
        &[(
            1_000_000_000,
            PropertyId::Opacity,
            CLEAR,
            Some(Easing::Steps {
                count: 1,
                jump: Jump::End,
            }),
        )],
    ),
    (
        "@keyframes k { to { display: none; all: x; transition: x; animation: 1vh; transition-delay: x; animation-name: 1 } }",
        &[],
    ),
    (
        "@keyframes k { 33.3333333% { animation-timing-function: linear; opacity: 0; animation-timing-function: unset } }",
        &[(
            333_333_330,
            PropertyId::Opacity,
            CLEAR,
            Some(Easing::Cubic {
                x1: 250,
                y1: 100,
                x2: 250,
                y2: 1000,
            }),
        )],
    ),
];

fn is_declared(declaration: &Declaration, wanted: &(PropertyId, Declared, bool, u32)) -> bool {
    let parts = declaration.get();
    match &parts.longhand {
        Longhand::Property(p, value) => {
            *p == wanted.0
                && *value == wanted.1
                && parts.important == wanted.2
                && parts.place == wanted.3
        }
        Longhand::List(_, _) => false,
    }
}

fn is_frame(frame: &Frame, wanted: &(i64, PropertyId, Declared, Option<Easing>)) -> bool {
    frame.offset == Bill(wanted.0)
        && frame.property == wanted.1
        && frame.declared == wanted.2
        && frame.easing == wanted.3
}

fn repeated(
    alloc: Global,
    first: &str,
    part: &str,
    count: usize,
    last: &str,
) -> Result<String, AllocError> {
    let mut text = String::new(alloc);
    text.push_str(first)?;
    for _ in 0..count {
        text.push_str(part)?;
    }
    text.push_str(last)?;
    Ok(text)
}

#[test]
fn each_sheet_has_its_first_fault(rt: HostRuntime) {
    for (text, fault) in SHEET_FAULTS.iter() {
        assert!(rt; text.len() < 200);
        assert!(rt; read_sheet(rt.alloc(), text).err() == Some(*fault));
    }
}

#[test]
fn each_style_has_its_first_fault(rt: HostRuntime) {
    for (text, fault) in STYLE_FAULTS.iter() {
        assert!(rt; text.len() < 200);
        assert!(rt; read_style(rt.alloc(), text).err() == Some(*fault));
    }
}

#[test]
fn each_limit_is_told_one_past_it(rt: HostRuntime) -> Result<(), Fail> {
    for (first, part, count, last, fault) in LIMITS.iter() {
        let text = repeated(rt.alloc(), first, part, *count, last)?;
        assert!(rt; text.len() < 20_000);
        assert!(rt; read_sheet(rt.alloc(), text.as_str()).err() == *fault);
    }
    Ok(())
}

#[test]
fn what_is_of_no_form_comes_before_a_limit(rt: HostRuntime) -> Result<(), Fail> {
    for (first, part, count, last, fault) in WORSE.iter() {
        let text = repeated(rt.alloc(), first, part, *count, last)?;
        assert!(rt; text.len() < 20_000);
        assert!(rt; read_sheet(rt.alloc(), text.as_str()).err() == Some(*fault));
    }
    Ok(())
}

#[test]
fn each_style_declares(rt: HostRuntime) -> Result<(), Fail> {
    for (text, wanted) in STYLES.iter() {
        assert!(rt; text.len() < 200);
        let declarations = read_style(rt.alloc(), text)?;
        assert!(rt; declarations.len() == wanted.len());
        for (declaration, one) in declarations.iter().zip(wanted.iter()) {
            assert!(rt; is_declared(declaration, one));
            assert!(rt; is_declared(&declaration.copy(rt.alloc())?, one));
        }
    }
    Ok(())
}

#[test]
fn each_rule_has_its_frames(rt: HostRuntime) -> Result<(), Fail> {
    for (text, wanted) in FRAMES.iter() {
        assert!(rt; text.len() < 200);
        let sheet = read_sheet(rt.alloc(), text)?;
        assert!(rt; sheet.keyframes().len() == 1);
        let frames = sheet.keyframes()[0].frames.get().as_slice();
        assert!(rt; frames.len() == wanted.len());
        for (frame, one) in frames.iter().zip(wanted.iter()) {
            assert!(rt; is_frame(frame, one));
        }
    }
    Ok(())
}

#[test]
fn rules_have_places_among_all(rt: HostRuntime) -> Result<(), Fail> {
    let sheet = read_sheet(
        rt.alloc(),
        "a { } @keyframes k { } b, c { opacity: 0 } @keyframes k { to { top: auto } }",
    )?;
    let sheet = sheet.copy()?;
    assert!(rt; sheet.rules().len() == 2);
    assert!(rt; sheet.rules()[0].place == 0);
    assert!(rt; sheet.rules()[0].selectors.len() == 1);
    assert!(rt; sheet.rules()[0].declarations.len() == 0);
    assert!(rt; sheet.rules()[1].place == 2);
    assert!(rt; sheet.rules()[1].selectors.len() == 2);
    assert!(rt; sheet.rules()[1].declarations.len() == 1);
    assert!(rt; sheet.keyframes().len() == 2);
    assert!(rt; sheet.keyframes()[0].place == 1);
    assert!(rt; sheet.keyframes()[1].place == 3);
    assert!(rt; sheet.keyframes()[1].name.as_bytes() == b"k".as_slice());
    Ok(())
}

fn rule_count(sheets: &Sheets, k: u32) -> Option<usize>
    requires low { 1 ≤ k }
    requires high { k ≤ 16 }
{
    match sheets.get(k) {
        None => None,
        Some(sheet) => Some(sheet.rules().len()),
    }
}

#[test]
fn sheets_keep_their_places(rt: HostRuntime) -> Result<(), Fail> {
    let mut sheets = Sheets::empty();
    sheets.put(16, Some(read_sheet(rt.alloc(), "a { } b { }")?));
    sheets.put(1, Some(read_sheet(rt.alloc(), "")?));
    let old = sheets.copy()?;
    sheets.put(16, None);
    for k in 1..=16 {
        let wanted = if k == 1 { Some(0) } else { None };
        assert!(rt; rule_count(&sheets, k) == wanted);
        assert!(rt; rule_count(&old, k) == if k == 16 { Some(2) } else { wanted });
    }
    Ok(())
}

fn is_at(places: &[SelectorPlace], wanted: &[(usize, usize)]) -> bool {
    places.len() == wanted.len()
        && places.iter().zip(wanted.iter()).all(|(place, one)| place.rule == one.0
            && place.selector == one.1)
}

#[test]
fn selectors_stand_under_their_keys(rt: HostRuntime) -> Result<(), Fail> {
    let sheet = read_sheet(
        rt.alloc(),
        "#a.b, p.c { } .c.b, *, #b#a { } q #a { } p > p { }",
    )?;
    assert!(rt; is_at(sheet.by_id(b"a"), &[(0, 0), (2, 0)]));
    assert!(rt; is_at(sheet.by_id(b"b"), &[(1, 2)]));
    assert!(rt; is_at(sheet.by_class(b"c"), &[(0, 1), (1, 0)]));
    assert!(rt; is_at(sheet.by_class(b"b"), &[]));
    assert!(rt; is_at(sheet.by_type(b"p"), &[(3, 0)]));
    assert!(rt; is_at(sheet.by_type(b"q"), &[]));
    assert!(rt; is_at(sheet.for_any(), &[(1, 1)]));
    Ok(())
}

#[test]
fn the_last_keyframes_of_a_name_win(rt: HostRuntime) -> Result<(), Fail> {
    let sheet = read_sheet(
        rt.alloc(),
        "@keyframes k { } @keyframes j { } @keyframes k { to { top: auto } } @keyframes K { }",
    )?;
    let place = sheet.keyframes_named(b"k").map(|rule| rule.place);
    assert!(rt; place == Some(2));
    assert!(rt; sheet.keyframes_named(b"i").is_none());
    let mut sheets = Sheets::empty();
    sheets.put(3, Some(sheet));
    sheets.put(
        9,
        Some(read_sheet(rt.alloc(), "a { } b { } c { } d { } @keyframes j { }")?),
    );
    let place = sheets.keyframes_named(b"k").map(|rule| rule.place);
    assert!(rt; place == Some(2));
    let place = sheets.keyframes_named(b"j").map(|rule| rule.place);
    assert!(rt; place == Some(4));
    assert!(rt; sheets.keyframes_named(b"i").is_none());
    Ok(())
}
