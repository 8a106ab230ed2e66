//! The table of properties, typed from the "Value", "Initial" and "Inherited" lines of their definitions.

use crate::reading::declared;
use fix_num::Fix;
use token_parts::ValueFault;
use value_types::{
    Declared, Display, PropertyId, Shorthand, Size, Unit, Value, ValueRange, Visibility,
    initial_value, is_inherited, keeps_percent, longhands, range_of,
};

/// A row: the property's name, whether it is inherited, its range and initial value, a text that is accepted with
/// what it declares, and one that is refused.
struct Row {
    name: &'static str,
    inherited: bool,
    range: ValueRange,
    initial: Value,
    accepted: &'static str,
    declared: Declared,
    refused: &'static str,
}

/// The properties by number.
const ROWS: [Row; 24] = [
    Row {
        name: "background-color",
        inherited: false,
        range: ValueRange::Nothing,
        initial: Value::Color {
            r: 0,
            g: 0,
            b: 0,
            a: Fix(0),
        },
        accepted: "#102030",
        declared: Declared::Color {
            r: 16,
            g: 32,
            b: 48,
            a: Fix(1_000_000),
        },
        refused: "1px",
    },
    Row {
        name: "bottom",
        inherited: false,
        range: ValueRange::All,
        initial: Value::Auto,
        accepted: "-1px",
        declared: Declared::Length(Size {
            amount: Fix(-1_000_000),
            unit: Unit::Px,
        }),
        refused: "1",
    },
    Row {
        name: "color",
        inherited: true,
        range: ValueRange::Nothing,
        initial: Value::Color {
            r: 0,
            g: 0,
            b: 0,
            a: Fix(1_000_000),
        },
        accepted: "Teal",
        declared: Declared::Color {
            r: 0,
            g: 128,
            b: 128,
            a: Fix(1_000_000),
        },
        refused: "tael",
    },
    Row {
        name: "display",
        inherited: false,
        range: ValueRange::Nothing,
        initial: Value::Display(Display::Inline),
        accepted: "inline-block",
        declared: Declared::Display(Display::InlineBlock),
        refused: "run-in",
    },
    Row {
        name: "font-size",
        inherited: true,
        range: ValueRange::NotNegative,
        initial: Value::Length {
            px: Fix(16_000_000),
            pct: Fix(0),
        },
        accepted: "2em",
        declared: Declared::Length(Size {
            amount: Fix(2_000_000),
            unit: Unit::Em,
        }),
        refused: "-1px",
    },
    Row {
        name: "height",
        inherited: false,
        range: ValueRange::NotNegative,
        initial: Value::Auto,
        accepted: "0",
        declared: Declared::Length(Size {
            amount: Fix(0),
            unit: Unit::Px,
        }),
        refused: "-1px",
    },
    Row {
        name: "left",
        inherited: false,
        range: ValueRange::All,
        initial: Value::Auto,
        accepted: "AUTO",
        declared: Declared::Auto,
        refused: "none",
    },
    Row {
        name: "letter-spacing",
        inherited: true,
        range: ValueRange::All,
        initial: Value::Length {
            px: Fix(0),
            pct: Fix(0),
        },
        accepted: "normal",
        declared: Declared::Length(Size {
            amount: Fix(0),
            unit: Unit::Px,
        }),
        refused: "1%",
    },
    Row {
        name: "margin-bottom",
        inherited: false,
        range: ValueRange::All,
        initial: Value::Length {
            px: Fix(0),
            pct: Fix(0),
        },
        accepted: "-25%",
        declared: Declared::Length(Size {
            amount: Fix(-25_000_000),
            unit: Unit::Percent,
        }),
        refused: "1vh",
    },
    Row {
        name: "margin-left",
        inherited: false,
        range: ValueRange::All,
        initial: Value::Length {
            px: Fix(0),
            pct: Fix(0),
        },
        accepted: "auto",
        declared: Declared::Auto,
        refused: "1px 2px",
    },
    Row {
        name: "margin-right",
        inherited: false,
        range: ValueRange::All,
        initial: Value::Length {
            px: Fix(0),
            pct: Fix(0),
        },
        accepted: "1rem",
        declared: Declared::Length(Size {
            amount: Fix(1_000_000),
            unit: Unit::Rem,
        }),
        refused: "inherit",
    },
    Row {
        name: "margin-top",
        inherited: false,
        range: ValueRange::All,
        initial: Value::Length {
            px: Fix(0),
            pct: Fix(0),
        },
        accepted: ".5px",
        declared: Declared::Length(Size {
            amount: Fix(500_000),
            unit: Unit::Px,
        }),
        refused: "1",
    },
    Row {
        name: "opacity",
        inherited: false,
        range: ValueRange::ZeroToOne,
        initial: Value::Number(Fix(1_000_000)),
        accepted: "50%",
        declared: Declared::Number(Fix(500_000)),
        refused: "1px",
    },
    Row {
        name: "padding-bottom",
        inherited: false,
        range: ValueRange::NotNegative,
        initial: Value::Length {
            px: Fix(0),
            pct: Fix(0),
        },
        accepted: "1px",
        declared: Declared::Length(Size {
            amount: Fix(1_000_000),
            unit: Unit::Px,
        }),
        refused: "-1px",
    },
    Row {
        name: "padding-left",
        inherited: false,
        range: ValueRange::NotNegative,
        initial: Value::Length {
            px: Fix(0),
            pct: Fix(0),
        },
        accepted: "10%",
        declared: Declared::Length(Size {
            amount: Fix(10_000_000),
            unit: Unit::Percent,
        }),
        refused: "auto",
    },
    Row {
        name: "padding-right",
        inherited: false,
        range: ValueRange::NotNegative,
        initial: Value::Length {
            px: Fix(0),
            pct: Fix(0),
        },
        accepted: "1em",
        declared: Declared::Length(Size {
            amount: Fix(1_000_000),
            unit: Unit::Em,
        }),
        refused: "-1%",
    },
    Row {
        name: "padding-top",
        inherited: false,
        range: ValueRange::NotNegative,
        initial: Value::Length {
            px: Fix(0),
            pct: Fix(0),
        },
        accepted: "0",
        declared: Declared::Length(Size {
            amount: Fix(0),
            unit: Unit::Px,
        }),
        refused: "1",
    },
    Row {
        name: "right",
        inherited: false,
        range: ValueRange::All,
        initial: Value::Auto,
        accepted: "-1em",
        declared: Declared::Length(Size {
            amount: Fix(-1_000_000),
            unit: Unit::Em,
        }),
        refused: "normal",
    },
    Row {
        name: "rotate",
        inherited: false,
        range: ValueRange::All,
        initial: Value::Absent,
        accepted: "-90deg",
        declared: Declared::Angle(Fix(-90_000_000)),
        refused: "0",
    },
    Row {
        name: "top",
        inherited: false,
        range: ValueRange::All,
        initial: Value::Auto,
        accepted: "50%",
        declared: Declared::Length(Size {
            amount: Fix(50_000_000),
            unit: Unit::Percent,
        }),
        refused: "1s",
    },
    Row {
        name: "translate",
        inherited: false,
        range: ValueRange::All,
        initial: Value::Absent,
        accepted: "none",
        declared: Declared::Absent,
        refused: "1px, 2px",
    },
    Row {
        name: "visibility",
        inherited: true,
        range: ValueRange::Nothing,
        initial: Value::Visible(Visibility::Visible),
        accepted: "Collapse",
        declared: Declared::Visible(Visibility::Collapse),
        refused: "auto",
    },
    Row {
        name: "width",
        inherited: false,
        range: ValueRange::NotNegative,
        initial: Value::Auto,
        accepted: "1px",
        declared: Declared::Length(Size {
            amount: Fix(1_000_000),
            unit: Unit::Px,
        }),
        refused: "-0.000001px",
    },
    Row {
        name: "z-index",
        inherited: false,
        range: ValueRange::All,
        initial: Value::Auto,
        accepted: "-7",
        declared: Declared::Int(-7),
        refused: "1.0",
    },
];

fn is_row(p: PropertyId, row: &Row) -> bool {
    p.name() == row.name
        && PropertyId::by_name(row.name) == Some(p)
        && is_inherited(p) == row.inherited
        && range_of(p) == row.range
        && initial_value(p) == row.initial
}

fn reads_row(rt: &HostRuntime, p: PropertyId, row: &Row) -> bool {
    declared(rt, p, row.accepted) == Ok(row.declared)
        && declared(rt, p, row.refused) == Err(ValueFault::Unsupported)
}

fn is_at(rt: &HostRuntime, n: u32, row: &Row) -> bool {
    match PropertyId::from_number(n) {
        None => false,
        Some(p) => p.number() == n && is_row(p, row) && reads_row(rt, p, row),
    }
}

#[test]
fn rows_of_the_table(rt: HostRuntime) {
    for (n, row) in ROWS.iter().enumerate() {
        assert!(rt; is_at(&rt, n as u32, row));
    }
}

#[test]
fn no_other_property(rt: HostRuntime) {
    assert!(rt; PropertyId::by_name("Z-Index") == Some(PropertyId::ZIndex));
    assert!(rt; PropertyId::by_name("margin") == None);
    assert!(rt; PropertyId::from_number(24) == None);
}

#[test]
fn keywords_of_the_cascade(rt: HostRuntime) {
    for p in PropertyId::ALL {
        let inherited = is_inherited(p);
        assert!(rt; declared(&rt, p, "Initial") == Ok(Declared::Initial));
        let unset = if inherited {
            Declared::Inherit
        } else {
            Declared::Initial
        };
        assert!(rt; declared(&rt, p, "unset") == Ok(unset));
        assert!(rt; declared(&rt, p, "inherit").is_ok() == inherited);
    }
}

/// The properties whose percents stay percents when they are computed.
const PERCENTS: [&str; 15] = [
    "bottom",
    "height",
    "left",
    "margin-bottom",
    "margin-left",
    "margin-right",
    "margin-top",
    "padding-bottom",
    "padding-left",
    "padding-right",
    "padding-top",
    "right",
    "top",
    "translate",
    "width",
];

#[test]
fn percents_that_stay(rt: HostRuntime) {
    for p in PropertyId::ALL {
        assert!(rt; keeps_percent(p) == PERCENTS.iter().any(|name| *name == p.name()));
    }
}

const SHORTHANDS: [(Shorthand, &[PropertyId]); 4] = [
    (Shorthand::Background, &[PropertyId::BackgroundColor]),
    (
        Shorthand::Inset,
        &[
            PropertyId::Bottom,
            PropertyId::Left,
            PropertyId::Right,
            PropertyId::Top,
        ],
    ),
    (
        Shorthand::Margin,
        &[
            PropertyId::MarginBottom,
            PropertyId::MarginLeft,
            PropertyId::MarginRight,
            PropertyId::MarginTop,
        ],
    ),
    (
        Shorthand::Padding,
        &[
            PropertyId::PaddingBottom,
            PropertyId::PaddingLeft,
            PropertyId::PaddingRight,
            PropertyId::PaddingTop,
        ],
    ),
];

#[test]
fn properties_of_shorthands(rt: HostRuntime) {
    for (shorthand, properties) in SHORTHANDS {
        assert!(rt; longhands(shorthand) == properties);
    }
    assert!(rt; longhands(Shorthand::All) == PropertyId::ALL.as_slice());
}
