//! Colours by name and in their other forms, typed from CSS Color 4.

use crate::reading::declared;
use fix_num::Fix;
use token_parts::ValueFault;
use value_types::{Declared, PropertyId};

const ONE: i64 = 1_000_000;

/// Texts, and the channels and alpha that they spell.
const COLORS: [(&str, u8, u8, u8, i64); 25] = [
    ("black", 0, 0, 0, ONE),
    ("silver", 192, 192, 192, ONE),
    ("gray", 128, 128, 128, ONE),
    ("white", 255, 255, 255, ONE),
    ("maroon", 128, 0, 0, ONE),
    ("red", 255, 0, 0, ONE),
    ("purple", 128, 0, 128, ONE),
    ("fuchsia", 255, 0, 255, ONE),
    ("green", 0, 128, 0, ONE),
    ("lime", 0, 255, 0, ONE),
    ("olive", 128, 128, 0, ONE),
    ("yellow", 255, 255, 0, ONE),
    ("navy", 0, 0, 128, ONE),
    ("blue", 0, 0, 255, ONE),
    ("teal", 0, 128, 128, ONE),
    ("aqua", 0, 255, 255, ONE),
    ("orange", 255, 165, 0, ONE),
    ("Transparent", 0, 0, 0, 0),
    ("#F0a", 255, 0, 170, ONE),
    ("#f0A8", 255, 0, 170, 533_333),
    ("#ff000a", 255, 0, 10, ONE),
    ("#ff000080", 255, 0, 0, 501_961),
    ("RGB(+1, 2,3)", 1, 2, 3, ONE),
    ("rgba(1,2,3,.5)", 1, 2, 3, 500_000),
    ("rgb(255, 0, 0, 0.25)", 255, 0, 0, 250_000),
];

#[test]
fn colors(rt: HostRuntime) {
    for (text, r, g, b, a) in COLORS {
        let wanted = Declared::Color { r, g, b, a: Fix(a) };
        assert!(rt; declared(&rt, PropertyId::Color, text) == Ok(wanted));
    }
}

#[test]
fn no_colors(rt: HostRuntime) {
    for text in [
        "#f00fa",
        "#ggg",
        "rgb(1, 2, 256)",
        "rgb(1, -1, 2)",
        "rgb(1, 2)",
        "rgb(1 2 3)",
        "rgb(1.0, 2, 3)",
        "rgb(1, 2, 3, 1.1)",
        "rgb(1, 2, 3, 50%)",
        "hsl(1, 2%, 3%)",
        "grey",
    ] {
        let found = declared(&rt, PropertyId::BackgroundColor, text);
        assert!(rt; found == Err(ValueFault::Unsupported));
    }
}
