//! Equality of what contracts see.

use crate::declared::{Declared, Size};
use crate::frame::Frame;
use crate::shorthand::PropertyItem;
use timing_types::Same;

impl Same for PropertyItem {
    fn is_same(&self, other: &PropertyItem) -> bool {
        self == other
    }
}

impl Same for Size {
    fn is_same(&self, other: &Size) -> bool {
        self == other
    }
}

impl Same for Declared {
    fn is_same(&self, other: &Declared) -> bool {
        match (*self, *other) {
            (Declared::Inherit, Declared::Inherit)
            | (Declared::Initial, Declared::Initial)
            | (Declared::Auto, Declared::Auto)
            | (Declared::Absent, Declared::Absent) => true,
            (Declared::Number(m), Declared::Number(n)) => m == n,
            (Declared::Length(x), Declared::Length(y)) => x == y,
            (Declared::Int(i), Declared::Int(j)) => i == j,
            (
                Declared::Color { r, g, b, a },
                Declared::Color {
                    r: red,
                    g: green,
                    b: blue,
                    a: alpha,
                },
            ) => r == red && g == green && b == blue && a == alpha,
            (Declared::Angle(m), Declared::Angle(n)) => m == n,
            (Declared::Pair { x, y }, Declared::Pair { x: v, y: w }) => x.is_same(&v)
                && y.is_same(&w),
            (Declared::Visible(v), Declared::Visible(w)) => v == w,
            (Declared::Display(d), Declared::Display(e)) => d == e,
            _ => false,
        }
    }
}

impl Same for Frame {
    fn is_same(&self, other: &Frame) -> bool {
        self.offset == other.offset
            && self.property == other.property
            && self.declared.is_same(&other.declared)
            && self.easing.is_same(&other.easing)
    }
}
