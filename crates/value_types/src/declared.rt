//! Declared values.

use crate::value::{Display, Visibility};
use fix_num::Fix;

/// What a declaration gives a property (CSS Cascade 5, "declared value"): a keyword of the cascade, or a
/// specified value, whose lengths keep their units.
#[derive(Clone, Copy, Debug, PartialEq, Eq)]
pub enum Declared {
    Inherit,
    Initial,
    Number(Fix),
    Length(Size),
    Auto,
    Int(i32),
    /// Channels of sRGB, 0 to 255, and the alpha, 0 to a million (CSS Color 4, "sRGB Colors").
    Color { r: u8, g: u8, b: u8, a: Fix },
    Angle(Fix),
    /// The two parts of `translate`.
    Pair { x: Size, y: Size },
    /// The keyword `none` of `rotate` and `translate`.
    Absent,
    Visible(Visibility),
    Display(Display),
}

/// A length or a percent as it is written: millionths of a unit (CSS Values 3, "Percentages: the
/// <percentage> type", "Distance Units: the <length> type").
#[derive(Clone, Copy, Debug, PartialEq, Eq)]
pub struct Size {
    pub amount: Fix,
    pub unit: Unit,
}

/// The unit of a length, or percent.
#[derive(Clone, Copy, Debug, PartialEq, Eq)]
pub enum Unit {
    Px,
    Em,
    Rem,
    Percent,
}
