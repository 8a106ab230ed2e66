//! The table of properties: which values each takes, and from which it starts.

ghost use Rattle.std.specs.Prelude.{◌≡◌, pos};
ghost use Rattle.value_types.specs.Table.{initial_value, is_inherited, keeps_percent, range_of, takes};

use crate::property::PropertyId;
use crate::range::ValueRange;
use crate::value::{Display, Value, Visibility};
use fix_num::Fix;

/// A kind of value that a row of the property table names.
#[derive(Clone, Copy, Debug, PartialEq, Eq)]
pub enum ValueKind {
    Number,
    Length,
    Percent,
    Auto,
    Normal,
    Int,
    Color,
    Angle,
    Pair,
    /// The keyword `none` of `rotate` and `translate`.
    Absent,
    Visibility,
    Display,
}

/// Whether the property's row names values of this kind.
pub fn takes(p: PropertyId, kind: ValueKind) -> bool
    ensures { result ≡ takes p kind }
{
    match p {
        PropertyId::BackgroundColor | PropertyId::Color => kind == ValueKind::Color,
        PropertyId::Display => kind == ValueKind::Display,
        PropertyId::LetterSpacing => matches!(kind, ValueKind::Length | ValueKind::Normal),
        PropertyId::Opacity => matches!(kind, ValueKind::Number | ValueKind::Percent),
        PropertyId::Rotate => matches!(kind, ValueKind::Absent | ValueKind::Angle),
        PropertyId::Translate => matches!(kind, ValueKind::Absent | ValueKind::Pair),
        PropertyId::Visibility => kind == ValueKind::Visibility,
        PropertyId::ZIndex => matches!(kind, ValueKind::Int | ValueKind::Auto),
        PropertyId::FontSize
        | PropertyId::PaddingBottom
        | PropertyId::PaddingLeft
        | PropertyId::PaddingRight
        | PropertyId::PaddingTop => matches!(kind, ValueKind::Length | ValueKind::Percent),
        _ => matches!(
            kind,
            ValueKind::Length | ValueKind::Percent | ValueKind::Auto
        ),
    }
}

/// Whether an element takes its parent's value where no declaration gives one (CSS Cascade 5, "Inheritance").
pub fn is_inherited(p: PropertyId) -> bool
    ensures { result ≡ is_inherited p }
{
    matches!(
        p,
        PropertyId::Color
            | PropertyId::FontSize
            | PropertyId::LetterSpacing
            | PropertyId::Visibility
    )
}

/// Whether a percent stays one in the computed value: that of `font-size` is of the parent's and that of
/// `opacity` is a number.
pub fn keeps_percent(p: PropertyId) -> bool
    ensures { result ≡ keeps_percent p }
{
    match p {
        PropertyId::FontSize | PropertyId::Opacity => false,
        PropertyId::Translate => true,
        _ => takes(p, ValueKind::Percent),
    }
}

/// The range of the property's numbers.
pub fn range_of(p: PropertyId) -> ValueRange
    ensures { result ≡ range_of p }
{
    match p {
        PropertyId::BackgroundColor
        | PropertyId::Color
        | PropertyId::Display
        | PropertyId::Visibility => ValueRange::Nothing,
        PropertyId::FontSize
        | PropertyId::Height
        | PropertyId::PaddingBottom
        | PropertyId::PaddingLeft
        | PropertyId::PaddingRight
        | PropertyId::PaddingTop
        | PropertyId::Width => ValueRange::NotNegative,
        PropertyId::Opacity => ValueRange::ZeroToOne,
        _ => ValueRange::All,
    }
}

/// The initial value of the property, as computed.
pub fn initial_value(p: PropertyId) -> Value
    ensures { result ≡ initial_value p }
{
    match p {
        PropertyId::BackgroundColor => black(Fix(0)),
        PropertyId::Color => black(Fix::ONE),
        PropertyId::Display => Value::Display(Display::Inline),
        PropertyId::FontSize => pixels(16_000_000),
        PropertyId::LetterSpacing
        | PropertyId::MarginBottom
        | PropertyId::MarginLeft
        | PropertyId::MarginRight
        | PropertyId::MarginTop
        | PropertyId::PaddingBottom
        | PropertyId::PaddingLeft
        | PropertyId::PaddingRight
        | PropertyId::PaddingTop => pixels(0),
        PropertyId::Opacity => Value::Number(Fix::ONE),
        PropertyId::Rotate | PropertyId::Translate => Value::Absent,
        PropertyId::Visibility => Value::Visible(Visibility::Visible),
        _ => Value::Auto,
    }
}

fn black(alpha: Fix) -> Value
    ensures { result ≡ Value.Color 0 0 0 alpha }
{
    Value::Color {
        r: 0,
        g: 0,
        b: 0,
        a: alpha,
    }
}

fn pixels(px: i64) -> Value
    ensures { result ≡ Value.Length (record { 0 = px }) (record { 0 = pos 0 }) }
{
    Value::Length {
        px: Fix(px),
        pct: Fix(0),
    }
}
