//! Shorthands, and the items of `transition-property`.

ghost use Rattle.std.specs.Prelude.{◌≡◌};
ghost use Rattle.value_types.specs.Shorthands.{longhands_of};

use crate::property::PropertyId;

/// A shorthand property (CSS Cascade 5, "Shorthand Properties"). `All` is `all`.
#[derive(Clone, Copy, Debug, PartialEq, Eq)]
pub enum Shorthand {
    All,
    Background,
    Inset,
    Margin,
    Padding,
}

/// An item of `transition-property` (CSS Transitions 1, "The transition-property Property"): `all`, a property, a shorthand other
/// than `all`, or an identifier that names none of these.
#[derive(Clone, Copy, Debug, PartialEq, Eq)]
pub enum PropertyItem {
    All,
    Property(PropertyId),
    Short(Shorthand),
    Unknown,
}

/// The properties that a shorthand stands for, in the order of their numbers.
pub fn longhands(s: Shorthand) -> &'static [PropertyId]
    ensures { result.now ≡ longhands_of s }
{
    match s {
        Shorthand::All => &PropertyId::ALL,
        Shorthand::Background => &[PropertyId::BackgroundColor],
        Shorthand::Inset => &[
            PropertyId::Bottom,
            PropertyId::Left,
            PropertyId::Right,
            PropertyId::Top,
        ],
        Shorthand::Margin => &[
            PropertyId::MarginBottom,
            PropertyId::MarginLeft,
            PropertyId::MarginRight,
            PropertyId::MarginTop,
        ],
        Shorthand::Padding => &[
            PropertyId::PaddingBottom,
            PropertyId::PaddingLeft,
            PropertyId::PaddingRight,
            PropertyId::PaddingTop,
        ],
    }
}
