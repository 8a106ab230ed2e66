//! What an element hands down.

ghost use Rattle.std.specs.Prelude.{◌≡◌};
ghost use Rattle.computed_style.specs.Styles.{AreInherited, initial_inherited};

use fix_num::Fix;
use std::marker::Model;
use value_types::{PropertyId, Value, initial_value};

/// The computed values that the elements below inherit, and the root's font size. Sizes are millionths of a
/// pixel.
#[derive(Clone, Copy, PartialEq, Eq)]
pub struct InheritedValues {
    pub color: Value,
    pub font_size: Fix,
    pub letter_spacing: Value,
    pub visibility: Value,
    pub root_size: Fix,
}

/// Inherited values (CSS Cascade 5, section 7.2), each valid for its property, with sizes of 0 to 10^12
/// millionths. Contracts see them as their record.
#[derive(Clone, Copy, PartialEq, Eq)]
pub struct Inherited {
    values: InheritedValues,
}

impl Model for Inherited {
    ghost use Rattle.computed_style.specs.declared.inherited.InheritedValues.{InheritedValues};

    ghost Value = { InheritedValues };

    ghost use Rattle.computed_style.specs.Styles.{AreInherited};

    ghost view = { λ i. i.values };

    ghost invariant = { λ i. AreInherited i.values };

    ghost inverse = { λ v. record { values = v } };
}

impl Inherited {
    /// These inherited values.
    pub fn new(values: InheritedValues) -> Inherited
        requires { AreInherited values }
        ensures { result ≡ values }
    {
        Inherited { values }
    }

    /// The initial values, which the root inherits, with a root font size of 16px.
    pub fn initial() -> Inherited
        ensures { result ≡ initial_inherited }
    {
        Inherited {
            values: InheritedValues {
                color: initial_value(PropertyId::Color),
                font_size: Fix(16_000_000),
                letter_spacing: initial_value(PropertyId::LetterSpacing),
                visibility: initial_value(PropertyId::Visibility),
                root_size: Fix(16_000_000),
            },
        }
    }

    /// The values.
    pub fn get(self) -> InheritedValues
        ensures value { result ≡ self }
        ensures bounds { AreInherited result }
    {
        self.values
    }
}

/// What the update of an element hands to those below it: the inherited values of its three styles.
#[derive(Clone, Copy, PartialEq, Eq)]
pub struct Down {
    /// Those of the before-change style; none where it wasn't rendered at the style change event before.
    pub before: Option<Inherited>,
    /// Those of the after-change style.
    pub after: Inherited,
    /// Those of the current style.
    pub now: Inherited,
    pub rendered: bool,
    /// Whether the elements below have to be updated for its sake.
    pub changed: bool,
}
