//! What holds of computed styles by their definitions alone.

ghost use Rattle.std.specs.Prelude.{◌≡◌};
ghost use Rattle.value_types.specs.declared.property.PropertyId.{PropertyId};
ghost use Rattle.computed_style.specs.ComputedStyles.{StyleSources, computed_style, computed_value};
ghost use Rattle.computed_style.specs.Styles.{AreInherited, AreValid, initial_inherited, initial_values, value_of};

/// The initial values are a style, and may be inherited.
pub fn initial_values_are_inherited()
    ensures style { AreValid initial_values }
    ensures inherited { AreInherited initial_inherited }
{}

/// A computed style has of each property the value that the table of precedence gives it.
pub fn computed_value_by_property()
    ensures { (x : StyleSources) (p : PropertyId) → value_of (computed_style x) p ≡ computed_value x p }
{}
