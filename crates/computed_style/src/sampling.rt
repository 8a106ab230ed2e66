//! What animations give the properties of an element.

ghost use Rattle.std.specs.Prelude.{◌≡◌, IfSome};
ghost use Rattle.std.specs.Bool.{OnTrue};
ghost use Rattle.value_types.specs.Ranges.{IsSize};
ghost use Rattle.value_types.specs.Validity.{IsValid};
ghost use Rattle.computed_style.specs.ComputedStyles.{GiveNothing};

use fix_num::Fix;
use value_types::{PropertyId, Value};

/// What the animations of an element give its properties at one moment (CSS Animations 1, section 3). Lengths
/// in em and rem wait for the font sizes of the parent, of the element and of the root, in millionths of a
/// pixel; of `font-size` itself the element's is the parent's.
pub trait Sampling {
    ghost use Rattle.std.specs.Prelude.{Option};
    ghost use Rattle.fix_num.specs.declared.units.Fix.{Fix};
    ghost use Rattle.value_types.specs.declared.property.PropertyId.{PropertyId};
    ghost use Rattle.value_types.specs.declared.value.Value.{Value};

    // the value of a property over the value that the declarations give it, where the animations give one
    ghost animated_value: { Self → PropertyId → Fix → Fix → Fix → Value → Option Value };

    /// The value of a property, over the value `under` that the declarations give it. `None` where no animation
    /// gives one. Takes no memory.
    fn value(
        &self,
        p: PropertyId,
        parent_size: Fix,
        own_size: Fix,
        root_size: Fix,
        under: Value,
    ) -> Option<Value>
        requires under { IsValid p under }
        requires parent { IsSize parent_size }
        requires own { IsSize own_size }
        requires root { IsSize root_size }
        ensures { result ≡ animated_value self.now p parent_size own_size root_size under };

    /// True only where it gives no property a value, whatever the sizes and the value below. Takes no memory.
    fn gives_nothing(&self) -> bool
        ensures { OnTrue result (GiveNothing (animated_value self.now)) };

    // what is given is a value of the property
    ghost valid: { (s : Self) (p : PropertyId) (parent own root : Fix) (under : Value) → IsValid p under → IsSize parent → IsSize own → IsSize root
        → IfSome (animated_value s p parent own root under) (IsValid p) };
}

/// No animation at all.
#[derive(Clone, Copy)]
pub struct NoSampling;

impl Sampling for NoSampling {
    ghost use Rattle.std.specs.Prelude.{None};

    ghost animated_value = { λ s p parent own root under. None };

    ghost valid = { λ s p parent own root under a b c d. tt };

    fn value(
        &self,
        _p: PropertyId,
        _parent_size: Fix,
        _own_size: Fix,
        _root_size: Fix,
        _under: Value,
    ) -> Option<Value> {
        None
    }

    fn gives_nothing(&self) -> bool {
        true
    }
}
