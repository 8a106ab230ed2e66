//! What holds of interpolation by the definitions alone.
ghost use Rattle.std.specs.Prelude.{◌≡◌, ◌↔◌, ◌^◌, ℕ, ℤ, pos, ◌≤ℤ◌, IsTrue};
ghost use Rattle.value_types.specs.Validity.{IsValid};
ghost use Rattle.value_types.specs.declared.property.PropertyId.{PropertyId};
ghost use Rattle.value_types.specs.declared.value.Value.{Value};
ghost use Rattle.interpolation.specs.Equality.{is_same};
ghost use Rattle.interpolation.specs.Interpolation.{IsBetween, is_interpolable, component_at, value_between};

use fix_num::Bill;

/// Values are the same exactly where they are equal.
pub fn same_is_equal()
    ensures { (a b : Value) → IsTrue (is_same a b) ↔ (a ≡ b) }
{}

/// Which values can be interpolated doesn't hang on their order.
pub fn interpolable_either_way()
    ensures { (p : PropertyId) (a b : Value) → is_interpolable p a b ≡ is_interpolable p b a }
{}

/// At output 0 stands the first value, at output 1 the second.
pub fn ends_give_the_ends()
    ensures start { (p : PropertyId) (a b : Value) → value_between p a b (pos 0) ≡ a }
    ensures end { (p : PropertyId) (a b : Value) → value_between p a b Bill.ONE.0 ≡ b }
{}

/// Between equal values stands that value, at every output.
pub fn equal_values_stay()
    ensures { (p : PropertyId) (a : Value) (q : ℤ) → value_between p a a q ≡ a }
{}

/// Between values of a property stands a value of the property, at every output.
pub fn valid_values_stay_valid()
    ensures { (p : PropertyId) (a b : Value) (q : ℤ) → IsValid p a → IsValid p b → IsValid p (value_between p a b q) }
{}

/// At an output from 0 to 1 each number, and the alpha of a colour, lies between those of the ends.
pub fn numbers_stay_between()
    ensures { (p : PropertyId) (a b : Value) (q : ℤ) (k : ℕ) → IsValid p a → IsValid p b → pos 0 ≤ℤ q → q ≤ℤ Bill.ONE.0
        → IsBetween (component_at k a) (component_at k b) (component_at k (value_between p a b q)) }
{}
