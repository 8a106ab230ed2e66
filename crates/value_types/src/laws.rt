//! What the table says of every property.

ghost use Rattle.std.specs.Prelude.{◌≡◌, ◌↔◌, ℕ, List, slice_get, Some};
ghost use Rattle.std.specs.Ordering.{nat_cmp};
ghost use Rattle.std.specs.Str.{str_to_ascii_lowercase};
ghost use Rattle.std.specs.Cmp.Lexicographic.{slice_cmp};
ghost use Rattle.value_types.specs.declared.property.PropertyId.{PropertyId};
ghost use Rattle.value_types.specs.Properties.{all_properties, name_of, number_of, property_named};
ghost use Rattle.value_types.specs.Table.{initial_value};
ghost use Rattle.value_types.specs.Validity.{IsValid};

/// The initial value of a property is a value of it.
pub fn initial_values_are_valid()
    ensures { (p : PropertyId) → IsValid p (initial_value p) }
{}

/// The numbers follow the names by code point; so no two properties have one name or one number.
pub fn numbers_follow_names()
    ensures order { (p q : PropertyId) → slice_cmp nat_cmp (name_of p) (name_of q) ≡ nat_cmp (number_of p) (number_of q) }
    ensures apart { (p q : PropertyId) → number_of p ≡ number_of q → p ≡ q }
{}

/// A number is that of the property which stands there in the list of all.
pub fn numbers_read_back()
    ensures { (n : ℕ) (p : PropertyId) → (slice_get all_properties n ≡ Some p) ↔ (number_of p ≡ n) }
{}

/// A text names the property whose name it is in lower case, and no other does.
pub fn names_read_back()
    ensures { (text : List ℕ) (p : PropertyId) → (property_named text ≡ Some p) ↔ (str_to_ascii_lowercase text ≡ name_of p) }
{}
