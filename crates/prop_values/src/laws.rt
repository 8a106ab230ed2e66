//! What holds of the printed form of values by the definitions alone.
ghost use Rattle.value_types.specs.Validity.{IsValid};
ghost use Rattle.value_types.specs.declared.property.PropertyId.{PropertyId};
ghost use Rattle.value_types.specs.declared.declared.Declared.{Declared};
ghost use Rattle.value_types.specs.declared.value.Value.{Value};
ghost use Rattle.value_print.specs.Printed.{serialized_value};
ghost use Rattle.prop_values.specs.ReadBack.{IsPrintedWithoutSum, IsReadAs, IsReadBack};

/// The printed form of a property's value is read as a declaration whose computed value is that value again, whatever the font
/// sizes; but where it has the sum of a length and a percent it is read as nothing, since that is printed as `calc()`, which no
/// property's grammar has.
pub fn printed_values_read_back()
    ensures same { (p : PropertyId) (v : Value) → IsValid p v → IsPrintedWithoutSum v → (d : Declared) × IsReadBack p v d }
    ensures only { (p : PropertyId) (v : Value) (d : Declared) → IsValid p v → IsReadAs p (serialized_value v) d → IsPrintedWithoutSum v }
{}
