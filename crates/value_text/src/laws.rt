//! What holds of spellings by the definitions alone.
ghost use Rattle.std.specs.Prelude.{◌≡◌, List, true, false};
ghost use Rattle.token_parts.specs.Parts.{TokenPart};
ghost use Rattle.value_types.specs.Validity.{IsDeclaredFor};
ghost use Rattle.value_types.specs.declared.property.PropertyId.{PropertyId};
ghost use Rattle.value_types.specs.declared.declared.Declared.{Declared};
ghost use Rattle.value_text.specs.Reading.{declared_reading};
ghost use Rattle.value_text.specs.Spelling.{IsValueAnswer, IsSpelled};

/// The parts of a value spell at most one value of a property.
pub fn one_value()
    ensures { (p : PropertyId) (parts : List TokenPart) (a b : Declared) → IsSpelled false p parts a → IsSpelled false p parts b → a ≡ b }
{}

/// The reading of parts is their one value within its limits, or tells exactly why there is none.
pub fn reading_is_exact()
    ensures { (p : PropertyId) (parts : List TokenPart) → IsValueAnswer p parts (declared_reading p parts) }
{}

/// What is spelled within its limits stands for the property: a kind that its row names, in its range.
pub fn spelled_is_declared()
    ensures { (p : PropertyId) (parts : List TokenPart) (d : Declared) → IsSpelled true p parts d → IsDeclaredFor p d }
{}
