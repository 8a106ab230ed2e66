//! What holds of the names and the shorthands by the definitions alone.
ghost use Rattle.std.specs.Prelude.{◌≡◌, ◌↔◌, ℕ, List, Ok, Some, map};
ghost use Rattle.std.specs.Str.{str_to_ascii_lowercase};
ghost use Rattle.token_parts.specs.Parts.{TokenPart};
ghost use Rattle.shorthand_text.specs.Declaring.{declared_of};
ghost use Rattle.shorthand_text.specs.KnownNames.{known_name, text_of_name};
ghost use Rattle.shorthand_text.specs.Targets.{AreOfOneLength, target_of, targets_of};
ghost use Rattle.shorthand_text.specs.declared.known_name.KnownName.{KnownName};
ghost use Rattle.shorthand_text.specs.declared.longhand.Longhand.{Longhand};

/// A text is the known name whose text it is in lower case, and no other; so no two names have one text.
pub fn known_names_read_back()
    ensures { (text : List ℕ) (n : KnownName) → (known_name text ≡ Some n) ↔ (str_to_ascii_lowercase text ≡ text_of_name n) }
{}

/// Whatever a value declares, each property and list that the name stands for is given a value, in order, and no other.
pub fn longhands_in_order()
    ensures { (name : KnownName) (parts : List TokenPart) (ls : List Longhand) → declared_of name parts ≡ Ok ls → map target_of ls ≡ targets_of name }
{}

/// The lists that one value of `transition` or of `animation` gives are of one length.
pub fn lists_are_of_one_length()
    ensures transition { (parts : List TokenPart) (ls : List Longhand) → declared_of KnownName.Transition parts ≡ Ok ls → AreOfOneLength ls }
    ensures animation { (parts : List TokenPart) (ls : List Longhand) → declared_of KnownName.Animation parts ≡ Ok ls → AreOfOneLength ls }
{}
