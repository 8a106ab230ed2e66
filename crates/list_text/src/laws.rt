//! What holds of the spellings by the definitions alone.
ghost use Rattle.std.specs.Prelude.{◌≡◌, List};
ghost use Rattle.token_parts.specs.Parts.{TokenPart};
ghost use Rattle.timing_types.specs.declared.easing.Easing.{Easing};
ghost use Rattle.value_types.specs.declared.list_value.ListName.{ListName};
ghost use Rattle.value_types.specs.declared.list_value.ListValue.{ListValue};
ghost use Rattle.list_text.specs.Easings.{IsEasingAnswer, IsEasingSpelling};
ghost use Rattle.list_text.specs.ItemReading.{easing_read, list_of};
ghost use Rattle.list_text.specs.Lists.{IsListAnswer, IsListSpelling};

/// Parts spell at most one easing.
pub fn one_easing()
    ensures { (parts : List TokenPart) (e f : Easing) → IsEasingSpelling parts e → IsEasingSpelling parts f → e ≡ f }
{}

/// Parts spell at most one value of a list.
pub fn one_list()
    ensures { (name : ListName) (parts : List TokenPart) (v w : ListValue) → IsListSpelling name parts v → IsListSpelling name parts w → v ≡ w }
{}

/// The easing that is read is the one that the parts spell.
pub fn easing_as_spelled()
    ensures { (parts : List TokenPart) → IsEasingAnswer parts (easing_read parts) }
{}

/// The list that is read is the one that the parts spell.
pub fn list_as_spelled()
    ensures { (name : ListName) (parts : List TokenPart) → IsListAnswer name parts (list_of name parts) }
{}
