//! What holds of lines by their definitions alone.
ghost use Rattle.std.specs.Prelude.{◌≡◌, ◌==◌, not, take_while};
ghost use Rattle.transcript_text.specs.Items.{HasIdentifiers, IsOneLine, kind_word, line_of};
ghost use Rattle.transcript_text.specs.declared.item.Item.{Item};

/// The line of an item ends with a line feed and has no other.
pub fn an_item_is_one_line()
    ensures { (item : Item) → HasIdentifiers item → IsOneLine (line_of item) }
{}

/// What stands before the first space of a line tells the kind of its item.
pub fn lines_tell_their_kind()
    ensures { (item : Item) → take_while (λ b. not (b == 32)) (line_of item) ≡ kind_word item }
{}
