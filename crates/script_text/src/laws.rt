//! What holds of lines by the definitions alone.
ghost use Rattle.std.specs.Prelude.{◌≡◌, ◌↔◌, ◌⊎◌, ◌≤◌, ℕ, List, [], ◌∷◌, ◌++◌, length, Ok, Err, codes};
ghost use Rattle.std.specs.Str.{IsUtf8};
ghost use Rattle.script_text.specs.declared.command.Command.{Command};
ghost use Rattle.script_text.specs.declared.refusal.Refusal.{Refusal};
ghost use Rattle.script_text.specs.Bounds.{IsNodeNumber, IsSheetNumber};
ghost use Rattle.script_text.specs.Commands.{AreInBounds, IsCommand, IsNoLongerThan, IsRefused};
ghost use Rattle.script_text.specs.Forms.{IsNumeral};
ghost use Rattle.script_text.specs.Reading.{command_of};
ghost use Rattle.script_text.specs.Statements.{IsBlank, Says, Statement};
ghost use Rattle.script_text.specs.Words.{AreSpaceBytes, HasWords};

/// The reading of a line is what the grammar and the bounds say of it: its command, or why it is refused.
pub fn line_reading_is_exact()
    ensures command { (line : List ℕ) (c : Command) → IsCommand line c ↔ (command_of line ≡ Ok c) }
    ensures refused { (line : List ℕ) (r : Refusal) → IsRefused line r ↔ (command_of line ≡ Err r) }
{}

/// A line is a command or is refused, and never both; and it is one command, or refused for one reason.
pub fn a_command_or_a_refusal()
    ensures either { (line : List ℕ) → ((c : Command) × IsCommand line c) ⊎ ((r : Refusal) × IsRefused line r) }
    ensures never_both { (line : List ℕ) (c : Command) (r : Refusal) → IsCommand line c → IsRefused line r → ⊥ }
    ensures one_command { (line : List ℕ) (c other : Command) → IsCommand line c → IsCommand line other → c ≡ other }
    ensures one_refusal { (line : List ℕ) (r other : Refusal) → IsRefused line r → IsRefused line other → r ≡ other }
{}

/// Spaces at the ends of a line change nothing.
pub fn spaces_at_the_ends_are_dropped()
    ensures { (front line back : List ℕ) → AreSpaceBytes front → AreSpaceBytes back → command_of (front ++ line ++ back) ≡ command_of line }
{}

/// Lines of the same words and the same text read alike, however many spaces stand between the words: all lines that are
/// in the grammar, and whatever the line is, the spaces after its first and its second word.
pub fn spaces_between_words_count_once()
    ensures words { (line other : List ℕ) (words : List (List ℕ)) (text : List ℕ) (s : Statement)
        → HasWords line words text → HasWords other words text → IsUtf8 line → Says words text s → command_of other ≡ command_of line }
    ensures two_words { (line other first second text : List ℕ)
        → HasWords line (first ∷ second ∷ []) text → HasWords other (first ∷ second ∷ []) text → command_of other ≡ command_of line }
{}

/// A line that is empty, has only spaces, or has `#` as its first byte after spaces does nothing, whatever bytes follow.
pub fn blank_lines_do_nothing()
    ensures blank { (line : List ℕ) → IsBlank line ↔ (command_of line ≡ Ok Command.Blank) }
    ensures comment { (front comment : List ℕ) → AreSpaceBytes front → command_of (front ++ 35 ∷ comment) ≡ Ok Command.Blank }
    ensures spaces { (line : List ℕ) → AreSpaceBytes line → command_of line ≡ Ok Command.Blank }
{}

/// The text of a `style` or a `sheet` line is read as it stands, without the spaces at its ends.
pub fn texts_read_as_themselves()
    ensures style { (line number text : List ℕ) (n : ℕ) → HasWords line (codes "style" ∷ number ∷ []) text → IsNumeral number n → IsNodeNumber n
        → IsUtf8 text → command_of line ≡ Ok (Command.Style n text) }
    ensures sheet { (line number text : List ℕ) (k : ℕ) → HasWords line (codes "sheet" ∷ number ∷ []) text → IsNumeral number k → IsSheetNumber k
        → IsUtf8 text → command_of line ≡ Ok (Command.Sheet k text) }
{}

/// What a command keeps: its numbers are in their bounds, and its text is no longer than the line.
pub fn commands_are_in_bounds()
    ensures numbers { (line : List ℕ) (c : Command) → IsCommand line c → AreInBounds c }
    ensures text { (line : List ℕ) (c : Command) → IsCommand line c → IsNoLongerThan (length line) c }
{}
