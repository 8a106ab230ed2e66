//! What holds of every script by its definition alone.
ghost use Rattle.std.specs.Prelude.{◌≡◌, ◌+◌, ◌*◌, ◌≤◌, ℕ, [], ◌∷◌, Some, drop, length, map, take};
ghost use Rattle.std.specs.List.{All, count_by};
ghost use Rattle.text_io.specs.Lines.{lines_of};
ghost use Rattle.script_gen.specs.Draws.{drawn, sequence_number};
ghost use Rattle.script_gen.specs.Forms.{IsLaterLine, is_frame_line};
ghost use Rattle.script_gen.specs.Lines.{changed_class, changed_element, class_word, script_bytes, script_lines, sheet_line};

/// A script's bytes read back as its lines, each with a text within the limit.
pub fn scripts_read_back()
    ensures { (seed : ℕ) → lines_of (script_bytes seed) ≡ map Some (script_lines seed) }
{}

/// The first line is the sheet. Each other is of one of five forms, in which every element is added below one of a smaller
/// number, and only elements 2 to 2,000 change class.
pub fn lines_have_a_form()
    ensures sheet { (seed : ℕ) → take 1 (script_lines seed) ≡ sheet_line ∷ [] }
    ensures others { (seed : ℕ) → All IsLaterLine (drop 1 (script_lines seed)) }
{}

/// A script has 5,124 lines, 62 of them frames, in at most 72,000 bytes.
pub fn scripts_are_short()
    ensures lines { (seed : ℕ) → length (script_lines seed) ≡ 5124 }
    ensures frames { (seed : ℕ) → count_by is_frame_line (script_lines seed) ≡ 62 }
    ensures bytes { (seed : ℕ) → length (script_bytes seed) ≤ 72000 }
{}

/// The draws of the changes follow those of the parents, each number of the sequence being drawn once.
pub fn draws_follow_each_other()
    ensures element { (seed i : ℕ) → changed_element (sequence_number seed 1999) i ≡ 2 + drawn seed (2000 + 2 * i) 1999 }
    ensures class { (seed i : ℕ) → changed_class (sequence_number seed 1999) i ≡ class_word (drawn seed (2001 + 2 * i) 4) }
{}
