//! What the definitions say of every script, as laws.
ghost use Rattle.std.specs.Prelude.{◌≡◌, ◌≢◌, ℕ, ◌+◌, Bool, true, false, ◌||◌, AllPairs, List, [], ◌∷◌, ◌++◌, length, flat_map, Option, Ok};
ghost use Rattle.computed_style.specs.Styles.{value_of};
ghost use Rattle.event_order.specs.Order.{IsInOrderOf};
ghost use Rattle.restyle.specs.StyleChanges.{entry_for};
ghost use Rattle.restyle.specs.Worlds.{WorldParts, events_of_frame, new_world, world_after_frame};
ghost use Rattle.script_gen.specs.Lines.{script_bytes};
ghost use Rattle.script_text.specs.declared.command.Command.{Command};
ghost use Rattle.script_text.specs.declared.refusal.Refusal.{Refusal};
ghost use Rattle.style_data.specs.declared.event.Event.{Event};
ghost use Rattle.text_io.specs.Lines.{lines_of};
ghost use Rattle.text_io.specs.declared.limits.TheConstants.{LINE_FEED};
ghost use Rattle.transcript_text.specs.Lines.{event_line, refused_line, value_line};
ghost use Rattle.value_types.specs.declared.property.PropertyId.{PropertyId};
ghost use Rattle.transcript_cli.specs.Laws.{HasNoFrame};
ghost use Rattle.transcript_cli.specs.Listing.{listing_of};
ghost use Rattle.transcript_cli.specs.Order.{in_order};
ghost use Rattle.transcript_cli.specs.Transcript.{answer_of, has_refusal, is_edit, reading_of, refuses_from, transcript_from, transcript_of, world_from};

use script_text::Command;

/// A transcript goes by parts: it is that of the first lines, and then that of the others from the world that the first
/// leave. So scripts with the same first lines have transcripts that begin alike.
pub fn transcripts_go_by_parts()
    ensures lines { (w : WorldParts) (n : ℕ) (xs ys : List (Option (List ℕ)))
        → transcript_from w n (xs ++ ys) ≡ transcript_from w n xs ++ transcript_from (world_from w n xs) (n + length xs) ys }
    ensures world { (w : WorldParts) (n : ℕ) (xs ys : List (Option (List ℕ)))
        → world_from w n (xs ++ ys) ≡ world_from (world_from w n xs) (n + length xs) ys }
    ensures refused { (w : WorldParts) (n : ℕ) (xs ys : List (Option (List ℕ)))
        → refuses_from w n (xs ++ ys) ≡ (refuses_from w n xs || refuses_from (world_from w n xs) (n + length xs) ys) }
    ensures bytes { (first second : List ℕ) → let ended = first ++ LINE_FEED ∷ [] in transcript_of (ended ++ second)
        ≡ transcript_of ended ++ transcript_from (world_from new_world 1 (lines_of ended)) (1 + length (lines_of ended)) (lines_of second) }
{}

/// A line that is refused changes nothing and writes its one line: without it the others leave the same world.
pub fn refused_lines_change_nothing()
    ensures world { (w : WorldParts) (n : ℕ) (line : Option (List ℕ)) → (answer_of w n line).refused ≡ true → (answer_of w n line).world ≡ w }
    ensures piece { (w : WorldParts) (n : ℕ) (line : Option (List ℕ)) → (answer_of w n line).refused ≡ true
        → (r : Refusal) × ((answer_of w n line).piece ≡ refused_line n r) }
    ensures without { (w : WorldParts) (n : ℕ) (xs ys : List (Option (List ℕ))) (line : Option (List ℕ))
        → (answer_of (world_from w n xs) (n + length xs) line).refused ≡ true → world_from w n (xs ++ line ∷ ys) ≡ world_from w n (xs ++ ys) }
{}

/// The number of a line shows in its refusal, and nowhere else.
pub fn numbers_show_in_refusals()
    ensures world { (w : WorldParts) (n m : ℕ) (lines : List (Option (List ℕ))) → world_from w n lines ≡ world_from w m lines }
    ensures refused { (w : WorldParts) (n m : ℕ) (lines : List (Option (List ℕ))) → refuses_from w n lines ≡ refuses_from w m lines }
    ensures piece { (w : WorldParts) (n m : ℕ) (line : Option (List ℕ)) → (answer_of w n line).refused ≡ false → (answer_of w n line).piece ≡ (answer_of w m line).piece }
    ensures transcript { (w : WorldParts) (n m : ℕ) (lines : List (Option (List ℕ))) → refuses_from w n lines ≡ false → transcript_from w n lines ≡ transcript_from w m lines }
{}

/// A blank line or a comment does nothing: without it the others leave the same world, and write the same but for the
/// numbers in refusals.
pub fn blank_lines_do_nothing()
    ensures answer { (w : WorldParts) (n : ℕ) (line : Option (List ℕ)) → reading_of line ≡ Ok Command.Blank
        → answer_of w n line ≡ record { refused = false; piece = []; world = w } }
    ensures without { (w : WorldParts) (n : ℕ) (xs ys : List (Option (List ℕ))) (line : Option (List ℕ)) → reading_of line ≡ Ok Command.Blank
        → transcript_from w n (xs ++ line ∷ ys) ≡ transcript_from w n xs ++ transcript_from (world_from w n xs) (n + length xs + 1) ys }
{}

/// An edit that isn't refused writes nothing.
pub fn edits_write_nothing()
    ensures { (w : WorldParts) (n : ℕ) (line : Option (List ℕ)) (c : Command) → reading_of line ≡ Ok c → is_edit c ≡ true → (answer_of w n line).refused ≡ false
        → (answer_of w n line).piece ≡ [] }
{}

/// A frame is never refused, and writes the lines of its events in order.
pub fn frames_write_their_events()
    ensures { (w : WorldParts) (n : ℕ) (line : Option (List ℕ)) → reading_of line ≡ Ok Command.Frame
        → answer_of w n line ≡ record { refused = false; piece = flat_map event_line (in_order (events_of_frame w)); world = world_after_frame w } }
{}

/// Events that all have different keys have one order, and this is it: each comes once, and the keys ascend.
pub fn events_come_in_order()
    ensures order { (events : List Event) → AllPairs (λ a b. a.key ≢ b.key) events → IsInOrderOf (in_order events) events }
    ensures one { (events sorted : List Event) → IsInOrderOf sorted events → sorted ≡ in_order events }
{}

/// What is asked of an element changes nothing.
pub fn questions_change_nothing()
    ensures get { (w : WorldParts) (n k : ℕ) (p : PropertyId) (line : Option (List ℕ)) → reading_of line ≡ Ok (Command.Get k p) → (answer_of w n line).world ≡ w }
    ensures list { (w : WorldParts) (n k : ℕ) (line : Option (List ℕ)) → reading_of line ≡ Ok (Command.List k) → (answer_of w n line).world ≡ w }
{}

/// What is told of an element is what the last frame gave it, whatever edits followed that frame.
pub fn answers_are_of_the_last_frame()
    ensures get { (w : WorldParts) (n m k : ℕ) (p : PropertyId) (lines : List (Option (List ℕ))) (line : Option (List ℕ)) → HasNoFrame lines
        → reading_of line ≡ Ok (Command.Get k p) → (answer_of (world_from w n lines) m line).refused ≡ false
        → (answer_of (world_from w n lines) m line).piece ≡ value_line k p (value_of (entry_for w.entries k).now p) }
    ensures list { (w : WorldParts) (n m k : ℕ) (lines : List (Option (List ℕ))) (line : Option (List ℕ)) → HasNoFrame lines
        → reading_of line ≡ Ok (Command.List k) → (answer_of (world_from w n lines) m line).refused ≡ false
        → (answer_of (world_from w n lines) m line).piece ≡ listing_of k (entry_for w.entries k) }
{}

/// No line of a generated script is refused.
pub fn generated_scripts_are_never_refused()
    ensures { (seed : ℕ) → has_refusal (script_bytes seed) ≡ false }
{}
