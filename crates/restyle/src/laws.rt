//! What holds of every style change event by its definition alone.

ghost use Rattle.std.specs.Prelude.{◌≡◌, ℕ, All, List, false};
ghost use Rattle.doc_tree.specs.Shape.{IsTree};
ghost use Rattle.element_step.specs.Works.{DocumentEvent};
ghost use Rattle.fix_num.specs.declared.units.Micros.{Micros};
ghost use Rattle.style_data.specs.Entries.{EntryParts, fresh_entry};
ghost use Rattle.style_data.specs.TransitionSets.{no_transitions};
ghost use Rattle.restyle.specs.Distinct.{AreInTreeOrder};
ghost use Rattle.restyle.specs.Rest.{AreAtRest, GiveTheSame, quiet_frame};
ghost use Rattle.restyle.specs.StyleChanges.{FrameParts, ancestors_of, entry_after_event, entry_for, frame_after};

/// An element's entry after the event depends on no entry but its own and those of its ancestors: a sibling's styles never
/// show.
pub fn siblings_never_show()
    ensures { (w : DocumentEvent) (entries others : List (ℕ × EntryParts)) (n : ℕ) → entry_for entries n ≡ entry_for others n
        → All (λ a. entry_for entries a.number ≡ entry_for others a.number) (ancestors_of w.document n)
        → entry_after_event w entries n ≡ entry_after_event w others n }
{}

/// An element that is new in the tree, so that no event has styled it, starts no transition, whatever its sheets say; nor does one that wasn't
/// rendered at the event before.
pub fn new_elements_start_none()
    ensures new { (w : DocumentEvent) (entries : List (ℕ × EntryParts)) (n : ℕ) → entry_for entries n ≡ fresh_entry
        → (entry_after_event w entries n).effects.transitions ≡ no_transitions }
    ensures unrendered { (w : DocumentEvent) (entries : List (ℕ × EntryParts)) (n : ℕ) → (entry_for entries n).rendered ≡ false
        → (entry_after_event w entries n).effects.transitions ≡ no_transitions }
{}

/// An event changes no value where nothing has changed since the event before, no transition of the element or of an ancestor runs or has completed, and
/// all their animations are paused: the element keeps its style and its effects, starts and cancels nothing, and is at rest again. Whether it is
/// settled may change: at the event before, the after-change style may still have had animations that the current style no longer had.
pub fn nothing_changes()
    ensures styles { (f : FrameParts) (t : Micros) (n : ℕ) → IsTree f.document → AreInTreeOrder f.document f.entries
        → AreAtRest f.document (frame_after f).entries n
        → GiveTheSame (entry_for (frame_after f).entries n) (entry_for (frame_after (quiet_frame f t)).entries n) }
    ensures effects { (f : FrameParts) (t : Micros) (n : ℕ) → IsTree f.document → AreInTreeOrder f.document f.entries
        → AreAtRest f.document (frame_after f).entries n
        → (entry_for (frame_after (quiet_frame f t)).entries n).effects ≡ (entry_for (frame_after f).entries n).effects }
    ensures rest { (f : FrameParts) (t : Micros) (n : ℕ) → IsTree f.document → AreInTreeOrder f.document f.entries
        → AreAtRest f.document (frame_after f).entries n → AreAtRest f.document (frame_after (quiet_frame f t)).entries n }
{
    animation_names::laws::paused_samples_stay();
    animation_names::laws::unchanged_lists_change_nothing();
    doc_tree::laws::ancestors_go_by_parents();
    doc_tree::laws::numbers_differ();
    doc_tree::laws::parents_stand_before();
    doc_tree::laws::subtrees_stand_together();
    transition_update::nothing_changes();
}
