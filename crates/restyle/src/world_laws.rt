//! What holds of every world by the definitions alone.

ghost use Rattle.std.specs.Prelude.{◌≡◌, ℕ, false, [], All, None};
ghost use Rattle.doc_tree.specs.Element.{is_in};
ghost use Rattle.fix_num.specs.declared.units.Micros.{Micros};
ghost use Rattle.script_text.specs.declared.command.Command.{Command};
ghost use Rattle.script_text.specs.declared.command.Command.TheVariants.{At};
ghost use Rattle.style_data.specs.Entries.{AreAscending, fresh_entry, no_effects};
ghost use Rattle.style_data.specs.TransitionSets.{AreTransitions, no_transitions};
ghost use Rattle.ticker.specs.Distinct.{AreDistinct};
ghost use Rattle.ticker.specs.Ticks.{ticked_effects};
ghost use Rattle.restyle.specs.Distinct.{IsDistinct, IsWorld};
ghost use Rattle.restyle.specs.Edits.{edited, refusal_of};
ghost use Rattle.restyle.specs.Rest.{AreAtRest, GiveTheSame};
ghost use Rattle.restyle.specs.StyleChanges.{entry_for};
ghost use Rattle.restyle.specs.Worlds.{WorldParts, events_of_frame, new_world, world_after_frame};

/// No two transitions and no two animations of a world were created alike: so it is of a new world, and so it stays with each edit and each frame.
pub fn worlds_stay_distinct()
    ensures new { IsWorld new_world }
    ensures edit { (w : WorldParts) (c : Command) → IsWorld w → refusal_of w c ≡ None → IsDistinct (edited w c) }
    ensures frame { (w : WorldParts) → IsWorld w → IsDistinct (world_after_frame w) }
{}

/// So the events of a frame all have different keys.
pub fn frames_have_an_order()
    ensures { (w : WorldParts) → IsWorld w → All (λ e. AreTransitions e.1.effects.transitions) w.entries
        → All (λ e. AreAscending e.1.effects.animations) w.entries → AreDistinct w.document w.entries w.departed }
{}

/// An element that is added starts no transition at the next frame, whatever edits come before it: what isn't in the tree has no entry, an edit leaves
/// an entry that no frame has styled as it is, and of such an element a frame starts none.
pub fn added_elements_start_none()
    ensures absent { (w : WorldParts) (n : ℕ) → IsWorld w → is_in n w.document.elements ≡ false → entry_for w.entries n ≡ fresh_entry }
    ensures edit { (w : WorldParts) (c : Command) (n : ℕ) → entry_for w.entries n ≡ fresh_entry → entry_for (edited w c).entries n ≡ fresh_entry }
    ensures frame { (w : WorldParts) (n : ℕ) → entry_for w.entries n ≡ fresh_entry
        → (entry_for (world_after_frame w).entries n).effects.transitions ≡ no_transitions }
{}

/// A world that is at rest stays so: where nothing has changed since a frame but the time, an element that is still, under ancestors that are still,
/// keeps its styles at the next frame. Of its effects the frame leaves what its tick leaves of them, and the element is at rest again. Where no element
/// has any effect, and nothing waits of removed ones, a frame tells no event.
pub fn worlds_stay_at_rest()
    ensures styles { (w : WorldParts) (t : Micros) (n : ℕ) → IsWorld w → AreAtRest w.document (world_after_frame w).entries n
        → GiveTheSame (entry_for (world_after_frame w).entries n) (entry_for (world_after_frame (edited (world_after_frame w) (At t))).entries n) }
    ensures effects { (w : WorldParts) (t : Micros) (n : ℕ) → IsWorld w → AreAtRest w.document (world_after_frame w).entries n
        → (entry_for (world_after_frame (edited (world_after_frame w) (At t))).entries n).effects
        ≡ ticked_effects t.0 (entry_for (world_after_frame w).entries n).effects }
    ensures rest { (w : WorldParts) (t : Micros) (n : ℕ) → IsWorld w → AreAtRest w.document (world_after_frame w).entries n
        → AreAtRest w.document (world_after_frame (edited (world_after_frame w) (At t))).entries n }
    ensures events { (w : WorldParts) → All (λ e. e.1.effects ≡ no_effects) w.entries → w.departed ≡ [] → events_of_frame w ≡ [] }
{
    animation_names::laws::paused_samples_stay();
    animation_names::laws::unchanged_lists_change_nothing();
    doc_tree::laws::ancestors_go_by_parents();
    doc_tree::laws::numbers_differ();
    doc_tree::laws::parents_stand_before();
    doc_tree::laws::subtrees_stand_together();
    transition_update::nothing_changes();
}
