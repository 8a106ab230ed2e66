//! What holds of updates by their definitions alone.

ghost use Rattle.std.specs.Prelude.{◌≡◌, ℕ, Bool, IsFalse, IsTrue};
ghost use Rattle.computed_style.specs.Winners.{Declarations};
ghost use Rattle.computed_style.specs.declared.inherited.Down.{Down};
ghost use Rattle.doc_tree.specs.Element.{is_in, parent_of};
ghost use Rattle.pass_core.specs.declared.step.Step.TheVariants.{Updated};
ghost use Rattle.style_data.specs.Entries.{EntryParts};
ghost use Rattle.style_data.specs.TransitionSets.{no_transitions};
ghost use Rattle.element_step.specs.Quiet.{declared_in, has_no_effects, outcome_where};
ghost use Rattle.element_step.specs.Updates.{ElementUpdate, rendered_after, transitions_of};
ghost use Rattle.element_step.specs.Works.{DocumentEvent, outcome_with};
ghost use Rattle.element_step.specs.declared.quiet.QuietDown.{QuietDown};

/// An element that isn't rendered has no transition, and one that is new, or wasn't rendered before, starts none.
pub fn transitions_want_rendering()
    ensures now { (x : ElementUpdate) → IsFalse (rendered_after x) → transitions_of x ≡ no_transitions }
    ensures before { (x : ElementUpdate) → IsFalse x.entry.rendered → transitions_of x ≡ no_transitions }
{}

/// Where the update of an element leaves no transition, no animation and nothing that waits for its event, its place in tree
/// order doesn't show: another element of one's own entry, declarations and parent has the same outcome. The same holds of the
/// pass that passes over elements at rest.
pub fn places_show_in_effects_alone()
    ensures outcome { (w : DocumentEvent) (n m : ℕ) (entry after : EntryParts) (d : Declarations) (down handed : Down)
        → IsTrue (is_in n w.document.elements) → IsTrue (is_in m w.document.elements)
        → parent_of n w.document.elements ≡ parent_of m w.document.elements
        → outcome_with w n entry d down ≡ Updated after handed → IsTrue (has_no_effects after.effects)
        → outcome_with w m entry d down ≡ Updated after handed }
    ensures quiet { (untouched : Bool) (w : DocumentEvent) (n m : ℕ) (entry after : EntryParts) (down handed : QuietDown)
        → IsTrue (is_in n w.document.elements) → IsTrue (is_in m w.document.elements)
        → parent_of n w.document.elements ≡ parent_of m w.document.elements
        → declared_in untouched w n entry ≡ declared_in untouched w m entry
        → outcome_where untouched w n entry down ≡ Updated after handed → IsTrue (has_no_effects after.effects)
        → outcome_where untouched w m entry down ≡ Updated after handed }
{}
