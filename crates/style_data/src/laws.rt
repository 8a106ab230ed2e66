//! What holds of entries by their bounds alone.

ghost use Rattle.std.specs.Prelude.{◌≡◌, ◌↔◌, ◌⊎◌, Contains, IsNone, Some};
ghost use Rattle.value_types.specs.declared.property.PropertyId.{PropertyId};
ghost use Rattle.style_data.specs.declared.transition.Completed.{Completed};
ghost use Rattle.style_data.specs.declared.transition.Transition.{Transition};
ghost use Rattle.style_data.specs.TransitionSets.{AreTransitions, TransitionSet, completed_of, running_of};

/// A transition that is kept for a property is the one which a look-up by the property gives.
pub fn lookup_is_membership()
    ensures running { (t : TransitionSet) (p : PropertyId) (r : Transition) → AreTransitions t
        → Contains t.running (p, r) ↔ (running_of t p ≡ Some r) }
    ensures completed { (t : TransitionSet) (p : PropertyId) (c : Completed) → AreTransitions t
        → Contains t.completed (p, c) ↔ (completed_of t p ≡ Some c) }
{}

/// A property never has both a running and a completed transition.
pub fn never_both()
    ensures { (t : TransitionSet) (p : PropertyId) → AreTransitions t → IsNone (running_of t p) ⊎ IsNone (completed_of t p) }
{}
