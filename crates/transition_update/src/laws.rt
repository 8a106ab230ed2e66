//! What the definitions say, as laws over every element.

ghost use Rattle.std.specs.Prelude.{◌≡◌, ◌↔◌, [], IsSome, Some};
ghost use Rattle.std.specs.List.{Contains};
ghost use Rattle.style_data.specs.declared.gone.Gone.{Gone};
ghost use Rattle.style_data.specs.declared.transition.Completed.{Completed};
ghost use Rattle.value_types.specs.declared.property.PropertyId.{PropertyId};
ghost use Rattle.computed_style.specs.Styles.{value_of};
ghost use Rattle.style_data.specs.TransitionSets.{AreTransitions, TransitionSet, completed_of, no_transitions, running_of};
ghost use Rattle.transition_list.specs.Matching.{match_of};
ghost use Rattle.transition_update.specs.Updates.{StyleChange, cancelled_by, decision_for, transitions_after};

/// Of each property the rules decide alone: what they leave of it is there afterwards, and whatever they cancel is
/// told.
pub fn each_property_by_its_rules()
    ensures running { (x : StyleChange) (ts : TransitionSet) (p : PropertyId) → running_of (transitions_after x ts) p ≡ (decision_for x ts p).running }
    ensures completed { (x : StyleChange) (ts : TransitionSet) (p : PropertyId) → completed_of (transitions_after x ts) p ≡ (decision_for x ts p).completed }
    ensures cancelled { (x : StyleChange) (ts : TransitionSet) (g : Gone) → Contains (cancelled_by x ts) g ↔ ((p : PropertyId) × ((decision_for x ts p).gone ≡ Some g)) }
{}

/// Where no value changes, nothing runs and nothing has completed, nothing starts and nothing is cancelled.
pub fn nothing_changes()
    ensures transitions { (x : StyleChange) → ((p : PropertyId) → value_of x.before p ≡ value_of x.after p) → transitions_after x no_transitions ≡ no_transitions }
    ensures gone { (x : StyleChange) → ((p : PropertyId) → value_of x.before p ≡ value_of x.after p) → cancelled_by x no_transitions ≡ [] }
{}

/// What has completed and stays ends at the after-change value, and an item of `transition-property` names its
/// property.
pub fn completed_ones_match()
    ensures { (x : StyleChange) (ts : TransitionSet) (p : PropertyId) (c : Completed) → AreTransitions ts
        → completed_of (transitions_after x ts) p ≡ Some c → (c.to ≡ value_of x.after p) × IsSome (match_of x.after.transitions p) }
{}
