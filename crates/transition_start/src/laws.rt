//! What the definitions say, as laws over every value.
ghost use Rattle.std.specs.Prelude.{◌≡◌, ◌↔◌, ℤ, ◌≤ℤ◌, ◌<ℤ◌, Option, None, Some};
ghost use Rattle.style_data.specs.declared.decision.Decision.{Decision};
ghost use Rattle.style_data.specs.declared.transition.Completed.{Completed};
ghost use Rattle.style_data.specs.declared.transition.Transition.{Transition};
ghost use Rattle.transition_list.specs.declared.matched.MatchedItem.{MatchedItem};
ghost use Rattle.transition_start.specs.declared.change.PropertyChange.{PropertyChange};
ghost use Rattle.value_types.specs.declared.property.PropertyId.{PropertyId};
ghost use Rattle.transition_start.specs.Change.{Change, change_at};
ghost use Rattle.transition_start.specs.Functions.{decision_of, rule_of};
ghost use Rattle.transition_start.specs.Results.{Decides, decision_with};
ghost use Rattle.transition_start.specs.Rules.{Applies, Rule};
ghost use Rattle.transition_start.specs.Sampling.{sample_of};

/// Exactly one rule applies to every change of a property's value.
pub fn exactly_one_rule()
    ensures one { (x : Change) → Applies x (rule_of x) }
    ensures only { (x : Change) (rule : Rule) → Applies x rule → rule ≡ rule_of x }
{}

/// The decision as a relation, a rule for each case of the standard, and the decision as a function are
/// one.
pub fn one_decision()
    ensures { (x : Change) (d : Decision) → Decides x d ↔ (d ≡ decision_of x) }
{}

/// A transition's value is its start value up to its start, as long as it hasn't ended, and its end value from its end
/// on.
pub fn starts_and_ends_there()
    ensures start { (p : PropertyId) (r : Transition) (t : ℤ) → t ≤ℤ r.start.0 → t <ℤ r.end.0 → sample_of p r t ≡ r.from }
    ensures end { (p : PropertyId) (r : Transition) (t : ℤ) → r.end.0 ≤ℤ t → sample_of p r t ≡ r.to }
{}

/// Where nothing has to change, nothing does: no transition starts where none runs, none has completed and the
/// before-change value is the after-change value; and with a match, what runs to the after-change value, or has
/// completed there, stays.
pub fn nothing_changes()
    ensures idle { (e : PropertyChange) (m : Option MatchedItem) → e.before ≡ e.after
        → decision_of (change_at e None None m) ≡ decision_with None None None }
    ensures completed { (e : PropertyChange) (c : Completed) (m : MatchedItem) → c.to ≡ e.after
        → decision_of (change_at e None (Some c) (Some m)) ≡ decision_with None (Some c) None }
    ensures running { (e : PropertyChange) (r : Transition) (m : MatchedItem) → r.to ≡ e.after
        → decision_of (change_at e (Some r) None (Some m)) ≡ decision_with (Some r) None None }
{}
