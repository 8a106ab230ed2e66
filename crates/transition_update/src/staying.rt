//! Transitions that stay as they are.

ghost use Rattle.std.specs.Prelude.{◌≡◌, IsTrue};
ghost use Rattle.std.specs.List.{list_all};
ghost use Rattle.transition_update.specs.Staying.{AllStay, all_end_there, ends_there};

use computed_style::Style;
use interpolation::same;
use style_data::{Completed, Running, Transitions};
use transition_list::matching_or_initial;
use value_types::{PropertyId, Value};

/// Whether each transition that runs or has completed ends at the after-change value, and `transition-property` names its
/// property. Where no other property changes its value, a style change event leaves all as they are then, whatever the
/// before-change style gives. Takes no memory.
pub fn all_end_there(transitions: &Transitions, after: &Style) -> bool
    ensures value { result ≡ all_end_there after.now transitions.now }
    ensures stay { IsTrue result → AllStay after.now transitions.now }
{
    all_run_there(transitions.running(), after)
        && all_completed_there(transitions.completed(), after)
}

fn all_run_there(running: &[(PropertyId, Running)], after: &Style) -> bool
    ensures { result ≡ list_all (λ r. ends_there after.now r.0 r.1.to) running.now }
{
    running
        .iter()
        .all(|item| ends_there(after, item.0, item.1.get().to))
}

fn all_completed_there(completed: &[(PropertyId, Completed)], after: &Style) -> bool
    ensures { result ≡ list_all (λ c. ends_there after.now c.0 c.1.to) completed.now }
{
    completed
        .iter()
        .all(|item| ends_there(after, item.0, item.1.to))
}

/// Whether the end value of a transition of the property is the after-change value, and there is a match.
fn ends_there(after: &Style, p: PropertyId, to: Value) -> bool
    ensures { result ≡ ends_there after.now p to }
{
    same(to, after.value(p)) && matching_or_initial(after.transitions(), p).is_some()
}
