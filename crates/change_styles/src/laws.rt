//! What holds of the three styles by their definitions alone.

ghost use Rattle.std.specs.Prelude.{◌≡◌, ℤ, IsTrue, List, [], map, not, None, Option};
ghost use Rattle.value_types.specs.declared.property.PropertyId.{PropertyId};
ghost use Rattle.computed_style.specs.ByProperty.{kept_for};
ghost use Rattle.computed_style.specs.ComputedStyles.{AnimatedValues};
ghost use Rattle.computed_style.specs.Styles.{style_with};
ghost use Rattle.computed_style.specs.Winners.{Declarations};
ghost use Rattle.computed_style.specs.declared.inherited.InheritedValues.{InheritedValues};
ghost use Rattle.style_data.specs.Entries.{EntryParts};
ghost use Rattle.style_data.specs.declared.transition.Transition.{Transition};
ghost use Rattle.change_styles.specs.Inheritance.{after_change_along, after_change_of, before_change_along, before_change_of, current_along, current_of, handed_along};
ghost use Rattle.change_styles.specs.ThreeStyles.{ElementChange, after_change_style, before_change_style, current_style, no_animations, transitioned_at, without_running};

/// Five inherited values handed down from element to element stand for the whole styles of the ancestors: over what is
/// handed down along the path from the root each of the three styles is that of its recursion over whole styles.
pub fn five_values_stand_for_styles()
    ensures before { (t : ℤ) (path : List ElementChange) (e : ElementChange)
        → before_change_style e.entry e.old t (handed_along None (map (before_change_of t) path)) ≡ before_change_along t path e }
    ensures after { (t : ℤ) (path : List ElementChange) (e : ElementChange) → IsTrue e.rendered
        → after_change_style e.declared e.old (handed_along None (map after_change_of path)) ≡ after_change_along t path e }
    ensures current { (t : ℤ) (path : List ElementChange) (e : ElementChange) → IsTrue e.rendered
        → current_style e.declared e.new e.running t (handed_along None (map (current_of t) path)) ≡ current_along t path e }
    ensures unrendered { (t : ℤ) (path : List ElementChange) (e : ElementChange) → IsTrue (not e.rendered)
        → (current_style e.declared no_animations [] t (handed_along None (map (current_of t) path)) ≡ current_along t path e)
        × (after_change_along t path e ≡ current_along t path e) }
{}

/// The after-change style of a rendered element hangs on no running transition, neither of it nor of its ancestors.
pub fn without_running_transitions()
    ensures { (t : ℤ) (path : List ElementChange) (e : ElementChange) → IsTrue e.rendered
        → after_change_along t (map without_running path) (without_running e) ≡ after_change_along t path e }
{}

/// Where no transition runs and the declarations are those of the event before, the before-change style is the
/// after-change style, over the same inherited values; and without transitions, where the animations give what they
/// gave, the current style is.
pub fn nothing_changes()
    ensures before { (e : EntryParts) (old : AnimatedValues) (t : ℤ) (parent : Option InheritedValues) → e.effects.transitions.running ≡ []
        → before_change_style e old t parent ≡ after_change_style e.declared old parent }
    ensures current { (d : Declarations) (animated : AnimatedValues) (t : ℤ) (parent : Option InheritedValues)
        → current_style d animated [] t parent ≡ after_change_style d animated parent }
{}

/// Where animations give what they gave and no transition of the font size runs, the current style is the after-change
/// style with the values of the running transitions laid over it, over the same inherited values.
pub fn transitions_lie_on_top()
    ensures { (d : Declarations) (animated : AnimatedValues) (running : List (PropertyId × Transition)) (t : ℤ) (parent : Option InheritedValues)
        → kept_for PropertyId.FontSize running ≡ None
        → current_style d animated running t parent ≡ style_with (after_change_style d animated parent) (transitioned_at running t) }
{}
