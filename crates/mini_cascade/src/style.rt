//! Computed styles.

ghost use Rattle.std.specs.Prelude.{◌≡◌, ◌<◌, ◌≤◌, IfOk, IfNone, IfSome, option_copied};
ghost use Rattle.timing_types.specs.TimingLists.{initial_animations};
ghost use Rattle.value_types.specs.Properties.{number_of};
ghost use Rattle.value_types.specs.TransitionLists.{initial_transitions};
ghost use Rattle.value_types.specs.Validity.{IsValid};
ghost use Rattle.computed_style.specs.ComputedStyles.{computed_font_size, computed_style, style_sources, transition_lists_of, animation_lists_of};
ghost use Rattle.computed_style.specs.Styles.{AreGiven, initial_values, style_of_values, values_with};
ghost use Rattle.mini_cascade.specs.Sources.{AreInitial, IsNextChanged, computed_values};

use crate::values::{computed_font_size, computed_values, is_initial, value_of_property};
use computed_style::{DeclaredSet, Inherited, Sampling, Style};
use interpolation::same;
use std::alloc::{AllocError, Global};
use value_types::{PropertyId, Value, initial_value};

/// The computed style of an element with these winning declarations, over what animations and transitions give
/// its properties and what its parent hands down, of which the root has nothing (CSS Cascade 5, section 6
/// "Cascading", section 7 "Defaulting"). Of two values that transitions give one property the first counts. Takes
/// memory at most once: where more than two values aren't initial.
pub fn compute<A: Sampling>(
    alloc: Global,
    d: &DeclaredSet,
    anims: &A,
    transitions: &[(PropertyId, Value)],
    parent: Option<&Inherited>,
) -> Result<Style, AllocError>
    requires { AreGiven transitions.now }
    ensures { IfOk result (λ s. s ≡ computed_style (style_sources d.now (A.animated_value anims.now) transitions.now (option_copied parent.entry))) }
{
    let font_size = computed_font_size(d, anims, transitions, parent);
    let Some(first) = next_changed(d, anims, transitions, parent, font_size, 0) else {
        return with_few(alloc, d, &[]);
    };
    let from = first.0.number() as usize + 1;
    let Some(second) = next_changed(d, anims, transitions, parent, font_size, from) else {
        return with_few(alloc, d, &[first]);
    };
    let from = second.0.number() as usize + 1;
    if next_changed(d, anims, transitions, parent, font_size, from).is_none() {
        return with_few(alloc, d, &[first, second]);
    }
    let values = computed_values(d, anims, transitions, parent, font_size);
    Style::new(alloc, values, d.transition_lists()?, d.animation_lists()?)
}

/// The initial values with these in place of some, and the timing lists of the declarations.
fn with_few(
    alloc: Global,
    d: &DeclaredSet,
    given: &[(PropertyId, Value)],
) -> Result<Style, AllocError>
    requires { AreGiven given.now }
    ensures { IfOk result (λ s. s ≡ style_of_values (values_with initial_values given.now) (transition_lists_of d.now) (animation_lists_of d.now)) }
{
    let transitions = d.transition_lists()?;
    Style::with_few(alloc, given, transitions, d.animation_lists()?)
}

/// The next property from this number on whose value isn't the initial one, and its value; `None` where there is none.
fn next_changed<A: Sampling>(
    d: &DeclaredSet,
    anims: &A,
    transitions: &[(PropertyId, Value)],
    parent: Option<&Inherited>,
    font_size: Value,
    from: usize,
) -> Option<(PropertyId, Value)>
    requires given { AreGiven transitions.now }
    requires font_size { font_size ≡ computed_font_size (style_sources d.now (A.animated_value anims.now) transitions.now (option_copied parent)) }
    requires valid { IsValid PropertyId.FontSize font_size }
    requires from { from ≤ 24 }
    ensures found { IfSome result (IsNextChanged (computed_values (style_sources d.now (A.animated_value anims.now) transitions.now (option_copied parent.entry))) from) }
    ensures none { IfNone result (AreInitial (computed_values (style_sources d.now (A.animated_value anims.now) transitions.now (option_copied parent.entry))) from 24) }
{
    for i in from..24 {
        let p = property_at(i);
        if is_initial(d, anims, transitions, p) {
            continue;
        }
        let value = value_of_property(d, anims, transitions, parent, font_size, p);
        if !same(value, initial_value(p)) {
            return Some((p, value));
        }
    }
    None
}

/// The property of this number.
fn property_at(i: usize) -> PropertyId
    requires { i < 24 }
    ensures { number_of result ≡ i }
{
    PropertyId::ALL[i]
}
