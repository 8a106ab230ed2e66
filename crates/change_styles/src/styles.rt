//! The three styles of an element.

ghost use Rattle.std.specs.Prelude.{◌≡◌, IfOk, None, option_copied};
ghost use Rattle.std.specs.Bool.{OnTrue};
ghost use Rattle.computed_style.specs.ByProperty.{kept_for};
ghost use Rattle.computed_style.specs.Styles.{AreGiven, style_with};
ghost use Rattle.style_data.specs.Kept.{IsKeptFor};
ghost use Rattle.transition_start.specs.Sampling.{sample_of};
ghost use Rattle.value_types.specs.Validity.{IsValid};
ghost use Rattle.change_styles.specs.Inheritance.{handed_down};
ghost use Rattle.change_styles.specs.ThreeStyles.{AreRunning, after_change_style, before_change_style, current_style, transitioned_at};

use fix_num::Micros;
use mini_cascade::compute;
use std::alloc::{AllocError, Global};
use style_data::{DeclaredSet, Entry, Inherited, Running, Sampling, Style};
use transition_start::value_at;
use value_types::{PropertyId, Value};

/// The before-change style at time `t`, in microseconds, of an element that was rendered at the style change event
/// before, over what its parent hands down of its own: the style of that event, with its animations, which `old`
/// samples, and its running transitions as they are at this moment (CSS Transitions 1, section 3).
pub fn before_style<A: Sampling>(
    alloc: Global,
    entry: &Entry,
    t: Micros,
    parent: Option<&Inherited>,
    old: &A,
) -> Result<Style, AllocError>
    ensures { IfOk result (λ s. s ≡ before_change_style entry.now (A.animated_value old.now) t.0 (option_copied parent.entry)) }
{
    now_style(alloc, entry.declared(), entry.running(), t, parent, old)
}

/// The after-change style, over what the parent hands down of its own: by the declarations of now and the animations
/// of the event before, which `old` samples, and without transitions (CSS Transitions 1, section 3).
pub fn after_style<A: Sampling>(
    alloc: Global,
    d: &DeclaredSet,
    parent: Option<&Inherited>,
    old: &A,
) -> Result<Style, AllocError>
    ensures { IfOk result (λ s. s ≡ after_change_style d.now (A.animated_value old.now) (option_copied parent.entry)) }
{
    compute(alloc, d, old, &[], parent)
}

/// The current style at time `t`, in microseconds, over what the parent hands down of its own: by the declarations and the animations of
/// now, which `new` samples, and the transitions that run after the event (CSS Transitions 1, section 4). Takes memory for
/// their values where more than two run.
pub fn now_style<A: Sampling>(
    alloc: Global,
    d: &DeclaredSet,
    running: &[(PropertyId, Running)],
    t: Micros,
    parent: Option<&Inherited>,
    new: &A,
) -> Result<Style, AllocError>
    requires { AreRunning running.now }
    ensures { IfOk result (λ s. s ≡ current_style d.now (A.animated_value new.now) running.now t.0 (option_copied parent.entry)) }
{
    match running {
        [] => compute(alloc, d, new, &[], parent),
        [one] => compute(alloc, d, new, &[given_at(one, t)], parent),
        [one, other] => {
            let given = [given_at(one, t), given_at(other, t)];
            compute(alloc, d, new, &given, parent)
        }
        _ => {
            let given = values_at(alloc, running, t)?;
            compute(alloc, d, new, given.as_slice(), parent)
        }
    }
}

/// The style `base` with the values laid over it that running transitions give at time `t`, in microseconds (CSS
/// Transitions 1, section 4). Takes memory for their values where more than two run.
pub fn with_running(
    alloc: Global,
    base: &Style,
    running: &[(PropertyId, Running)],
    t: Micros,
) -> Result<Style, AllocError>
    requires { AreRunning running.now }
    ensures { IfOk result (λ s. s ≡ style_with base.now (transitioned_at running.now t.0)) }
{
    match running {
        [] => Style::layered(alloc, base, &[]),
        [one] => Style::layered(alloc, base, &[given_at(one, t)]),
        [one, other] => {
            let given = [given_at(one, t), given_at(other, t)];
            Style::layered(alloc, base, &given)
        }
        _ => {
            let given = values_at(alloc, running, t)?;
            Style::layered(alloc, base, given.as_slice())
        }
    }
}

/// Whether none of the running transitions is of the font size, which the values of other properties hang on.
pub fn keep_font_size(running: &[(PropertyId, Running)]) -> bool
    ensures { OnTrue result (kept_for PropertyId.FontSize running.now ≡ None) }
{
    running_for(running, PropertyId::FontSize).is_none()
}

fn running_for(running: &[(PropertyId, Running)], p: PropertyId) -> Option<Running>
    ensures { result ≡ kept_for p running.now }
{
    running
        .iter()
        .find(|item| item.0.number() == p.number())
        .map(|item| item.1)
}

/// What an element of this style hands down, where it inherits from this parent.
pub fn handed_down(style: &Style, parent: Option<&Inherited>) -> Inherited
    ensures { result ≡ handed_down (option_copied parent.entry) style.now }
{
    match parent {
        None => style.inherited(style.font_size()),
        Some(parent) => style.inherited(parent.get().root_size),
    }
}

/// The values that running transitions give at time `t`.
fn values_at(
    alloc: Global,
    running: &[(PropertyId, Running)],
    t: Micros,
) -> Result<Vec<(PropertyId, Value)>, AllocError>
    requires { AreRunning running.now }
    ensures value { IfOk result (λ given. given.items ≡ transitioned_at running.now t.0) }
    ensures valid { IfOk result (λ given. AreGiven given.items) }
{
    let mut given = Vec::new(alloc);
    for item in running {
        given.push(given_at(item, t))?;
    }
    Ok(given)
}

/// The value that a running transition gives its property at time `t`.
fn given_at(item: &(PropertyId, Running), t: Micros) -> (PropertyId, Value)
    requires { IsKeptFor item.now.0 item.now.1 }
    ensures value { result ≡ (item.now.0, sample_of item.now.0 item.now.1 t.0) }
    ensures valid { IsValid result.0 result.1 }
{
    (item.0, value_at(item.0, &item.1, t))
}
