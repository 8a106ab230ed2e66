//! The styles and transitions of an element at a style change event.

ghost use Rattle.std.specs.Prelude.{◌≡◌, ◌==◌, ◌&&◌, IfOk, IfSome, IsFalse, IsTrue, None, Some, length, option_copied, if◌then◌else◌};
ghost use Rattle.std.specs.Bool.{OnTrue};
ghost use Rattle.std.specs.List.{list_all};
ghost use Rattle.change_styles.specs.Inheritance.{handed_down};
ghost use Rattle.change_styles.specs.ThreeStyles.{AreRunning, after_change_style, before_change_style, current_style};
ghost use Rattle.style_data.specs.Transitions.{IsMoment};
ghost use Rattle.transition_update.specs.Idle.{AreOthersSame};
ghost use Rattle.transition_update.specs.Updates.{all_cancelled, cancelled_by, style_change, transitions_after};
ghost use Rattle.value_types.specs.Ranges.{IsSize};
ghost use Rattle.element_step.specs.Rendering.{is_rendered};
ghost use Rattle.element_step.specs.Restyling.{IsRestyled, IsUnchanged, RunOn};
ghost use Rattle.element_step.specs.Settling.{has_ended, have_same_values};
ghost use Rattle.element_step.specs.Updates.{after_parent, before_parent, cancelled_from, element_update, now_parent, transitions_from, unless_leaf};

use crate::downs::{
    after_parent, before_parent, hand_down_told, handed_alike, handed_unless_leaf, inherit_alike,
    none_inherited, now_parent,
};
use crate::rendering::is_rendered;
use crate::settling::{have_all_ended, have_ended, is_settled};
use change_styles::{
    after_style, before_style, handed_down, keep_font_size, now_style, with_running,
};
use fix_num::{Fix, Micros};
use std::alloc::{AllocError, Global};
use style_data::{
    Animation, DeclaredSet, Down, Entry, Gone, Inherited, NoSampling, Running, Sampling, Style,
    Transitions,
};
use transition_update::{
    StyleChangeEvent, UpdatedTransitions, all_end_there, cancel_transitions,
    update_kept_transitions, update_transitions,
};
use value_types::PropertyId;

/// What a style change event makes of an element's styles and transitions.
#[derive(Drop)]
pub(crate) struct Restyled {
    /// The current style.
    pub(crate) now: Style,
    pub(crate) transitions: Transitions,
    /// The transitions that it cancelled.
    pub(crate) gone: Vec<Gone>,
    /// Whether nothing will change by time alone.
    pub(crate) settled: bool,
    /// What it hands down; `None` of a leaf.
    pub(crate) down: Option<Down>,
}

/// The styles and transitions of an element after a style change event, and what it hands down, unless it's a leaf: nothing is
/// updated below it, so nobody asks for that.
pub(crate) fn restyle<A: Sampling, B: Sampling>(
    alloc: Global,
    entry: &Entry,
    declared: &DeclaredSet,
    parent: Option<&Down>,
    old: &A,
    new: &B,
    animations: &[Animation],
    root_size: Option<Fix>,
    event: StyleChangeEvent,
    leaf: bool,
) -> Result<Restyled, AllocError>
    requires time { IsMoment event.time.0 }
    requires size { IfSome root_size IsSize }
    ensures { IfOk result (λ r. IsRestyled leaf (element_update entry.now declared.now (option_copied parent.entry) (A.animated_value old.now) (B.animated_value new.now) animations.now root_size event) r) }
{
    if is_rendered(declared, parent) {
        restyle_rendered(
            alloc, entry, declared, parent, old, new, animations, root_size, event, leaf,
        )
    } else {
        restyle_unrendered(
            alloc, entry, declared, parent, old, new, animations, root_size, event, leaf,
        )
    }
}

/// An element that is rendered: its transitions start and stay by its before-change and after-change styles, where it
/// was rendered before.
fn restyle_rendered<A: Sampling, B: Sampling>(
    alloc: Global,
    entry: &Entry,
    declared: &DeclaredSet,
    parent: Option<&Down>,
    old: &A,
    new: &B,
    animations: &[Animation],
    root_size: Option<Fix>,
    event: StyleChangeEvent,
    leaf: bool,
) -> Result<Restyled, AllocError>
    requires rendered { IsTrue (is_rendered declared.now (option_copied parent)) }
    requires time { IsMoment event.time.0 }
    requires size { IfSome root_size IsSize }
    ensures { IfOk result (λ r. IsRestyled leaf (element_update entry.now declared.now (option_copied parent.entry) (A.animated_value old.now) (B.animated_value new.now) animations.now root_size event) r) }
{
    let above_after = after_parent(parent);
    let after = after_style(alloc, declared, above_after, old)?;
    let handed = handed_unless_leaf(&after, above_after, leaf);
    let handed = handed.as_ref();
    let changes = change_transitions(
        alloc, entry, declared, &after, handed, parent, old, event, leaf,
    )?;
    let running = changes.transitions.running();
    let current = current_of(
        alloc, declared, running, animations, &after, handed, parent, old, new, event.time, leaf,
    )?;
    let Current {
        now,
        settled,
        handed: handed_now,
    } = current;
    let ChangedTransitions {
        transitions,
        gone,
        before,
    } = changes;
    let down = hand_down_told(entry, root_size, before, handed, handed_now.as_ref(), true);
    Ok(Restyled {
        now,
        transitions,
        gone,
        settled,
        down,
    })
}

/// What is left of the transitions, what is cancelled, and what the before-change style hands down; `None` of a leaf.
#[derive(Drop)]
struct ChangedTransitions {
    transitions: Transitions,
    gone: Vec<Gone>,
    before: Option<Inherited>,
}

/// The transitions of a rendered element: none start where it wasn't rendered before.
fn change_transitions<A: Sampling>(
    alloc: Global,
    entry: &Entry,
    declared: &DeclaredSet,
    after: &Style,
    handed: Option<&Inherited>,
    parent: Option<&Down>,
    old: &A,
    event: StyleChangeEvent,
    leaf: bool,
) -> Result<ChangedTransitions, AllocError>
    requires time { IsMoment event.time.0 }
    requires after { after.now ≡ after_change_style declared.now (A.animated_value old.now) (after_parent (option_copied parent)) }
    requires handed { option_copied handed ≡ unless_leaf leaf (handed_down (after_parent (option_copied parent)) after.now) }
    ensures transitions { IfOk result (λ c. c.transitions ≡ transitions_from entry.now.rendered (style_change (before_change_style entry.now (A.animated_value old.now) event.time.0 (before_parent (option_copied parent.entry))) after.now event) entry.now.effects.transitions) }
    ensures gone { IfOk result (λ c. c.gone.items ≡ cancelled_from entry.now.rendered (style_change (before_change_style entry.now (A.animated_value old.now) event.time.0 (before_parent (option_copied parent.entry))) after.now event) entry.now.effects.transitions) }
    ensures before { IfOk result (λ c. c.before ≡ (if entry.now.rendered then unless_leaf leaf (handed_down (before_parent (option_copied parent.entry)) (before_change_style entry.now (A.animated_value old.now) event.time.0 (before_parent (option_copied parent.entry)))) else None)) }
{
    if !entry.rendered() {
        return Ok(ChangedTransitions {
            transitions: Transitions::new(alloc),
            gone: Vec::new(alloc),
            before: None,
        });
    }
    if run_on(entry, after) && is_unchanged(entry, declared, parent) {
        return Ok(ChangedTransitions {
            transitions: copy_transitions(alloc, entry)?,
            gone: Vec::new(alloc),
            before: handed.copied(),
        });
    }
    let before = before_change(
        alloc, entry, declared, after, handed, parent, old, event.time, leaf,
    )?;
    let updated = update_kept(alloc, entry, &before, after, event)?;
    Ok(ChangedTransitions {
        transitions: updated.transitions,
        gone: updated.gone,
        before: before.handed,
    })
}

/// The before-change style.
#[derive(Drop)]
struct BeforeChange {
    style: Style,
    /// Whether it's known to differ from the after-change style only in properties of which a transition is kept.
    others_same: bool,
    /// What it hands down; `None` of a leaf.
    handed: Option<Inherited>,
}

/// The before-change style: the after-change style with the values of the running transitions, where nothing else
/// tells them apart.
fn before_change<A: Sampling>(
    alloc: Global,
    entry: &Entry,
    declared: &DeclaredSet,
    after: &Style,
    handed: Option<&Inherited>,
    parent: Option<&Down>,
    old: &A,
    t: Micros,
    leaf: bool,
) -> Result<BeforeChange, AllocError>
    requires after { after.now ≡ after_change_style declared.now (A.animated_value old.now) (after_parent (option_copied parent)) }
    requires handed { option_copied handed ≡ unless_leaf leaf (handed_down (after_parent (option_copied parent)) after.now) }
    ensures style { IfOk result (λ b. b.style ≡ before_change_style entry.now (A.animated_value old.now) t.0 (before_parent (option_copied parent.entry))) }
    ensures others { IfOk result (λ b. IsTrue b.others_same → AreOthersSame b.style after.now entry.now.effects.transitions) }
    ensures handed { IfOk result (λ b. b.handed ≡ unless_leaf leaf (handed_down (before_parent (option_copied parent.entry)) (before_change_style entry.now (A.animated_value old.now) t.0 (before_parent (option_copied parent.entry))))) }
{
    let above = before_parent(parent);
    if is_unchanged(entry, declared, parent) && keep_font_size(entry.running()) {
        let style = with_running(alloc, after, entry.running(), t)?;
        let handed = handed_alike(&style, above, entry.running(), handed, leaf);
        return Ok(BeforeChange {
            style,
            others_same: true,
            handed,
        });
    }
    let style = before_style(alloc, entry, t, above, old)?;
    let handed = handed_unless_leaf(&style, above, leaf);
    Ok(BeforeChange {
        style,
        others_same: false,
        handed,
    })
}

/// Whether the before-change style is the after-change style but for transitions: the declarations are the same, and
/// both inherit the same.
fn is_unchanged(entry: &Entry, declared: &DeclaredSet, parent: Option<&Down>) -> bool
    ensures { OnTrue result (IsUnchanged entry.now declared.now (option_copied parent.entry)) }
{
    let before = before_parent(parent);
    let after = after_parent(parent);
    inherit_alike(before, after) && entry.declared().is_kept_like(declared)
}

/// Whether all transitions of an element stay as they are, and hand down nothing of their values, where nothing but them
/// tells its before-change style from its after-change style. No before-change style is needed then.
fn run_on(entry: &Entry, after: &Style) -> bool
    ensures { OnTrue result (RunOn after.now entry.now.effects.transitions) }
{
    match entry.effects() {
        None => true,
        Some(effects) => are_running_on(effects.transitions(), after),
    }
}

fn are_running_on(transitions: &Transitions, after: &Style) -> bool
    ensures { OnTrue result (RunOn after.now transitions.now) }
{
    none_inherited(transitions.running()) && all_end_there(transitions, after)
}

fn copy_transitions(alloc: Global, entry: &Entry) -> Result<Transitions, AllocError>
    ensures { IfOk result (λ t. t ≡ entry.now.effects.transitions) }
{
    match entry.effects() {
        None => Ok(Transitions::new(alloc)),
        Some(effects) => effects.transitions().copy(alloc),
    }
}

/// The rules of starting, applied to the entry's transitions.
fn update_kept(
    alloc: Global,
    entry: &Entry,
    before: &BeforeChange,
    after: &Style,
    event: StyleChangeEvent,
) -> Result<UpdatedTransitions, AllocError>
    requires time { IsMoment event.time.0 }
    requires others { IsTrue before.now.others_same → AreOthersSame before.now.style after.now entry.now.effects.transitions }
    ensures transitions { IfOk result (λ u. u.transitions ≡ transitions_after (style_change before.now.style after.now event) entry.now.effects.transitions) }
    ensures gone { IfOk result (λ u. u.gone.items ≡ cancelled_by (style_change before.now.style after.now event) entry.now.effects.transitions) }
{
    match entry.effects() {
        Some(effects) => update_asked(alloc, effects.transitions(), before, after, event),
        None => update_asked(alloc, &Transitions::new(alloc), before, after, event),
    }
}

/// The rules of starting, which are asked for the properties that may differ alone.
fn update_asked(
    alloc: Global,
    transitions: &Transitions,
    before: &BeforeChange,
    after: &Style,
    event: StyleChangeEvent,
) -> Result<UpdatedTransitions, AllocError>
    requires time { IsMoment event.time.0 }
    requires others { IsTrue before.now.others_same → AreOthersSame before.now.style after.now transitions.now }
    ensures transitions { IfOk result (λ u. u.transitions ≡ transitions_after (style_change before.now.style after.now event) transitions.now) }
    ensures gone { IfOk result (λ u. u.gone.items ≡ cancelled_by (style_change before.now.style after.now event) transitions.now) }
{
    if before.others_same {
        update_kept_transitions(alloc, transitions, &before.style, after, event)
    } else {
        update_transitions(alloc, transitions, &before.style, after, event)
    }
}

/// The current style, and whether nothing will change by time alone.
#[derive(Drop)]
struct Current {
    now: Style,
    settled: bool,
    /// What it hands down; `None` of a leaf.
    handed: Option<Inherited>,
}

/// The current style of a rendered element: the after-change style with the values of its transitions, where it inherits
/// the same and no animation gives a value.
fn current_of<A: Sampling, B: Sampling>(
    alloc: Global,
    declared: &DeclaredSet,
    running: &[(PropertyId, Running)],
    animations: &[Animation],
    after: &Style,
    handed: Option<&Inherited>,
    parent: Option<&Down>,
    old: &A,
    new: &B,
    t: Micros,
    leaf: bool,
) -> Result<Current, AllocError>
    requires time { IsMoment t.0 }
    requires running { AreRunning running.now }
    requires after { after.now ≡ after_change_style declared.now (A.animated_value old.now) (after_parent (option_copied parent)) }
    requires handed { option_copied handed ≡ unless_leaf leaf (handed_down (after_parent (option_copied parent)) after.now) }
    ensures now { IfOk result (λ c. c.now ≡ current_style declared.now (B.animated_value new.now) running.now t.0 (now_parent (option_copied parent.entry))) }
    ensures handed { IfOk result (λ c. c.handed ≡ unless_leaf leaf (handed_down (now_parent (option_copied parent.entry)) c.now)) }
    ensures settled { IfOk result (λ c. c.settled ≡ ((length running.now == 0) && list_all (has_ended t.0) animations.now && have_same_values after.now c.now)) }
{
    let above_after = after_parent(parent);
    let above_now = now_parent(parent);
    if inherit_alike(above_now, above_after)
        && old.gives_nothing()
        && new.gives_nothing()
        && keep_font_size(running)
    {
        let now = with_running(alloc, after, running, t)?;
        let handed = handed_alike(&now, above_now, running, handed, leaf);
        return Ok(Current {
            now,
            settled: have_all_ended(running, animations, t),
            handed,
        });
    }
    let now = now_style(alloc, declared, running, t, above_now, new)?;
    let settled = is_settled(running, animations, after, &now, t);
    let handed = handed_unless_leaf(&now, above_now, leaf);
    Ok(Current {
        now,
        settled,
        handed,
    })
}

/// An element that isn't rendered: all its transitions are cancelled, and it has neither these nor animations.
fn restyle_unrendered<A: Sampling, B: Sampling>(
    alloc: Global,
    entry: &Entry,
    declared: &DeclaredSet,
    parent: Option<&Down>,
    old: &A,
    new: &B,
    animations: &[Animation],
    root_size: Option<Fix>,
    event: StyleChangeEvent,
    leaf: bool,
) -> Result<Restyled, AllocError>
    requires rendered { IsFalse (is_rendered declared.now (option_copied parent)) }
    requires time { IsMoment event.time.0 }
    requires size { IfSome root_size IsSize }
    ensures { IfOk result (λ r. IsRestyled leaf (element_update entry.now declared.now (option_copied parent.entry) (A.animated_value old.now) (B.animated_value new.now) animations.now root_size event) r) }
{
    let above = now_parent(parent);
    let now = now_style(alloc, declared, &[], event.time, above, &NoSampling)?;
    let gone = cancel_kept(alloc, entry, event)?;
    let handed = handed_unless_leaf(&now, above, leaf);
    let handed = handed.as_ref();
    let before = before_handed(alloc, entry, parent, old, event, leaf)?;
    let down = hand_down_told(entry, root_size, before, handed, handed, false);
    Ok(Restyled {
        now,
        transitions: Transitions::new(alloc),
        gone,
        settled: have_ended(animations, event.time),
        down,
    })
}

fn cancel_kept(
    alloc: Global,
    entry: &Entry,
    event: StyleChangeEvent,
) -> Result<Vec<Gone>, AllocError>
    requires { IsMoment event.time.0 }
    ensures { IfOk result (λ gone. gone.items ≡ all_cancelled entry.now.effects.transitions event.time.0) }
{
    match entry.effects() {
        Some(effects) => cancel_transitions(alloc, effects.transitions(), event.time),
        None => cancel_transitions(alloc, &Transitions::new(alloc), event.time),
    }
}

/// What the before-change style hands down, where the element was rendered before and is no leaf. That style is made for this
/// alone.
fn before_handed<A: Sampling>(
    alloc: Global,
    entry: &Entry,
    parent: Option<&Down>,
    old: &A,
    event: StyleChangeEvent,
    leaf: bool,
) -> Result<Option<Inherited>, AllocError>
    ensures { IfOk result (λ b. b ≡ (if entry.now.rendered then unless_leaf leaf (handed_down (before_parent (option_copied parent.entry)) (before_change_style entry.now (A.animated_value old.now) event.time.0 (before_parent (option_copied parent.entry)))) else None)) }
{
    if leaf || !entry.rendered() {
        return Ok(None);
    }
    let above = before_parent(parent);
    let before = before_style(alloc, entry, event.time, above, old)?;
    Ok(Some(handed_down(&before, above)))
}
