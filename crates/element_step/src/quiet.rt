//! The work of a style change event that passes over elements at rest.

ghost use Rattle.std.specs.Prelude.{◌≡◌, ◌&&◌, ◌||◌, is_some, not, nat_eq, true, IfOk, IfSome, None, Some, option_copied, unwrap_or, if◌then◌else◌};
ghost use Rattle.std.specs.Bool.{OnTrue};
ghost use Rattle.std.specs.List.{list_any};
ghost use Rattle.element_step.specs.Alike.{AreOfOneKind, GivesTheSame};
ghost use Rattle.element_step.specs.Quiet.{declared_in, handed_at_rest, has_no_effects, is_at_rest, is_untouched_below, moving_down, moving_told, quiet_down, quiet_meaning, quiet_outcome};
ghost use Rattle.pass_core.specs.Work.{asked, IsSibling};
ghost use Rattle.element_step.specs.Updates.{unless_leaf};
ghost use Rattle.element_step.specs.Works.{outcome_with, top_down};

use crate::alike::tell_the_same;
use crate::downs::now_parent;
use crate::work::{ElementWork, top, update_element, update_unedited};
use cascade_sort::{are_alike, siblings_alike_declare_alike};
use change_styles::handed_down;
use indexmap::IndexSet;
use pass_core::{Sibling, Step, TreeWork};
use std::alloc::{AllocError, Global};
use style_data::{Down, Entry, Inherited};

/// A style change event of a document, as a work on its tree. Where it is quiet, which is to say that the sheets are those of the event before, and
/// so are all elements but those that were touched, the others are passed over where they are at rest under ancestors at rest.
#[derive(Drop)]
pub struct QuietWork {
    pub work: ElementWork,
    pub quiet: bool,
    /// The elements that were added or edited since the event before.
    pub touched: IndexSet<u32>,
}

/// What an element hands to those below it.
#[derive(Clone, Copy)]
pub struct QuietDown {
    /// What its update hands down; none above the root.
    pub parent: Option<Down>,
    /// Whether it and its ancestors are at rest in a quiet event.
    pub rests: bool,
    /// Whether neither it nor an ancestor was touched in a quiet event.
    pub untouched: bool,
}

impl TreeWork for QuietWork {
    ghost use Rattle.std.specs.Prelude.{IfSome};
    ghost use Rattle.element_step.specs.Quiet.{quiet_meaning};
    ghost use Rattle.pass_core.specs.Work.{asked, IsSibling};

    type Entry = Entry;

    type Down = QuietDown;

    ghost meaning = { λ w. quiet_meaning w.quiet w.touched.keys w.work };

    fn update<'a>(
        &self,
        alloc: Global,
        element: u32,
        entry: &'a Entry,
        down: &'a QuietDown,
        sibling: Option<Sibling<'a, Entry, QuietDown>>,
        leaf: bool,
    ) -> Result<Step<Entry, Option<QuietDown>>, AllocError>
        requires { IfSome sibling (IsSibling (quiet_meaning self.now.quiet self.now.touched.keys self.now.work) down.now) }
        ensures { IfOk result (λ step. step ≡ asked leaf ((quiet_meaning self.now.quiet self.now.touched.keys self.now.work).outcome element entry.now down.entry.now)) }
    {
        update_unless_at_rest(alloc, self, element, entry, down, sibling, leaf)
    }

    fn top(&self) -> QuietDown {
        QuietDown {
            parent: None,
            rests: self.quiet,
            untouched: self.quiet,
        }
    }
}

/// The update of an element: where it is untouched and at rest, under ancestors at rest in a quiet event, it is kept as it is; what a
/// sibling's update gave is taken over where it is the element's outcome too, and tells what is asked for.
fn update_unless_at_rest(
    alloc: Global,
    work: &QuietWork,
    element: u32,
    entry: &Entry,
    down: &QuietDown,
    sibling: Option<Sibling<'_, Entry, QuietDown>>,
    leaf: bool,
) -> Result<Step<Entry, Option<QuietDown>>, AllocError>
    requires { IfSome sibling (IsSibling (quiet_meaning work.now.quiet work.now.touched.keys work.now.work) down.now) }
    ensures { IfOk result (λ step. step ≡ asked leaf (quiet_outcome work.now.touched.keys work.now.work element entry.now down.entry.now)) }
{
    let untouched = is_untouched(work, element, down.untouched);
    if is_passed_over(untouched, down.rests, entry) {
        return Ok(Step::Kept(resting_down(entry, down.parent.as_ref(), leaf)));
    }
    if let Some(sibling) = sibling {
        if tells_enough(&sibling, leaf)
            && gives_the_same(work, untouched, element, entry, down, &sibling)
        {
            let after = sibling.after.copy(alloc)?;
            return Ok(Step::Updated(after, taken_down(&sibling, leaf)));
        }
    }
    let parent = down.parent.as_ref();
    let step = update_below(alloc, &work.work, untouched, element, entry, parent, leaf)?;
    Ok(moving_step(untouched, step))
}

/// What an element at rest hands down under ancestors at rest; `None` of a leaf.
fn resting_down(entry: &Entry, parent: Option<&Down>, leaf: bool) -> Option<QuietDown>
    ensures { result ≡ unless_leaf leaf (quiet_down (Some (handed_at_rest entry.now (option_copied parent.entry))) true true) }
{
    if leaf {
        return None;
    }
    Some(QuietDown {
        parent: Some(handed_at_rest(entry, parent)),
        rests: true,
        untouched: true,
    })
}

/// Whether the sibling tells what is asked for: what is handed down, unless the element is a leaf.
fn tells_enough(sibling: &Sibling<'_, Entry, QuietDown>, leaf: bool) -> bool
    ensures { result ≡ (leaf || is_some sibling.now.down) }
{
    leaf || sibling.down.is_some()
}

/// What is taken over of what the sibling hands down; `None` of a leaf.
fn taken_down(sibling: &Sibling<'_, Entry, QuietDown>, leaf: bool) -> Option<QuietDown>
    ensures { result ≡ (if leaf then None else option_copied sibling.now.down) }
{
    if leaf { None } else { sibling.down.copied() }
}

/// Whether the sibling's update gave what the element's gives: nothing tells them apart but their places, and it left no effects, which
/// alone note these.
fn gives_the_same(
    work: &QuietWork,
    untouched: bool,
    element: u32,
    entry: &Entry,
    down: &QuietDown,
    sibling: &Sibling<'_, Entry, QuietDown>,
) -> bool
    requires { untouched ≡ is_untouched_below work.now.touched.keys element down.now }
    ensures { OnTrue result (GivesTheSame work.now.touched.keys work.now.work element entry.now down.now sibling.now) }
{
    has_no_effects(sibling.after)
        && is_untouched(work, sibling.element, down.untouched) == untouched
        && tell_the_same(entry, sibling.before)
        && are_of_one_kind(&work.work, element, sibling.element)
}

/// Whether the elements are siblings alike.
fn are_of_one_kind(work: &ElementWork, n: u32, m: u32) -> bool
    ensures { OnTrue result (AreOfOneKind work.now n m) }
{
    siblings_alike_declare_alike();
    let tree = work.tree();
    // What its contract says of the tree is wanted.
    let _ = tree.len();
    are_alike(tree, n, m)
}

/// Whether the element is untouched, under ancestors of which this says whether they are.
fn is_untouched(work: &QuietWork, element: u32, above: bool) -> bool
    ensures { result ≡ (above && not (list_any (nat_eq element) work.now.touched.keys)) }
{
    above && !work.touched.contains(&element)
}

/// The update of an element over what its parent hands down.
fn update_below(
    alloc: Global,
    work: &ElementWork,
    untouched: bool,
    element: u32,
    entry: &Entry,
    parent: Option<&Down>,
    leaf: bool,
) -> Result<Step<Entry, Option<Down>>, AllocError>
    ensures { IfOk result (λ step. step ≡ asked leaf (outcome_with work.now element entry.now (declared_in untouched work.now element entry.now) (unwrap_or (option_copied parent.entry) top_down))) }
{
    match parent {
        None => update_in(alloc, work, untouched, element, entry, &top(), leaf),
        Some(down) => update_in(alloc, work, untouched, element, entry, down, leaf),
    }
}

/// The same under what is handed down: where it is untouched the element declares what it did at the event before.
fn update_in(
    alloc: Global,
    work: &ElementWork,
    untouched: bool,
    element: u32,
    entry: &Entry,
    down: &Down,
    leaf: bool,
) -> Result<Step<Entry, Option<Down>>, AllocError>
    ensures { IfOk result (λ step. step ≡ asked leaf (outcome_with work.now element entry.now (declared_in untouched work.now element entry.now) down.entry.now)) }
{
    if untouched {
        update_unedited(alloc, work, element, entry, down, leaf)
    } else {
        update_element(alloc, work, element, entry, down, leaf)
    }
}

/// The outcome, of an element that isn't at rest or stands under one that isn't.
fn moving_step(untouched: bool, step: Step<Entry, Option<Down>>) -> Step<Entry, Option<QuietDown>>
    ensures { result ≡ moving_told untouched step }
{
    match step {
        Step::Updated(entry, down) => Step::Updated(entry, moving_down(untouched, down)),
        Step::Kept(down) => Step::Kept(moving_down(untouched, down)),
    }
}

/// What such an element hands down, where that is told.
fn moving_down(untouched: bool, down: Option<Down>) -> Option<QuietDown>
    ensures { result ≡ moving_down untouched down }
{
    let down = down?;
    Some(QuietDown {
        parent: Some(down),
        rests: false,
        untouched,
    })
}

/// Whether the element is passed over: it is untouched and at rest, under ancestors of which this says whether they rest.
fn is_passed_over(untouched: bool, rests: bool, entry: &Entry) -> bool
    ensures { result ≡ (untouched && rests && is_at_rest entry.now) }
{
    untouched && rests && is_at_rest(entry)
}

/// Whether the element is at rest: a frame has styled it, nothing of it will change by time alone, and it has no effects.
fn is_at_rest(entry: &Entry) -> bool
    ensures { result ≡ is_at_rest entry.now }
{
    entry.styled() && entry.settled() && has_no_effects(entry)
}

fn has_no_effects(entry: &Entry) -> bool
    ensures { result ≡ has_no_effects entry.now.effects }
{
    entry.running().is_empty()
        && entry.completed().is_empty()
        && entry.animations().is_empty()
        && entry.gone().is_empty()
}

/// What an element at rest hands down.
fn handed_at_rest(entry: &Entry, parent: Option<&Down>) -> Down
    ensures { result ≡ handed_at_rest entry.now (option_copied parent.entry) }
{
    let above = now_parent(parent);
    let now = handed_down(entry.now(), above);
    let rendered = entry.rendered();
    Down {
        before: before_at_rest(rendered, now),
        after: now,
        now,
        rendered,
        changed: false,
    }
}

/// What a before-change style hands down, where the element was rendered.
fn before_at_rest(rendered: bool, now: Inherited) -> Option<Inherited>
    ensures { result ≡ (if rendered then Some now else None) }
{
    if rendered { Some(now) } else { None }
}
