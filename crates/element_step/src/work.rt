//! The work of a style change event.

ghost use Rattle.std.specs.Prelude.{◌≡◌, [], IfOk, IfSome, IsTrue, option_copied, unwrap_or};
ghost use Rattle.animation_names.specs.Updates.{paired_of};
ghost use Rattle.doc_tree.specs.Element.{is_in};
ghost use Rattle.pass_core.specs.Work.{asked};
ghost use Rattle.style_data.specs.Entries.{AreAscending};
ghost use Rattle.style_data.specs.Transitions.{IsMoment};
ghost use Rattle.timing_types.specs.TimingLists.{initial_animations};
ghost use Rattle.value_types.specs.Ranges.{IsSize};
ghost use Rattle.element_step.specs.Updates.{unless_leaf};
ghost use Rattle.element_step.specs.Works.{animation_lists_after, animations_before, animations_updated, document_event, entry_with, event_at, from_parent, handed_with, outcome_in, outcome_with, top_down};

use crate::rendering::is_rendered;
use crate::update::{ElementUpdated, update_entry};
use animation_names::{Paired, match_names, sampled};
use cascade_sort::declared_like;
use doc_tree::Tree;
use fix_num::{Fix, Micros};
use pass_core::{Sibling, Step, TreeWork};
use sheet_types::Sheets;
use std::alloc::{AllocError, Global};
use std::marker::Model;
use style_data::{Animation, DeclaredSet, Down, Entry, Inherited, Shared};
use timing_types::AnimationLists;
use transition_update::StyleChangeEvent;

/// A style change event of a document, as a work on its tree: the update of each element over what its parent hands down
/// (CSS Transitions 1, section 3). Contracts see it as what it holds.
#[derive(Drop)]
pub struct ElementWork {
    time: Micros,
    generation: u32,
    tree: Tree,
    old: Sheets,
    sheets: Sheets,
    root_size: Option<Fix>,
}

impl Model for ElementWork {
    ghost use Rattle.std.specs.Prelude.{IfSome};
    ghost use Rattle.style_data.specs.Transitions.{IsMoment};
    ghost use Rattle.value_types.specs.Ranges.{IsSize};
    ghost use Rattle.element_step.specs.Works.{DocumentEvent, document_event};

    ghost Value = { DocumentEvent };

    ghost view = { λ w. document_event w.time w.generation w.tree w.old w.sheets w.root_size };

    ghost invariant = { λ w. IsMoment w.time.0 × IfSome w.root_size IsSize };
}

impl ElementWork {
    /// The event at this time, in microseconds, in the frame of this number, with the sheets of the event before, those of now,
    /// and the root's font size at the event before, if there was one. Takes no memory.
    pub fn new(
        time: Micros,
        generation: u32,
        tree: Tree,
        old: Sheets,
        sheets: Sheets,
        root_size: Option<Fix>,
    ) -> ElementWork
        requires time { IsMoment time.0 }
        requires size { IfSome root_size IsSize }
        ensures { result ≡ document_event time generation tree old sheets root_size }
    {
        ElementWork {
            time,
            generation,
            tree,
            old,
            sheets,
            root_size,
        }
    }

    /// The document.
    pub fn tree(&self) -> &Tree
        ensures { result.now ≡ self.now.document }
    {
        &self.tree
    }

    /// The document and the sheets of now. Takes no memory.
    pub fn into_parts(self) -> (Tree, Sheets)
        ensures tree { result.0 ≡ self.document }
        ensures sheets { result.1 ≡ self.sheets }
    {
        let ElementWork { tree, sheets, .. } = self;
        (tree, sheets)
    }

    /// The event at an element, whose tree position a new transition or animation notes.
    fn event_at(&self, element: u32) -> StyleChangeEvent
        ensures value { result ≡ event_at self.now element }
        ensures time { IsMoment result.time.0 }
        ensures size { IfSome self.now.root_size IsSize }
    {
        StyleChangeEvent {
            time: self.time,
            generation: self.generation,
            position: self.tree.position(element).unwrap_or(0),
        }
    }
}

impl TreeWork for ElementWork {
    ghost use Rattle.std.specs.Prelude.{IfSome};
    ghost use Rattle.element_step.specs.Works.{element_meaning};
    ghost use Rattle.pass_core.specs.Work.{asked, IsSibling};

    type Entry = Entry;

    type Down = Down;

    ghost meaning = { λ w. element_meaning w };

    fn update<'a>(
        &self,
        alloc: Global,
        element: u32,
        entry: &'a Entry,
        down: &'a Down,
        _sibling: Option<Sibling<'a, Entry, Down>>,
        leaf: bool,
    ) -> Result<Step<Entry, Option<Down>>, AllocError>
        requires { IfSome _sibling (IsSibling (element_meaning self.now) down.now) }
        ensures { IfOk result (λ step. step ≡ asked leaf ((element_meaning self.now).outcome element entry.now down.entry.now)) }
    {
        update_element(alloc, self, element, entry, down, leaf)
    }

    fn top(&self) -> Down {
        top()
    }
}

/// What is handed down to an element whose parent isn't in the plan: the initial values.
pub(crate) fn top() -> Down
    ensures { result ≡ top_down }
{
    Down {
        before: None,
        after: Inherited::initial(),
        now: Inherited::initial(),
        rendered: true,
        changed: false,
    }
}

/// The update of an element of the document at the event, over what its parent hands down: its new entry, and what it hands
/// down. What a leaf hands down nobody asks for, so it isn't made. An element that isn't in the tree is kept, with what it was
/// handed.
pub fn update_element(
    alloc: Global,
    work: &ElementWork,
    element: u32,
    entry: &Entry,
    down: &Down,
    leaf: bool,
) -> Result<Step<Entry, Option<Down>>, AllocError>
    ensures { IfOk result (λ step. step ≡ asked leaf (outcome_in work.now element entry.now down.entry.now)) }
{
    if !work.tree.contains(element) {
        return Ok(Step::Kept(handed_on(down, leaf)));
    }
    let last = entry.declared();
    let declared = declared_like(alloc, &work.sheets, &work.tree, element, last)?;
    update_declaring(alloc, work, element, entry, declared, down, leaf)
}

/// The same where the element declares what it did at the event before.
pub(crate) fn update_unedited(
    alloc: Global,
    work: &ElementWork,
    element: u32,
    entry: &Entry,
    down: &Down,
    leaf: bool,
) -> Result<Step<Entry, Option<Down>>, AllocError>
    ensures { IfOk result (λ step. step ≡ asked leaf (outcome_with work.now element entry.now entry.now.declared down.entry.now)) }
{
    if !work.tree.contains(element) {
        return Ok(Step::Kept(handed_on(down, leaf)));
    }
    let declared = entry.declared().copy()?;
    update_declaring(alloc, work, element, entry, declared, down, leaf)
}

/// The same where the element is in the tree and declares this.
fn update_declaring(
    alloc: Global,
    work: &ElementWork,
    element: u32,
    entry: &Entry,
    declared: DeclaredSet,
    down: &Down,
    leaf: bool,
) -> Result<Step<Entry, Option<Down>>, AllocError>
    requires { IsTrue (is_in element work.now.document.elements) }
    ensures { IfOk result (λ step. step ≡ asked leaf (outcome_with work.now element entry.now declared down.entry.now)) }
{
    let parent = from_parent(work, element, down);
    let updated = update_within(alloc, work, element, entry, declared, parent, leaf)?;
    Ok(Step::Updated(updated.entry, updated.down))
}

/// What an element that isn't in the tree hands on; `None` of a leaf.
fn handed_on(down: &Down, leaf: bool) -> Option<Down>
    ensures { result ≡ unless_leaf leaf down.entry.now }
{
    if leaf { None } else { Some(*down) }
}

/// What the parent hands down; `None` of the root.
fn from_parent<'a>(work: &ElementWork, element: u32, down: &'a Down) -> Option<&'a Down>
    ensures { option_copied result ≡ from_parent work.now element down.entry.now }
{
    match work.tree.parent(element) {
        None => None,
        Some(_) => Some(down),
    }
}

/// The update of an element that declares this.
fn update_within(
    alloc: Global,
    work: &ElementWork,
    element: u32,
    entry: &Entry,
    declared: DeclaredSet,
    parent: Option<&Down>,
    leaf: bool,
) -> Result<ElementUpdated, AllocError>
    ensures entry { IfOk result (λ u. u.entry ≡ entry_with work.now element entry.now declared (option_copied parent.entry)) }
    ensures down { IfOk result (λ u. u.down ≡ unless_leaf leaf (handed_with work.now element entry.now declared (option_copied parent.entry))) }
{
    let event = work.event_at(element);
    let rendered = is_rendered(&declared, parent);
    let old = sampled(alloc, entry.animations(), &work.old, work.time)?;
    let paired = update_animations(alloc, work, event, rendered, entry, &declared)?;
    let new = sampled(alloc, paired.animations.as_slice(), &work.sheets, work.time)?;
    update_entry(
        alloc,
        entry,
        declared,
        parent,
        &old,
        &new,
        paired,
        work.root_size,
        event,
        leaf,
    )
}

/// The animations of an element after the event, and those that end at it.
fn update_animations(
    alloc: Global,
    work: &ElementWork,
    event: StyleChangeEvent,
    rendered: bool,
    entry: &Entry,
    declared: &DeclaredSet,
) -> Result<Paired, AllocError>
    requires { IsMoment event.time.0 }
    ensures animations { IfOk result (λ p. p.animations.items ≡ (animations_updated work.now event rendered entry.now declared.now).animations) }
    ensures gone { IfOk result (λ p. p.gone.items ≡ (animations_updated work.now event rendered entry.now declared.now).gone) }
    ensures ascending { IfOk result (λ p. AreAscending p.animations.items) }
{
    let before = animations_before(entry, rendered);
    let lists = lists_after(declared, rendered)?;
    match lists {
        Some(lists) => pair(alloc, before, lists.get(), &work.sheets, event),
        None if before.is_empty() => Ok(none(alloc)),
        None => {
            let lists = AnimationLists::initial(alloc)?;
            pair(alloc, before, &lists, &work.sheets, event)
        }
    }
}

/// The animations that may go on: none where the element is rendered again.
fn animations_before(entry: &Entry, rendered: bool) -> &[Animation]
    ensures { result.now ≡ animations_before rendered entry.now }
{
    if rendered && !entry.rendered() {
        return &[];
    }
    entry.animations()
}

/// The lists that time its animations; `None` where they are initial, as those of an element that isn't rendered.
fn lists_after(
    declared: &DeclaredSet,
    rendered: bool,
) -> Result<Option<Shared<AnimationLists>>, AllocError>
    ensures { IfOk result (λ lists. unwrap_or lists initial_animations ≡ animation_lists_after rendered declared.now) }
{
    if rendered {
        declared.animation_lists()
    } else {
        Ok(None)
    }
}

/// The animations by the names of the lists, and those that end.
fn pair(
    alloc: Global,
    before: &[Animation],
    lists: &AnimationLists,
    sheets: &Sheets,
    event: StyleChangeEvent,
) -> Result<Paired, AllocError>
    requires { IsMoment event.time.0 }
    ensures animations { IfOk result (λ p. p.animations.items ≡ (paired_of before.now lists.now sheets.now event.time event.generation event.position).animations) }
    ensures gone { IfOk result (λ p. p.gone.items ≡ (paired_of before.now lists.now sheets.now event.time event.generation event.position).gone) }
    ensures ascending { IfOk result (λ p. AreAscending p.animations.items) }
{
    match_names(
        alloc,
        before,
        lists,
        sheets,
        event.time,
        event.generation,
        event.position,
    )
}

/// No animation, and none that ends.
fn none(alloc: Global) -> Paired
    ensures animations { result.animations.items ≡ [] }
    ensures gone { result.gone.items ≡ [] }
{
    Paired {
        animations: Vec::new(alloc),
        gone: Vec::new(alloc),
    }
}

/// Whether nothing of the element will change by time alone: no transition runs, its animations have ended, and its after-change
/// style was its current one. Takes no memory.
pub fn settled(entry: &Entry) -> bool
    ensures { result ≡ entry.now.settled }
{
    entry.settled()
}
