//! The style change event of a frame.

ghost use Rattle.std.specs.Prelude.{◌≡◌, ◌<◌, ◌≤◌, IfOk, IfSome, IsTrue, length, map};
ghost use Rattle.doc_tree.specs.Element.{numbers_of};
ghost use Rattle.value_types.specs.Ranges.{IsSize};
ghost use Rattle.restyle.specs.Quiet.{IsQuietEvent, IsQuietFrame};
ghost use Rattle.restyle.specs.StyleChanges.{entry_after_event, frame_after, root_size_of};

use crate::frame::{Frame, FrameContent};
use crate::passes::{ByLevels, InTreeOrder, Pass};
use crate::plan::plan_of;
use doc_tree::laws;
use element_step::{ElementWork, QuietWork};
use fix_num::Fix;
use indexmap::IndexSet;
use std::alloc::{AllocError, Global};
use std::thread::Threads;
use style_data::Entry;

/// A frame after its style change event.
#[derive(Drop)]
pub struct Restyled {
    pub frame: Frame,
    /// How many elements were updated.
    pub updated: u32,
}

/// The style change event of a frame, on this thread: every element is updated, parents before their children (CSS Transitions
/// 1, section 3). Waits for nobody.
pub fn restyle_alone(alloc: Global, frame: Frame) -> Result<Restyled, AllocError>
    ensures frame { IfOk result (λ r. r.frame ≡ frame_after frame) }
    ensures updated { IfOk result (λ r. r.updated ≡ length frame.document.elements) }
{
    restyle_by(&InTreeOrder, alloc, frame, false, IndexSet::new(alloc))
}

/// The style change event of a frame, by levels: the elements of a level are updated beside each other, in at most so many pieces as there are
/// workers, after those of the levels above it. How many threads run the pieces isn't said; the frame is that of `restyle_alone`.
pub fn restyle<R: Threads + Sync>(
    rt: &R,
    alloc: Global,
    frame: Frame,
    workers: u32,
) -> Result<Restyled, AllocError>
    requires some { 0 < workers }
    requires most { workers ≤ 64 }
    ensures frame { IfOk result (λ r. r.frame ≡ frame_after frame) }
    ensures updated { IfOk result (λ r. r.updated ≡ length frame.document.elements) }
{
    restyle_by(
        &ByLevels { rt, workers },
        alloc,
        frame,
        false,
        IndexSet::new(alloc),
    )
}

/// The style change event of a frame, by this pass. Where the frame is known to be quiet but for elements that were touched, the others are passed over
/// where they are at rest under ancestors at rest.
pub(crate) fn restyle_by<P: Pass>(
    pass: &P,
    alloc: Global,
    frame: Frame,
    quiet: bool,
    touched: IndexSet<u32>,
) -> Result<Restyled, AllocError>
    requires ready { P.can_pass pass.now }
    requires quiet { IsTrue quiet → IsQuietFrame touched.keys frame }
    ensures frame { IfOk result (λ r. r.frame ≡ frame_after frame) }
    ensures updated { IfOk result (λ r. r.updated ≡ length frame.document.elements) }
{
    let FrameContent {
        mut tree,
        old,
        sheets,
        entries,
        time,
        generation,
    } = frame.into_content();
    tree.renumber();
    let updated = tree.len() as u32;
    let root_size = root_size_of(entries.as_slice());
    let work = ElementWork::new(time, generation, tree, old, sheets, root_size);
    let work = QuietWork {
        work,
        quiet,
        touched,
    };
    let entries = update_all(pass, alloc, &work, entries)?;
    let QuietWork { work, .. } = work;
    let (tree, sheets) = work.into_parts();
    let old = sheets.copy()?;
    let frame = Frame::new(FrameContent {
        tree,
        old,
        sheets,
        entries,
        time,
        generation,
    });
    Ok(Restyled { frame, updated })
}

/// The entries after the event, where these are those of the tree's elements in tree order.
fn update_all<P: Pass>(
    pass: &P,
    alloc: Global,
    work: &QuietWork,
    entries: Vec<(u32, Entry)>,
) -> Result<Vec<(u32, Entry)>, AllocError>
    requires ready { P.can_pass pass.now }
    requires numbers { map (λ x. x.0) entries.items ≡ numbers_of work.now.work.document.elements }
    requires quiet { IsTrue work.now.quiet → IsQuietEvent work.now.touched.keys work.now.work entries.items }
    ensures value { IfOk result (λ closing. closing.items ≡ map (λ x. (x.0, entry_after_event work.now.work entries.items x.0)) entries.items) }
    ensures numbers { IfOk result (λ closing. map (λ x. x.0) closing.items ≡ numbers_of work.now.work.document.elements) }
{
    animation_names::laws::paused_samples_stay();
    animation_names::laws::unchanged_lists_change_nothing();
    laws::ancestors_go_by_parents();
    laws::numbers_differ();
    laws::parents_stand_before();
    laws::subtrees_stand_together();
    transition_update::nothing_changes();
    let plan = plan_of(alloc, work.work.tree())?;
    pass.closing_entries(alloc, work, &plan, entries)
}

/// The root's font size at the event before; `None` where no frame has styled it.
fn root_size_of(entries: &[(u32, Entry)]) -> Option<Fix>
    ensures value { result ≡ root_size_of entries.now }
    ensures size { IfSome result IsSize }
{
    match entries {
        [root, ..] if root.1.styled() => Some(root.1.now().font_size()),
        _ => None,
    }
}
