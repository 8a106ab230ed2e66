//! The pass on one thread, in tree order.

ghost use Rattle.std.specs.Prelude.{◌≡◌, ◌<◌, ℕ, length, slice_set, IfOk, IfSome, IsSome, IsTrue, OnOk, Some};
ghost use Rattle.std.specs.List.{HoldsAt};
ghost use Rattle.pass_core.specs.Passes.{are_distinct, have_entries, value_for, with_value, IsPassOutcome};
ghost use Rattle.pass_core.specs.Plans.{is_proper};
ghost use Rattle.pass_core.specs.Downs.{down_for};
ghost use Rattle.pass_core.specs.InOrder.{asked_of, CameLast, IsLast, IsNoted};
ghost use Rattle.pass_core.specs.Work.{IsSibling, Meaning};

use crate::downs::Downs;
use crate::entries::index_of;
use crate::plan::{Place, Plan};
use crate::sibling::Sibling;
use crate::step::Step;
use crate::work::TreeWork;
use std::alloc::{AllocError, Global};
use std::mem;

/// The update that came last, where it gave a new entry.
#[derive(Drop)]
struct Last<E> {
    /// The place of its element.
    place: Place,
    /// The index of the entry.
    at: usize,
    /// The entry before it.
    before: E,
}

/// Updates each element of the plan once, in tree order, on this thread. Beside what the updates take it takes memory for
/// what the places hand down that are no leaves, and for one number a place; room for the whole plan is made at once.
pub fn pass_alone<W: TreeWork>(
    alloc: Global,
    work: &W,
    plan: &Plan,
    entries: Vec<(u32, W::Entry)>,
) -> Result<Vec<(u32, W::Entry)>, AllocError>
    requires proper { IsTrue (is_proper plan.now.places.items) }
    requires distinct { IsTrue (are_distinct entries.items) }
    requires entries { IsTrue (have_entries plan.now.places.items entries.items) }
    ensures { IfOk result (λ closing. IsPassOutcome (W.meaning work.now) plan.now.places.items entries.items closing.items) }
{
    let mut closing = entries;
    let mut downs = Downs::begin(alloc, work.top(), plan.places.len())?;
    let mut last = None;
    let mut next = 0usize;
    for place in &plan.places {
        next = update_place(
            alloc,
            work,
            *place,
            &mut closing,
            &mut downs,
            &mut last,
            next,
        )?;
    }
    Ok(closing)
}

/// Updates the element of the place that comes next, whose parent's place is done, and says after which entry the one
/// after it is likely to stand.
fn update_place<W: TreeWork>(
    alloc: Global,
    work: &W,
    place: Place,
    entries: &mut Vec<(u32, W::Entry)>,
    downs: &mut Downs<W::Down>,
    last: &mut Option<Last<W::Entry>>,
    from: usize,
) -> Result<usize, AllocError>
    requires entry { IsSome (value_for entries.old.items place.element) }
    requires distinct { IsTrue (are_distinct entries.old.items) }
    requires parent { IsSome (down_for downs.old place) }
    requires last { IfSome last.old (IsLast (W.meaning work.now) entries.old.items downs.old) }
    ensures noted { OnOk result (IfSome (asked_of (W.meaning work.now) entries.old.items downs.old place) (λ step. IsNoted entries.old.items downs.old place.element step entries.new.items downs.new)) }
    ensures last { OnOk result (IfSome last.new (IsLast (W.meaning work.now) entries.new.items downs.new)) }
{
    let leaf = downs.is_leaf(place);
    let down = downs.down_for(place);
    let at = index_of(entries.as_slice(), place.element, from);
    let sibling = sibling_of(last.as_ref(), place, entries.as_slice(), downs);
    let outcome = work.update(alloc, place.element, &entries[at].1, down, sibling, leaf)?;
    *last = put_outcome(entries, downs, place, at, outcome)?;
    Ok(at + 1)
}

/// What the update that came last gave, where its place and this one have the same parent: so both are handed the same.
fn sibling_of<'a, E, D: Copy>(
    last: Option<&'a Last<E>>,
    place: Place,
    entries: &'a [(u32, E)],
    downs: &'a Downs<D>,
) -> Option<Sibling<'a, E, D>>
    ensures { (m : Meaning E D) (down : D) → IfSome last.entry (λ l. IsLast m entries.now downs.now l.now) → down_for downs.now place ≡ Some down → IfSome result (IsSibling m down) }
{
    let last = last?;
    if !have_one_parent(last.place, place) {
        return None;
    }
    Some(Sibling {
        element: last.place.element,
        before: &last.before,
        after: &entries.get(last.at)?.1,
        down: downs.last(),
    })
}

fn have_one_parent(place: Place, other: Place) -> bool
    ensures { IsTrue result → place.parent ≡ other.parent }
{
    place.parent == other.parent
}

/// Notes the outcome for the element of the place, whose entry stands at the index, and says what to remember of it.
fn put_outcome<E: Drop, D: Copy>(
    entries: &mut Vec<(u32, E)>,
    downs: &mut Downs<D>,
    place: Place,
    at: usize,
    outcome: Step<E, Option<D>>,
) -> Result<Option<Last<E>>, AllocError>
    requires distinct { IsTrue (are_distinct entries.old.items) }
    requires within { at < length entries.old.items }
    requires here { HoldsAt (λ entry. entry.0 ≡ place.element) entries.old.items at }
    ensures noted { OnOk result (IsNoted entries.old.items downs.old place.element outcome entries.new.items downs.new) }
    ensures place { IfOk result (λ last. IfSome last (λ l. l.place ≡ place)) }
    ensures before { IfOk result (λ last. IfSome last (λ l. HoldsAt (λ entry. entry.1 ≡ l.before) entries.old.items at)) }
    ensures last { IfOk result (λ last. IfSome last (λ l. CameLast entries.new.items downs.new l outcome)) }
{
    match outcome {
        Step::Updated(entry, down) => {
            downs.push(down)?;
            let before = put_at(entries, at, place.element, entry);
            Ok(Some(Last { place, at, before }))
        }
        Step::Kept(down) => {
            downs.push(down)?;
            Ok(None)
        }
    }
}

/// Puts another entry for the element, whose entry stands at the index, and gives the one before.
fn put_at<E>(entries: &mut Vec<(u32, E)>, at: usize, element: u32, entry: E) -> E
    requires distinct { IsTrue (are_distinct entries.old.items) }
    requires within { at < length entries.old.items }
    requires here { HoldsAt (λ entry. entry.0 ≡ element) entries.old.items at }
    ensures entries { entries.new.items ≡ with_value entries.old.items element entry }
    ensures at { entries.new.items ≡ slice_set entries.old.items at (element, entry) }
    ensures before { HoldsAt (λ entry. entry.1 ≡ result) entries.old.items at }
{
    let (_, before) = mem::replace(&mut entries[at], (element, entry));
    before
}
