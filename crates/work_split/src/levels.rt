//! The levels of a plan.

ghost use Rattle.std.specs.Prelude.{◌≡◌, ◌≢◌, ◌∷◌, [], ◌++◌, ◌+◌, ◌^◌, ◌<◌, ◌≤◌, ℕ, map, length, slice_index, is_none, option_map, if◌then◌else◌, None, Some, All, IfOk, IfSome, OnOk, IsTrue};
ghost use Rattle.std.specs.Option.{option_map_or};
ghost use Rattle.pass_core.specs.Passes.{have_entries};
ghost use Rattle.pass_core.specs.Plans.{is_proper};
ghost use Rattle.work_split.specs.Levels.{is_leaf_at, level_at, AreLevels};

use crate::rows::row_of;
use crate::seat::Seat;
use pass_core::Place;
use std::alloc::{AllocError, Global};

/// The levels of a plan.
#[derive(Drop)]
pub(crate) struct Levels {
    /// The places of each level, the top first: a place stands in the level below its parent's. Each level is in tree order.
    pub(crate) seats: Vec<Vec<Seat>>,
    /// How many of the places are inner ones: no leaves.
    pub(crate) inner: usize,
}

/// The levels of the plan. Its inner places have their slots in tree order.
pub(crate) fn levels_of<E>(
    alloc: Global,
    places: &[Place],
    entries: &[(u32, E)],
) -> Result<Levels, AllocError>
    requires proper { IsTrue (is_proper places.now) }
    requires entries { IsTrue (have_entries places.now entries.now) }
    ensures { IfOk result (λ levels. AreLevels places.now (map (λ entry. entry.0) entries.now) levels.inner levels.seats.items) }
{
    let mut seats = Vec::new(alloc);
    let mut depths = Vec::with_capacity(alloc, places.len())?;
    let mut slots = Vec::with_capacity(alloc, places.len())?;
    let mut inner = 0;
    let mut next = 0;
    for (at, place) in places.iter().enumerate() {
        let depth = depth_below(depths.as_slice(), place.parent);
        let row = row_of(entries, place.element, next);
        let slot = slot_of(*place, at, inner);
        let above = slot_above(slots.as_slice(), place.parent);
        let seat = Seat {
            place: *place,
            row,
            slot,
            above,
        };
        put_in(alloc, &mut seats, depth, seat)?;
        depths.push(depth)?;
        slots.push(inner)?;
        inner = inner_after(inner, slot);
        next = row + 1;
    }
    Ok(Levels { seats, inner })
}

/// The depth of a place below its parent, of which the depth is known.
fn depth_below(depths: &[usize], parent: Option<u32>) -> usize
    requires known { IfSome parent (λ i. i < length depths.now) }
    requires small { All (λ depth. depth + 1 < 2 ^ 64) depths.now }
    ensures { result ≡ option_map_or (λ i. slice_index depths.now i + 1) parent 0 }
{
    match parent {
        None => 0,
        Some(parent) => depths[parent as usize] + 1,
    }
}

/// The slot of the place at the index, with so many inner ones before it: the next one, but a leaf has none.
fn slot_of(place: Place, at: usize, inner: usize) -> Option<usize>
    requires { at + 1 < 2 ^ 64 }
    ensures { result ≡ (if is_leaf_at place at then None else Some inner) }
{
    if place.end as usize == at + 1 {
        return None;
    }
    Some(inner)
}

/// How many inner places there are with one more place, which has this slot.
fn inner_after(inner: usize, slot: Option<usize>) -> usize
    requires { inner + 1 < 2 ^ 64 }
    ensures { result ≡ (if is_none slot then inner else inner + 1) }
{
    match slot {
        None => inner,
        Some(_) => inner + 1,
    }
}

/// The slot of the parent, where it is in the plan.
fn slot_above(slots: &[usize], parent: Option<u32>) -> Option<usize>
    requires { IfSome parent (λ i. i < length slots.now) }
    ensures { result ≡ option_map (slice_index slots.now) parent }
{
    match parent {
        None => None,
        Some(parent) => Some(slots[parent as usize]),
    }
}

/// Puts the seat at the end of its level, which may be one more than there are.
fn put_in(
    alloc: Global,
    levels: &mut Vec<Vec<Seat>>,
    depth: usize,
    seat: Seat,
) -> Result<(), AllocError>
    requires { depth ≤ length levels.old.items }
    ensures here { OnOk result (level_at levels.new.items depth ≡ level_at levels.old.items depth ++ seat ∷ []) }
    ensures others { OnOk result ((d : ℕ) → d ≢ depth → level_at levels.new.items d ≡ level_at levels.old.items d) }
    ensures count { OnOk result ((depth < length levels.new.items) × (length levels.old.items ≤ length levels.new.items)) }
{
    if depth == levels.len() {
        levels.push(Vec::new(alloc))?;
    }
    levels[depth].push(seat)?;
    Ok(())
}
