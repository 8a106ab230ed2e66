//! The updates of seats, from entries and from what places hand down.

ghost use Rattle.std.specs.Prelude.{◌≡◌, ◌<◌, length, List, All, IfOk, IfSome, Some};
ghost use Rattle.std.specs.List.{AllZip};
ghost use Rattle.pass_core.specs.Work.{IsSibling, Meaning};
ghost use Rattle.work_split.specs.Steps.{handed, reached, IsSeatWithin, IsStepOf};

use crate::seat::Seat;
use pass_core::{Sibling, Step, TreeWork};
use std::alloc::{AllocError, Global};

/// The outcomes of the updates of the seats, in their order.
pub(crate) fn steps_of<W: TreeWork>(
    alloc: Global,
    work: &W,
    seats: &[Seat],
    entries: &[(u32, W::Entry)],
    downs: &[W::Down],
) -> Result<Vec<Step<W::Entry, Option<W::Down>>>, AllocError>
    requires { All (IsSeatWithin (length entries.now) (length downs.now)) seats.now }
    ensures { IfOk result (λ steps. AllZip (IsStepOf (W.meaning work.now) (reached entries.now downs.now)) seats.now steps.items) }
{
    let top = work.top();
    let mut steps = Vec::with_capacity(alloc, seats.len())?;
    for seat in seats {
        let above = seat.above;
        let down = handed(&top, downs, above);
        let sibling = sibling_of(&seats[..steps.len()], steps.as_slice(), entries, above);
        let step = step_of(alloc, work, seat, entries, down, sibling)?;
        steps.push(step)?;
    }
    Ok(steps)
}

/// What the last of the steps gave, which are those of the seats, where the slot above its seat is this one: so both are
/// handed the same.
fn sibling_of<'a, E, D>(
    seats: &[Seat],
    steps: &'a [Step<E, Option<D>>],
    entries: &'a [(u32, E)],
    above: Option<usize>,
) -> Option<Sibling<'a, E, D>>
    ensures { (m : Meaning E D) (downs : List D) (down : D) → AllZip (IsStepOf m (reached entries.now downs)) seats.now steps.now → handed m.top downs above ≡ Some down → IfSome result (IsSibling m down) }
{
    let seat = seats.last()?;
    if seat.above != above {
        return None;
    }
    let Step::Updated(after, down) = steps.last()? else {
        return None;
    };
    Some(Sibling {
        element: seat.place.element,
        before: &entries.get(seat.row)?.1,
        after,
        down: down.as_ref(),
    })
}

/// The outcome of the update of the seat's element, over what is handed down to it; the update may take over a sibling's.
fn step_of<'a, W: TreeWork>(
    alloc: Global,
    work: &W,
    seat: &Seat,
    entries: &'a [(u32, W::Entry)],
    down: &'a W::Down,
    sibling: Option<Sibling<'a, W::Entry, W::Down>>,
) -> Result<Step<W::Entry, Option<W::Down>>, AllocError>
    requires row { seat.now.row < length entries.now }
    requires sibling { IfSome sibling (IsSibling (W.meaning work.now) down.now) }
    ensures { IfOk result (λ step. (downs : List W.Down) → handed (W.meaning work.now).top downs seat.now.above ≡ Some down.now → IsStepOf (W.meaning work.now) (reached entries.now downs) seat.now step) }
{
    work.update(
        alloc,
        seat.place.element,
        &entries[seat.row].1,
        down,
        sibling,
        seat.slot.is_none(),
    )
}

/// What is handed down from the slot above a place, or at the top.
fn handed<'a, D>(top: &'a D, downs: &'a [D], above: Option<usize>) -> &'a D
    requires { IfSome above (λ i. i < length downs.now) }
    ensures { handed top.now downs.now above ≡ Some result.now }
{
    match above {
        None => top,
        Some(slot) => &downs[slot],
    }
}
