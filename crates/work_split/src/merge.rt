//! The outcomes of a level, put where they belong, on one thread.

ghost use Rattle.std.specs.Prelude.{◌≡◌, ◌≤◌, ◌<◌, ◌+◌, drop, take, length, All, IfSome};
ghost use Rattle.std.specs.List.{flat_map};
ghost use Rattle.work_split.specs.Steps.{put, put_all, reached, put_down, IsSeatWithin};

use crate::seat::Seat;
use pass_core::Step;

/// Puts the outcomes, which are those of the level's seats in their order.
pub(crate) fn put_pieces<E: Drop, D: Copy>(
    level: &[Seat],
    pieces: Vec<Vec<Step<E, Option<D>>>>,
    entries: &mut Vec<(u32, E)>,
    downs: &mut Vec<D>,
)
    requires count { length (flat_map (λ v. v.items) pieces.items) ≡ length level.now }
    requires room { All (IsSeatWithin (length entries.old.items) (length downs.old.items)) level.now }
    ensures { reached entries.new.items downs.new.items ≡ put_all level.now (flat_map (λ v. v.items) pieces.items) (reached entries.old.items downs.old.items) }
{
    let mut next = 0;
    for piece in pieces {
        next = put_piece(level, next, piece, entries, downs);
    }
}

/// Puts the outcomes of a piece, which are those of the seats from an index on, and says where the next piece begins.
fn put_piece<E: Drop, D: Copy>(
    level: &[Seat],
    from: usize,
    piece: Vec<Step<E, Option<D>>>,
    entries: &mut Vec<(u32, E)>,
    downs: &mut Vec<D>,
) -> usize
    requires within { from + length piece.items ≤ length level.now }
    requires room { All (IsSeatWithin (length entries.old.items) (length downs.old.items)) level.now }
    ensures next { result ≡ from + length piece.items }
    ensures value { reached entries.new.items downs.new.items ≡ put_all (drop from level.now) piece.items (reached entries.old.items downs.old.items) }
{
    let mut next = from;
    for step in piece {
        put(&level[next], step, entries, downs);
        next += 1;
    }
    next
}

/// Puts one outcome: the entry in its row, and what is handed down in its slot.
fn put<E: Drop, D: Copy>(
    seat: &Seat,
    step: Step<E, Option<D>>,
    entries: &mut Vec<(u32, E)>,
    downs: &mut Vec<D>,
)
    requires { IsSeatWithin (length entries.old.items) (length downs.old.items) seat.now }
    ensures { reached entries.new.items downs.new.items ≡ put seat.now step (reached entries.old.items downs.old.items) }
{
    match step {
        Step::Updated(entry, down) => {
            entries[seat.row] = (seat.place.element, entry);
            put_down(downs, seat.slot, down);
        }
        Step::Kept(down) => put_down(downs, seat.slot, down),
    }
}

/// Puts what a place hands down in its slot, where it has one and is told.
fn put_down<D: Copy>(downs: &mut Vec<D>, slot: Option<usize>, down: Option<D>)
    requires { IfSome slot (λ i. i < length downs.old.items) }
    ensures { downs.new.items ≡ put_down downs.old.items slot down }
{
    if let (Some(slot), Some(down)) = (slot, down) {
        downs[slot] = down;
    }
}
