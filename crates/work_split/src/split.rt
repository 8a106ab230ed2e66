//! The pieces of a level, worked on beside each other: the one file that starts threads.

ghost use Rattle.std.specs.Prelude.{◌≡◌, ◌<◌, ◌≤◌, length, All, IfOk};
ghost use Rattle.std.specs.List.{AllZip, flat_map};
ghost use Rattle.work_split.specs.Steps.{reached, IsStepOf, IsSeatWithin};

use crate::seat::Seat;
use crate::steps::steps_of;
use pass_core::{Step, TreeWork};
use rayon::prelude::*;
use std::alloc::{AllocError, Global};
use std::thread::Threads;

/// How many elements a level has at least where it is cut into pieces, each of at least half as many: a thread costs more than
/// the updates of a few. Style change events of a level whose class changes took, on four processors and by one and by two workers,
/// in microseconds: 32 elements 141 and 284, 48 elements 163 and 212, 64 elements 251 and 246, 128 elements 455 and 397, 256
/// elements 978 and 749.
pub const SPLIT_FROM: usize = 64;

/// The outcomes of the updates of a level, in its order, piece by piece. One piece is worked on this thread.
pub(crate) fn steps_by_piece<R: Threads + Sync, W: TreeWork>(
    rt: &R,
    alloc: Global,
    work: &W,
    level: &[Seat],
    entries: &[(u32, W::Entry)],
    downs: &[W::Down],
    workers: u32,
) -> Result<Vec<Vec<Step<W::Entry, Option<W::Down>>>>, AllocError>
    requires workers { 0 < workers }
    requires can { All (IsSeatWithin (length entries.now) (length downs.now)) level.now }
    ensures { IfOk result (λ pieces. AllZip (IsStepOf (W.meaning work.now) (reached entries.now downs.now)) level.now (flat_map (λ v. v.items) pieces.items)) }
{
    let pieces = pieces_of(alloc, level, pieces_for(level.len(), workers))?;
    pieces
        .par_iter()
        .with_min_len(1)
        .map(
            |piece: &&[Seat]| -> Result<Vec<Step<W::Entry, Option<W::Down>>>, AllocError>
                requires { All (IsSeatWithin (length entries.now) (length downs.now)) piece.now.now }
                ensures { IfOk result (λ steps. AllZip (IsStepOf (W.meaning work.entry.now) (reached entries.entry.now downs.entry.now)) piece.now.now steps.items) }
            { steps_of(alloc, work, piece, entries, downs) },
        )
        .collect::<Result<Vec<Vec<Step<W::Entry, Option<W::Down>>>>, AllocError>>(rt, alloc)?
}

/// How many pieces a level of so many elements is cut into at most.
fn pieces_for(elements: usize, workers: u32) -> usize
    requires { 0 < workers }
    ensures some { 0 < result }
    ensures most { result ≤ workers }
    ensures small { elements < SPLIT_FROM → result ≡ 1 }
{
    let full = elements / (SPLIT_FROM / 2);
    full.clamp(1, workers as usize)
}

/// The seats in order, in at most so many pieces of one length but the last.
fn pieces_of(alloc: Global, seats: &[Seat], most: usize) -> Result<Vec<&[Seat]>, AllocError>
    requires { 0 < most }
    ensures whole { IfOk result (λ pieces. flat_map (λ piece. piece.now) pieces.items ≡ seats.now) }
    ensures most { IfOk result (λ pieces. length pieces.items ≤ most) }
{
    let size = seats.len().div_ceil(most);
    let mut pieces = Vec::new(alloc);
    let mut rest = seats;
    while !rest.is_empty() {
        let (piece, next) = rest.split_at(size.min(rest.len()));
        pieces.push(piece)?;
        rest = next;
    }
    Ok(pieces)
}
