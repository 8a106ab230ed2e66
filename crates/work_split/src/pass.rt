//! The pass by levels.

ghost use Rattle.std.specs.Prelude.{◌<◌, length, All, IfOk, IsTrue, OnOk};
ghost use Rattle.pass_core.specs.Passes.{are_distinct, have_entries, IsPassOutcome};
ghost use Rattle.pass_core.specs.Plans.{is_proper};
ghost use Rattle.work_split.specs.Steps.{reached, LevelDone, IsSeatWithin};

use crate::levels::levels_of;
use crate::merge::put_pieces;
use crate::seat::Seat;
use crate::split::steps_by_piece;
use pass_core::{Plan, TreeWork, pass_alone};
use std::alloc::{AllocError, Global};
use std::thread::Threads;

/// Updates each element of the plan once, level by level from the top; one worker goes over it in tree order. A level is cut
/// into at most so many pieces as there are workers; how many threads run them isn't said. Beside what the updates take it
/// takes memory for the levels, for what inner places hand down, and for the outcomes of one level.
pub fn by_levels<R: Threads + Sync, W: TreeWork>(
    rt: &R,
    alloc: Global,
    work: &W,
    plan: &Plan,
    entries: Vec<(u32, W::Entry)>,
    workers: u32,
) -> Result<Vec<(u32, W::Entry)>, AllocError>
    requires workers { 0 < workers }
    requires proper { IsTrue (is_proper plan.now.places.items) }
    requires distinct { IsTrue (are_distinct entries.items) }
    requires entries { IsTrue (have_entries plan.now.places.items entries.items) }
    ensures { IfOk result (λ closing. IsPassOutcome (W.meaning work.now) plan.now.places.items entries.items closing.items) }
{
    if workers == 1 {
        return pass_alone(alloc, work, plan, entries);
    }
    let levels = levels_of(alloc, plan.places.as_slice(), entries.as_slice())?;
    let mut closing = entries;
    // One for each inner place. One that isn't done has the top's: nobody reads that.
    let mut downs = Vec::new(alloc);
    downs.resize(levels.inner, work.top())?;
    for level in &levels.seats {
        work_level(
            rt,
            alloc,
            work,
            level.as_slice(),
            &mut closing,
            &mut downs,
            workers,
        )?;
    }
    Ok(closing)
}

/// Updates the elements of a level, whose parents are done.
fn work_level<R: Threads + Sync, W: TreeWork>(
    rt: &R,
    alloc: Global,
    work: &W,
    level: &[Seat],
    entries: &mut Vec<(u32, W::Entry)>,
    downs: &mut Vec<W::Down>,
    workers: u32,
) -> Result<(), AllocError>
    requires workers { 0 < workers }
    requires can { All (IsSeatWithin (length entries.old.items) (length downs.old.items)) level.now }
    ensures { OnOk result (LevelDone (W.meaning work.now) level.now (reached entries.old.items downs.old.items) (reached entries.new.items downs.new.items)) }
{
    let pieces = steps_by_piece(
        rt,
        alloc,
        work,
        level,
        entries.as_slice(),
        downs.as_slice(),
        workers,
    )?;
    put_pieces(level, pieces, entries, downs);
    Ok(())
}
