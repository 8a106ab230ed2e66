//! How the pass of a style change event is made.

ghost use Rattle.std.specs.Prelude.{IfOk, IsTrue};
ghost use Rattle.element_step.specs.Quiet.{quiet_meaning};
ghost use Rattle.pass_core.specs.Passes.{are_distinct, have_entries, IsPassOutcome};
ghost use Rattle.pass_core.specs.Plans.{is_proper};

use element_step::QuietWork;
use pass_core::{Plan, pass_alone};
use std::alloc::{AllocError, Global};
use std::thread::Threads;
use style_data::Entry;
use work_split::by_levels;

/// A way to update each element of a plan once, parents before their children.
pub(crate) trait Pass {
    /// It can be made.
    ghost can_pass: { Self → Type 0 };

    /// The entries after the pass over this plan.
    fn closing_entries(
        &self,
        alloc: Global,
        work: &QuietWork,
        plan: &Plan,
        entries: Vec<(u32, Entry)>,
    ) -> Result<Vec<(u32, Entry)>, AllocError>
        requires ready { can_pass self.now }
        requires proper { IsTrue (is_proper plan.now.places.items) }
        requires distinct { IsTrue (are_distinct entries.items) }
        requires entries { IsTrue (have_entries plan.now.places.items entries.items) }
        ensures { IfOk result (λ closing. IsPassOutcome (quiet_meaning work.now.quiet work.now.touched.keys work.now.work) plan.now.places.items entries.items closing.items) };
}

/// On this thread, in tree order.
#[derive(Drop)]
pub(crate) struct InTreeOrder;

impl Pass for InTreeOrder {
    ghost can_pass = { λ _. Unit {0} };

    fn closing_entries(
        &self,
        alloc: Global,
        work: &QuietWork,
        plan: &Plan,
        entries: Vec<(u32, Entry)>,
    ) -> Result<Vec<(u32, Entry)>, AllocError> {
        pass_alone(alloc, work, plan, entries)
    }
}

/// Level by level, each by so many workers at most.
#[derive(Drop)]
pub(crate) struct ByLevels<'a, R> {
    pub(crate) rt: &'a R,
    pub(crate) workers: u32,
}

impl<R: Threads + Sync> Pass for ByLevels<'_, R> {
    ghost use Rattle.std.specs.Prelude.{◌<◌};
    ghost use Rattle.std.specs.Thread.{IsSync};

    ghost can_pass = { λ p. IsSync R.row × (0 < p.workers) };

    fn closing_entries(
        &self,
        alloc: Global,
        work: &QuietWork,
        plan: &Plan,
        entries: Vec<(u32, Entry)>,
    ) -> Result<Vec<(u32, Entry)>, AllocError> {
        by_levels(self.rt, alloc, work, plan, entries, self.workers)
    }
}
