//! Who restyles at a frame: the one file here that knows of workers.
ghost use Rattle.std.specs.Prelude.{◌≡◌, ◌-◌, ◌^◌, ◌<◌, IfOk};
ghost use Rattle.event_order.specs.Order.{IsInOrderOf};
ghost use Rattle.restyle.specs.Worlds.{events_of_frame, world_after_frame};

use restyle::{FrameOut, World};
use std::alloc::{AllocError, Global};
use std::thread::Threads;

/// Makes the frames of a run. Whoever does, a frame is that of the definition on one thread.
pub(crate) trait Restyling {
    /// It can be made.
    ghost can_restyle: { Self → Type 0 };

    /// The next frame of the world.
    fn frame(&self, alloc: Global, world: World) -> Result<(World, FrameOut), AllocError>
        requires ready { can_restyle self.now }
        requires few { world.frames < 2 ^ 32 - 1 }
        ensures world { IfOk result (λ r. r.0 ≡ world_after_frame world) }
        ensures events { IfOk result (λ r. IsInOrderOf r.1.events.items (events_of_frame world)) };
}

/// On this thread, in tree order. Waits for nobody.
#[derive(Drop)]
pub(crate) struct Alone;

impl Restyling for Alone {
    ghost can_restyle = { λ _. Unit {0} };

    fn frame(&self, alloc: Global, world: World) -> Result<(World, FrameOut), AllocError> {
        world.frame_alone(alloc)
    }
}

/// Level by level, each by so many workers at most, of which there are 1 to 64.
#[derive(Drop)]
pub(crate) struct Workers<'a, R> {
    pub(crate) rt: &'a R,
    pub(crate) count: u32,
}

impl<R: Threads + Sync> Restyling for Workers<'_, R> {
    ghost use Rattle.std.specs.Prelude.{◌≤◌};
    ghost use Rattle.std.specs.Thread.{IsSync};

    ghost can_restyle = { λ w. IsSync R.row × (1 ≤ w.count) × (w.count ≤ 64) };

    fn frame(&self, alloc: Global, world: World) -> Result<(World, FrameOut), AllocError> {
        world.frame(self.rt, alloc, self.count)
    }
}
