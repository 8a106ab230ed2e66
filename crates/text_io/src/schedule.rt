//! Which calls of a source or a sink in memory fail.
ghost use Rattle.std.specs.Prelude.{◌≡◌, ◌↔◌, ◌+◌, ◌≤◌, IsTrue};
ghost use Rattle.std.specs.Bool.{OnTrue, OnFalse};
ghost use Rattle.text_io.specs.Memory.{counted, IsListed};

/// The numbers of the calls that fail, from 1, and how many calls were made and failed.
#[derive(Drop)]
pub(crate) struct Schedule {
    pub(crate) failing: Vec<u64>,
    pub(crate) calls: u64,
    pub(crate) faults: u64,
    ghost counted: { faults ≤ calls },
}

impl Schedule {
    pub(crate) fn new(failing: Vec<u64>) -> Schedule
        ensures failing { result.failing.items ≡ failing.items }
        ensures calls { result.calls ≡ 0 }
        ensures faults { result.faults ≡ 0 }
    {
        Schedule {
            failing,
            calls: 0,
            faults: 0,
        }
    }

    /// Counts a call, and says whether it fails.
    pub(crate) fn fails(&mut self) -> bool
        ensures listed { IsTrue result ↔ IsListed self.old.failing.items self.old.calls }
        ensures calls { self.new.calls ≡ counted self.old.calls }
        ensures failed { OnTrue result (self.new.faults ≡ self.old.faults + 1) }
        ensures passed { OnFalse result (self.new.faults ≡ self.old.faults) }
        ensures failing { self.new.failing.items ≡ self.old.failing.items }
    {
        // A call after the last number has none, and does not fail.
        if self.calls == u64::MAX {
            return false;
        }
        self.calls += 1;
        if self.failing.contains(&self.calls) {
            self.faults += 1;
            return true;
        }
        false
    }
}
