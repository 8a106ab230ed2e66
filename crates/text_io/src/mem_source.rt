//! A source in memory.
ghost use Rattle.std.specs.Prelude.{◌≡◌, ◌↔◌, ◌+◌, ◌≤◌, ◌++◌, ℕ, take, drop, length, Some, IsErr, IfOk, OnErr};
ghost use Rattle.std.specs.Io.{ReadsAtMost};
ghost use Rattle.std.specs.Io.KnownBytes.{ReadConsumes};
ghost use Rattle.text_io.specs.Causes.{HasCause};
ghost use Rattle.text_io.specs.Memory.{SourceState, IsListed, counted, given_count};

use crate::fault::Failed;
use crate::schedule::Schedule;
use crate::source::Source;
use std::marker::Model;

/// A source that gives these bytes, and fails the calls that it is told to.
#[derive(Drop)]
pub struct MemSource {
    bytes: Vec<u8>,
    given: usize,
    most: usize,
    schedule: Schedule,
}

impl Model for MemSource {
    ghost use Rattle.std.specs.Prelude.{◌≤◌, ◌<◌, vec_len, drop};
    ghost use Rattle.text_io.specs.Memory.{SourceState};

    ghost Value = { SourceState };

    ghost view = { λ s. record {
      left = drop s.given s.bytes.items;
      most = s.most;
      failing = s.schedule.failing.items;
      calls = s.schedule.calls;
      faults = s.schedule.faults;
    } };

    ghost invariant = { λ s. (s.given ≤ vec_len s.bytes) × (0 < s.most) };
}

impl MemSource {
    /// A source of these bytes, at most `most` a call; the calls whose numbers from 1 are in `failing` fail.
    pub fn new(bytes: Vec<u8>, most: usize, failing: Vec<u64>) -> MemSource
        requires { 1 ≤ most }
        ensures { result ≡ record {
          left = bytes.items;
          most = most;
          failing = failing.items;
          calls = 0;
          faults = 0;
        } }
    {
        MemSource {
            bytes,
            given: 0,
            most,
            schedule: Schedule::new(failing),
        }
    }

    fn give(&mut self, buf: &mut [u8]) -> usize
        ensures count { result ≡ given_count self.old (length buf.old) }
        ensures given { buf.new ≡ take result self.old.left ++ drop result buf.old }
        ensures rest { self.new ≡ record self.old { left = drop result self.old.left } }
    {
        let rest = &self.bytes[self.given..];
        let count = buf.len().min(rest.len()).min(self.most);
        buf[..count].copy_from_slice(&rest[..count]);
        self.given += count;
        count
    }
}

impl Source for MemSource {
    ghost left = { λ s. Some s.left };

    ghost faults = { λ s. s.faults };

    fn read(&mut self, buf: &mut [u8]) -> Result<usize, Failed>
        ensures bound { ReadsAtMost result buf.new }
        ensures bytes { ReadConsumes (Some self.old.left) (Some self.new.left) result buf.new }
        ensures cause { HasCause self.old.faults self.new.faults result }

        // Exactly the listed calls fail, and these are counted.
        ensures fails { IsErr result ↔ IsListed self.old.failing self.old.calls }
        ensures failed { OnErr result (self.new ≡ record self.old {
          calls = counted self.old.calls;
          faults = self.old.faults + 1;
        }) }
        ensures untouched { OnErr result (buf.new ≡ buf.old) }

        // The others give as many bytes as they can.
        ensures count { IfOk result (λ n. n ≡ given_count self.old (length buf.old)) }
        ensures given { IfOk result (λ n. buf.new ≡ take n self.old.left ++ drop n buf.old) }
        ensures passed { IfOk result (λ n. self.new ≡ record self.old {
          left = drop n self.old.left;
          calls = counted self.old.calls;
        }) }
    {
        if self.schedule.fails() {
            return Err(Failed);
        }
        Ok(self.give(buf))
    }
}
