//! A sink in memory.
ghost use Rattle.std.specs.Prelude.{◌≡◌, ◌↔◌, ◌+◌, ◌≤◌, ◌<◌, ◌++◌, [], ℕ, take, length, Some, IsErr, IfOk, OnErr, nat_lt, ◌==◌, ◌&&◌, if◌then◌else◌};
ghost use Rattle.std.specs.Io.{WritesAtMost};
ghost use Rattle.std.specs.Io.KnownBytes.{WriteAppends};
ghost use Rattle.text_io.specs.Causes.{HasCause, HasEmptyCause};
ghost use Rattle.text_io.specs.Memory.{SinkState, IsListed, counted, taken_count, empties_after};

use crate::fault::Failed;
use crate::schedule::Schedule;
use crate::sink::Sink;
use std::alloc::{AllocError, Global};
use std::marker::Model;

/// A sink that keeps what it takes, and fails the calls that it is told to.
#[derive(Drop)]
pub struct MemSink {
    bytes: Vec<u8>,
    room: usize,
    most: usize,
    schedule: Schedule,
    empty_writes: u64,
}

impl Model for MemSink {
    ghost use Rattle.std.specs.Prelude.{◌≡◌, ◌≤◌, vec_len, vec_capacity};
    ghost use Rattle.text_io.specs.Memory.{SinkState};

    ghost Value = { SinkState };

    ghost view = { λ s. record {
      held = s.bytes.items;
      room = s.room;
      most = s.most;
      failing = s.schedule.failing.items;
      calls = s.schedule.calls;
      faults = s.schedule.faults;
      empty_writes = s.empty_writes;
    } };

    ghost invariant = { λ s. (vec_len s.bytes ≤ s.room) × (s.room ≤ vec_capacity s.bytes) };
}

impl MemSink {
    /// A sink with room for so many bytes, which takes at most `most` a call; the calls whose numbers from 1 are in
    /// `failing` fail.
    pub fn new(
        alloc: Global,
        room: usize,
        most: usize,
        failing: Vec<u64>,
    ) -> Result<MemSink, AllocError>
        ensures { IfOk result (λ sink. sink ≡ record {
          held = [];
          room = room;
          most = most;
          failing = failing.items;
          calls = 0;
          faults = 0;
          empty_writes = 0;
        }) }
    {
        let bytes = Vec::with_capacity(alloc, room)?;
        Ok(MemSink {
            bytes,
            room,
            most,
            schedule: Schedule::new(failing),
            empty_writes: 0,
        })
    }

    /// The bytes that it took.
    pub fn bytes(&self) -> &[u8]
        ensures { result.now ≡ self.now.held }
    {
        &self.bytes
    }

    fn keep(&mut self, bytes: &[u8]) -> usize
        ensures count { result ≡ taken_count self.old (length bytes.now) }
        ensures kept { self.new ≡ record self.old { held = self.old.held ++ take result bytes.now } }
    {
        let room = self.room - self.bytes.len();
        let count = bytes.len().min(room).min(self.most);
        self.bytes.extend_from_slice(&bytes[..count]).unwrap();
        count
    }
}

impl Sink for MemSink {
    ghost held = { λ s. Some s.held };

    ghost faults = { λ s. s.faults };

    ghost empty_writes = { λ s. s.empty_writes };

    fn write(&mut self, bytes: &[u8]) -> Result<usize, Failed>
        ensures bound { WritesAtMost result bytes.now }
        ensures bytes { WriteAppends (Some self.old.held) (Some self.new.held) result bytes.now }
        ensures cause { HasCause self.old.faults self.new.faults result }
        ensures empty { HasEmptyCause self.old.empty_writes self.new.empty_writes result bytes.now }

        // Exactly the listed calls fail, and these are counted.
        ensures fails { IsErr result ↔ IsListed self.old.failing self.old.calls }
        ensures failed { OnErr result (self.new ≡ record self.old {
          calls = counted self.old.calls;
          faults = self.old.faults + 1;
        }) }

        // The others take as many bytes as they can, and are counted where that is none of some.
        ensures count { IfOk result (λ n. n ≡ taken_count self.old (length bytes.now)) }
        ensures passed { IfOk result (λ n. self.new ≡ record self.old {
          held = self.old.held ++ take n bytes.now;
          calls = counted self.old.calls;
          empty_writes = empties_after self.old.empty_writes n (length bytes.now);
        }) }
    {
        if self.schedule.fails() {
            return Err(Failed);
        }
        let count = self.keep(bytes);
        if count == 0 && !bytes.is_empty() {
            self.empty_writes = self.empty_writes.saturating_add(1);
        }
        Ok(count)
    }
}
