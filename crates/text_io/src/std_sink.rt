//! A sink over a writer of std.
ghost use Rattle.std.specs.Prelude.{◌≡◌, ◌+◌, ◌-◌, ◌^◌, ◌<◌, ℕ, length, None, Ok, IfOk, OnOk, OnErr};
ghost use Rattle.std.specs.Io.{WritesAtMost};
ghost use Rattle.std.specs.Io.KnownBytes.{WriteAppends};
ghost use Rattle.text_io.specs.Causes.{HasCause, HasEmptyCause};
ghost use Rattle.text_io.specs.Memory.{empties_after};
ghost use Rattle.text_io.specs.Std.{writer_of, failed_writes, empty_writes_of};

use crate::fault::Failed;
use crate::sink::Sink;
use std::io::Write;

/// A sink over a writer of std: it tells no bytes, and counts the writes that failed and those that took no byte of some.
#[derive(Drop)]
pub struct StdSink<O> {
    output: O,
    failures: u64,
    empty_writes: u64,
}

impl<O: Write> StdSink<O> {
    /// A sink over this writer, with no failures and no empty writes yet.
    pub fn new(output: O) -> StdSink<O>
        ensures output { writer_of result ≡ output }
        ensures faults { failed_writes result ≡ 0 }
        ensures empty_writes { empty_writes_of result ≡ 0 }
    {
        StdSink {
            output,
            failures: 0,
            empty_writes: 0,
        }
    }

    fn pass_on(&mut self, bytes: &[u8]) -> Result<usize, Failed>
        ensures bound { WritesAtMost result bytes.now }
        ensures passed { failed_writes self.old < 2 ^ 64 - 1 →
            WriteAppends (O.contents (writer_of self.old)) (O.contents (writer_of self.new)) result bytes.now }
        ensures counted { OnErr result (failed_writes self.new ≡ failed_writes self.old + 1) }
        ensures uncounted { OnOk result (failed_writes self.new ≡ failed_writes self.old) }
        ensures full { failed_writes self.old ≡ 2 ^ 64 - 1 → (result ≡ Ok 0) × (writer_of self.new ≡ writer_of self.old) }
        ensures empty_writes { empty_writes_of self.new ≡ empty_writes_of self.old }
    {
        if self.failures == u64::MAX {
            return Ok(0);
        }
        match self.output.write(bytes) {
            Ok(count) => Ok(count),
            Err(_) => {
                self.failures += 1;
                Err(Failed)
            }
        }
    }
}

impl<O: Write> Sink for StdSink<O> {
    ghost held = { λ _. None };

    ghost faults = { failed_writes };

    ghost empty_writes = { empty_writes_of };

    /// Writes to the writer. At 2^64 - 1 failures it writes nothing more, and takes no byte.
    fn write(&mut self, bytes: &[u8]) -> Result<usize, Failed>
        ensures bound { WritesAtMost result bytes.now }
        ensures bytes { WriteAppends None None result bytes.now }
        ensures cause { HasCause (failed_writes self.old) (failed_writes self.new) result }
        ensures empty { HasEmptyCause (empty_writes_of self.old) (empty_writes_of self.new) result bytes.now }

        // What comes is passed on.
        ensures passed { failed_writes self.old < 2 ^ 64 - 1 →
            WriteAppends (O.contents (writer_of self.old)) (O.contents (writer_of self.new)) result bytes.now }

        // Each failure and each empty write is counted, and nothing else is.
        ensures counted { OnErr result ((failed_writes self.new ≡ failed_writes self.old + 1)
            × (empty_writes_of self.new ≡ empty_writes_of self.old)) }
        ensures uncounted { IfOk result (λ n. (failed_writes self.new ≡ failed_writes self.old)
            × (empty_writes_of self.new ≡ empties_after (empty_writes_of self.old) n (length bytes.now))) }
        ensures full { failed_writes self.old ≡ 2 ^ 64 - 1 → (result ≡ Ok 0) × (writer_of self.new ≡ writer_of self.old) }
    {
        let Ok(count) = self.pass_on(bytes) else {
            return Err(Failed);
        };
        if count == 0 && !bytes.is_empty() {
            self.empty_writes = self.empty_writes.saturating_add(1);
        }
        Ok(count)
    }
}
