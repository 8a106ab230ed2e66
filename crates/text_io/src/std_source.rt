//! A source over a reader of std.
ghost use Rattle.std.specs.Prelude.{◌≡◌, ◌+◌, ◌-◌, ◌^◌, ◌<◌, ℕ, None, Ok, OnOk, OnErr};
ghost use Rattle.std.specs.Io.{ReadsAtMost};
ghost use Rattle.std.specs.Io.KnownBytes.{ReadConsumes};
ghost use Rattle.text_io.specs.Causes.{HasCause};
ghost use Rattle.text_io.specs.Std.{input_of, failed_reads};

use crate::fault::Failed;
use crate::source::Source;
use std::io::Read;

/// A source over a reader of std: it tells no bytes, and counts the reads that failed.
#[derive(Drop)]
pub struct StdSource<I> {
    input: I,
    failures: u64,
}

impl<I: Read> StdSource<I> {
    /// A source over this reader, with no failures yet.
    pub fn new(input: I) -> StdSource<I>
        ensures input { input_of result ≡ input }
        ensures faults { failed_reads result ≡ 0 }
    {
        StdSource { input, failures: 0 }
    }
}

impl<I: Read> Source for StdSource<I> {
    ghost left = { λ _. None };

    ghost faults = { failed_reads };

    /// Reads from the reader. At 2^64 - 1 failures it reads nothing more, and says that no byte is left.
    fn read(&mut self, buf: &mut [u8]) -> Result<usize, Failed>
        ensures bound { ReadsAtMost result buf.new }
        ensures bytes { ReadConsumes None None result buf.new }
        ensures cause { HasCause (failed_reads self.old) (failed_reads self.new) result }

        // What the reader gives is passed on.
        ensures passed { failed_reads self.old < 2 ^ 64 - 1 →
            ReadConsumes (I.remaining (input_of self.old)) (I.remaining (input_of self.new)) result buf.new }

        // Each failure is counted, and nothing else is.
        ensures counted { OnErr result (failed_reads self.new ≡ failed_reads self.old + 1) }
        ensures uncounted { OnOk result (failed_reads self.new ≡ failed_reads self.old) }
        ensures full { failed_reads self.old ≡ 2 ^ 64 - 1 →
            (result ≡ Ok 0) × (self.new ≡ self.old) × (buf.new ≡ buf.old) }
    {
        if self.failures == u64::MAX {
            return Ok(0);
        }
        match self.input.read(buf) {
            Ok(count) => Ok(count),
            Err(_) => {
                self.failures += 1;
                Err(Failed)
            }
        }
    }
}
