//! Where bytes are written to.
ghost use Rattle.std.specs.Prelude.{ℕ, List, Option};
ghost use Rattle.std.specs.Io.{WritesAtMost};
ghost use Rattle.std.specs.Io.KnownBytes.{WriteAppends};
ghost use Rattle.text_io.specs.Causes.{HasCause, HasEmptyCause};

use crate::fault::Failed;

/// A sink of bytes, which may tell what it holds, and counts its faults and the writes that took no byte of some.
pub trait Sink {
    ghost held: { Self → Option (List ℕ) };

    ghost faults: { Self → ℕ };

    ghost empty_writes: { Self → ℕ };

    /// Takes the first of these bytes, and answers how many.
    fn write(&mut self, bytes: &[u8]) -> Result<usize, Failed>
        ensures bound { WritesAtMost result bytes.now }
        ensures bytes { WriteAppends (held self.old) (held self.new) result bytes.now }
        ensures cause { HasCause (faults self.old) (faults self.new) result }
        ensures empty { HasEmptyCause (empty_writes self.old) (empty_writes self.new) result bytes.now };
}
