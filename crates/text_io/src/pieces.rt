//! Whole pieces written to a sink.
ghost use Rattle.std.specs.Prelude.{◌≤◌, ◌⊎◌, ℕ, take, length, OnOk, OnErr};
ghost use Rattle.std.specs.Io.KnownBytes.{Appends};
ghost use Rattle.text_io.specs.Causes.{Rose, RoseOrFull};

use crate::fault::{Failed, WriteFault};
use crate::sink::Sink;

/// Writes all of the bytes. On a fault the sink took the first of them and no more.
pub fn put_all<K: Sink>(sink: &mut K, bytes: &[u8]) -> Result<(), WriteFault>
    ensures ok { OnOk result (Appends (K.held sink.old) (K.held sink.new) bytes.now) }
    ensures prefix { OnErr result ((n : ℕ) × (n ≤ length bytes.now)
        × Appends (K.held sink.old) (K.held sink.new) (take n bytes.now)) }
    ensures faults { K.faults sink.old ≤ K.faults sink.new }
    ensures empty_writes { K.empty_writes sink.old ≤ K.empty_writes sink.new }

    // A fault comes only where the sink failed, or took no byte of some.
    ensures cause { OnErr result (Rose (K.faults sink.old) (K.faults sink.new)
        ⊎ RoseOrFull (K.empty_writes sink.old) (K.empty_writes sink.new)) }
{
    let mut done = 0;
    'writes: while done < bytes.len() {
        match sink.write(&bytes[done..]) {
            Ok(0) => return Err(WriteFault),
            Ok(count) => done += count,
            Err(Failed) => return Err(WriteFault),
        }
    }
    Ok(())
}
