//! The top call.
ghost use Rattle.std.specs.Prelude.{◌≡◌, ℕ, map};
ghost use Rattle.std.specs.String.{string_bytes};
ghost use Rattle.transcript_cli.specs.Run.{AskForDemo, IsRun};

use crate::demo::demonstrate;
use crate::gate::Gate;
use crate::replay::replay;
use crate::restyling::Workers;
use crate::status::Status;
use command_words::{WordsFault, read_words};
use std::alloc::Global;
use std::sync::Wait;
use std::thread::Threads;
use text_io::{Sink, Source};

/// Reads a script from the source and writes its transcript to the sink, piece by piece; or writes the line of a demonstration and reads nothing. The
/// words are those of the command line after the program's name. Nothing of the number of workers that they ask for is to be seen.
pub fn run<R: Threads + Wait + Sync, S: Source, K: Sink, G: Gate>(
    rt: &R,
    alloc: Global,
    words: &[String],
    source: &mut S,
    sink: &mut K,
    _gate: &G,
) -> Status
    ensures run { IsRun (map string_bytes words.now) result (S.left source.old) (S.left source.new) (S.faults source.old) (S.faults source.new)
        (record { bytes = K.held sink.old; faults = K.faults sink.old; empty_writes = K.empty_writes sink.old })
        (record { bytes = K.held sink.new; faults = K.faults sink.new; empty_writes = K.empty_writes sink.new }) }
    ensures nothing { result ≡ Status.Usage → (source.new ≡ source.old) × (sink.new ≡ sink.old) }
    ensures unread { (seed : ℕ) → AskForDemo (map string_bytes words.now) seed → source.new ≡ source.old }
{
    let words = match read_words(alloc, words) {
        Ok(words) => words,
        Err(WordsFault::Usage) => return Status::Usage,
        Err(WordsFault::NoMemory) => return Status::NoMemory,
    };
    let workers = Workers {
        rt,
        count: words.workers,
    };
    match words.demo {
        None => replay(alloc, &workers, source, sink),
        Some(seed) => demonstrate(alloc, &workers, seed, sink),
    }
}
