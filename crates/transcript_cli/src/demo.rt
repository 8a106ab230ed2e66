//! The demonstration: the script of a seed is played, and what its transcript comes to is written as one line.
ghost use Rattle.std.specs.Prelude.{◌≡◌, IfOk};
ghost use Rattle.std.specs.String.{string_bytes};
ghost use Rattle.script_gen.specs.Lines.{script_bytes};
ghost use Rattle.transcript_cli.specs.Demo.{IsDemo, demo_line};
ghost use Rattle.transcript_cli.specs.Transcript.{transcript_of};

use crate::growing::Growing;
use crate::replay::replay;
use crate::restyling::Restyling;
use crate::status::Status;
use crate::tally::Tally;
use crate::unfailing::Unfailing;
use script_gen::laws::scripts_are_short;
use script_gen::script_of;
use std::alloc::{AllocError, Global};
use text_io::{Sink, WriteFault, put_all};

/// The frames of every generated script.
const FRAMES: u32 = 62;

/// Plays the script of a seed, and writes the line of the seed to the sink.
pub(crate) fn demonstrate<F: Restyling, K: Sink>(
    alloc: Global,
    restyling: &F,
    seed: u64,
    sink: &mut K,
) -> Status
    requires ready { F.can_restyle restyling.now }
    ensures demo { IsDemo seed result
        (record { bytes = K.held sink.old; faults = K.faults sink.old; empty_writes = K.empty_writes sink.old })
        (record { bytes = K.held sink.new; faults = K.faults sink.new; empty_writes = K.empty_writes sink.new }) }
{
    let Ok(line) = demo_line(alloc, restyling, seed) else {
        return Status::NoMemory;
    };
    match put_all(sink, line.as_bytes()) {
        Ok(()) => Status::Done,
        Err(WriteFault) => Status::WriteFault,
    }
}

/// The line of a seed.
fn demo_line<F: Restyling>(alloc: Global, restyling: &F, seed: u64) -> Result<String, AllocError>
    requires ready { F.can_restyle restyling.now }
    ensures { IfOk result (λ line. string_bytes line ≡ demo_line seed) }
{
    let transcript = transcript_of_seed(alloc, restyling, seed)?;
    let Tally {
        events,
        cancels,
        ends,
    } = Tally::of(&transcript);
    scripts_are_short();
    let mut line = String::new(alloc);
    writeln!(
        line,
        "demo {seed} frames {FRAMES} events {events} cancels {cancels} ends {ends}"
    )?;
    Ok(line)
}

/// The transcript of the script of a seed.
fn transcript_of_seed<F: Restyling>(
    alloc: Global,
    restyling: &F,
    seed: u64,
) -> Result<Vec<u8>, AllocError>
    requires ready { F.can_restyle restyling.now }
    ensures { IfOk result (λ transcript. transcript.items ≡ transcript_of (script_bytes seed)) }
{
    let mut source = Unfailing::new(alloc, script_of(alloc, seed)?);
    let mut sink = Growing::new(alloc);
    let status = replay(alloc, restyling, &mut source, &mut sink);
    scripts_are_short();
    match status {
        Status::Done => Ok(sink.bytes),
        // A write fails only where the sink can't grow.
        Status::WriteFault | Status::NoMemory => Err(AllocError),
        // The script is short, none of its lines is refused and no read of it fails.
        Status::Refused | Status::Usage | Status::TooMuch | Status::ReadFault => unreachable!(),
    }
}
