//! A whole run: each line is read, answered, and its piece written before the next is read.
ghost use Rattle.std.specs.Prelude.{◌≡◌, ◌≢◌, ◌↔◌, ◌⊎◌, ◌+◌, ◌-◌, ◌^◌, ◌<◌, ◌≤◌, ◌++◌, ℕ, [], None, Err, false, take, IfErr, IfNone, IfOk, IfSome, IsSomeAnd, IsTrue, OnErr, OnOk, OnSome, length, option_copied};
ghost use Rattle.std.specs.Io.KnownBytes.{Appends};
ghost use Rattle.text_io.specs.Causes.{Rose, RoseOrFull};
ghost use Rattle.text_io.specs.Lines.{HasNoFeed};
ghost use Rattle.text_io.specs.Told.{Told};
ghost use Rattle.text_io.specs.Reader.{IsTaken, steps_left, stream_of};
ghost use Rattle.text_io.specs.declared.limits.TheConstants.{MAX_INPUT};
ghost use Rattle.doc_tree.specs.declared.limits.TheConstants.{MAX_STYLE_BYTES};
ghost use Rattle.restyle.specs.Worlds.{new_world};
ghost use Rattle.transcript_cli.specs.Play.{AnswersLine, HasEnd, IsAnswered};
ghost use Rattle.transcript_cli.specs.Transcript.{answer_of};
ghost use Rattle.transcript_cli.specs.Replay.{IsFinished, IsReplay};

use crate::answer::answer;
use crate::restyling::{Alone, Restyling};
use crate::status::Status;
use restyle::World;
use std::alloc::Global;
use text_io::{Line, LineFault, Lines, Sink, Source, WriteFault, put_all};

/// The same as `run` with no words, on one thread. It waits for nobody, and always returns.
pub fn replay_alone<S: Source, K: Sink>(alloc: Global, source: &mut S, sink: &mut K) -> Status
    ensures replay { IsReplay result (S.left source.old) (S.left source.new) (S.faults source.old) (S.faults source.new)
        (record { bytes = K.held sink.old; faults = K.faults sink.old; empty_writes = K.empty_writes sink.old })
        (record { bytes = K.held sink.new; faults = K.faults sink.new; empty_writes = K.empty_writes sink.new }) }
    ensures no_usage { result ≢ Status.Usage }
{
    replay(alloc, &Alone, source, sink)
}

/// Reads a script and writes its transcript, whose frames are made so.
pub(crate) fn replay<F: Restyling, S: Source, K: Sink>(
    alloc: Global,
    restyling: &F,
    source: &mut S,
    sink: &mut K,
) -> Status
    requires ready { F.can_restyle restyling.now }
    ensures replay { IsReplay result (S.left source.old) (S.left source.new) (S.faults source.old) (S.faults source.new)
        (record { bytes = K.held sink.old; faults = K.faults sink.old; empty_writes = K.empty_writes sink.old })
        (record { bytes = K.held sink.new; faults = K.faults sink.new; empty_writes = K.empty_writes sink.new }) }
    ensures no_usage { result ≢ Status.Usage }
{
    let Ok(lines) = Lines::new(alloc) else {
        return Status::NoMemory;
    };
    let Ok(world) = World::new(alloc) else {
        return Status::NoMemory;
    };
    // Each line hands the world on.
    let Ok(world) = Box::new(alloc, world) else {
        return Status::NoMemory;
    };
    play(alloc, restyling, lines, world, source, sink)
}

/// Answers the lines that the reader has left.
fn play<F: Restyling, S: Source, K: Sink>(
    alloc: Global,
    restyling: &F,
    mut lines: Lines,
    mut world: Box<World>,
    source: &mut S,
    sink: &mut K,
) -> Status
    requires ready { F.can_restyle restyling.now }
    requires new_lines { lines ≡ record { pending = []; taken = 0; fault = None; text = None } }
    requires new_world { world.value ≡ new_world }
    ensures replay { IsReplay result (S.left source.old) (S.left source.new) (S.faults source.old) (S.faults source.new)
        (record { bytes = K.held sink.old; faults = K.faults sink.old; empty_writes = K.empty_writes sink.old })
        (record { bytes = K.held sink.new; faults = K.faults sink.new; empty_writes = K.empty_writes sink.new }) }
    ensures no_usage { result ≢ Status.Usage }
{
    let mut piece = Vec::new(alloc);
    let mut number = 0;
    let mut refused = false;
    'script: loop {
        let found = match answer_next(
            alloc,
            restyling,
            &mut lines,
            world,
            number + 1,
            &mut piece,
            source,
        ) {
            Ok(found) => found,
            Err(status) => return status,
        };
        let (after, is_refused) = match found {
            Some(answered) => answered,
            None => return finished(refused),
        };
        world = after;
        number += 1;
        refused |= is_refused;
        let Ok(()) = put_piece(sink, &piece) else {
            return Status::WriteFault;
        };
    }
}

/// Reads the next line and answers it as line `number`: the world after it and whether it is refused, or None where no
/// line is left.
fn answer_next<F: Restyling, S: Source>(
    alloc: Global,
    restyling: &F,
    lines: &mut Lines,
    world: Box<World>,
    number: u32,
    piece: &mut Vec<u8>,
    source: &mut S,
) -> Result<Option<(Box<World>, bool)>, Status>
    requires ready { F.can_restyle restyling.now }
    requires no_fault { lines.old.fault ≡ None }
    requires few { world.value.frames < 2 ^ 32 - 1 }
    ensures end { IfOk result (λ found. IfNone found
        (Told (stream_of lines.old (S.left source.old)) (stream_of lines.new (S.left source.new))
        (λ before after. (before ≡ []) × (after ≡ [])))) }
    ensures line { IfOk result (λ found. IfSome found (λ r. AnswersLine world.value number lines.old lines.new
        (S.left source.old) (S.left source.new) r.1 piece.new.items r.0.value)) }
    ensures shrinks { IfOk result (λ found. OnSome found (steps_left lines.new < steps_left lines.old)) }
    ensures no_fault { OnOk result (lines.new.fault ≡ None) }
    ensures within { OnOk result (lines.new.taken ≤ MAX_INPUT) }
    ensures taken { Told (S.left source.old) (S.left source.new) (IsTaken lines.old.taken lines.new.taken) }
    ensures faults { S.faults source.old ≤ S.faults source.new }
    ensures cause { IfErr result (λ status. HasEnd status lines.new.taken (S.faults source.old) (S.faults source.new)) }
    ensures no_line { result ≡ Err Status.TooMuch → IfSome (S.left source.old) (λ left.
        HasNoFeed (lines.old.pending ++ take (MAX_INPUT - lines.old.taken) left)) }
{
    match lines.next_line(source) {
        Ok(Line::Text) => answer_one(alloc, restyling, world, number, Some(lines.text()), piece),
        Ok(Line::Long) => answer_one(alloc, restyling, world, number, None, piece),
        Ok(Line::End) => Ok(None),
        Err(LineFault::ReadFault) => Err(Status::ReadFault),
        Err(LineFault::TooMuch) => Err(Status::TooMuch),
    }
}

/// Answers line `number`, given its text where it isn't over the limit.
fn answer_one<F: Restyling>(
    alloc: Global,
    restyling: &F,
    world: Box<World>,
    number: u32,
    line: Option<&[u8]>,
    piece: &mut Vec<u8>,
) -> Result<Option<(Box<World>, bool)>, Status>
    requires ready { F.can_restyle restyling.now }
    requires few { world.value.frames < 2 ^ 32 - 1 }
    requires short { IfSome line (λ text. length text.now ≤ MAX_STYLE_BYTES) }
    ensures answer { IfOk result (λ found. IsSomeAnd found (λ r.
        IsAnswered (answer_of world.value number (option_copied line.entry)) r.1 [] piece.new.items r.0.value)) }
    ensures memory { IfErr result (λ status. status ≡ Status.NoMemory) }
{
    match answer(alloc, restyling, world, number, line, piece) {
        Ok(answered) => Ok(Some(answered)),
        Err(_) => Err(Status::NoMemory),
    }
}

/// An empty piece isn't given to the sink.
fn put_piece<K: Sink>(sink: &mut K, piece: &[u8]) -> Result<(), WriteFault>
    ensures ok { OnOk result (Appends (K.held sink.old) (K.held sink.new) piece.now) }
    ensures prefix { OnErr result ((n : ℕ) × (n ≤ length piece.now)
        × Appends (K.held sink.old) (K.held sink.new) (take n piece.now)) }
    ensures faults { K.faults sink.old ≤ K.faults sink.new }
    ensures empty_writes { K.empty_writes sink.old ≤ K.empty_writes sink.new }
    ensures cause { OnErr result (Rose (K.faults sink.old) (K.faults sink.new)
        ⊎ RoseOrFull (K.empty_writes sink.old) (K.empty_writes sink.new)) }
{
    if piece.is_empty() {
        return Ok(());
    }
    put_all(sink, piece)
}

/// All was read and written.
fn finished(refused: bool) -> Status
    ensures refused { (result ≡ Status.Refused) ↔ IsTrue refused }
    ensures done { (result ≡ Status.Done) ↔ (refused ≡ false) }
    ensures finished { IsFinished result }
{
    if refused {
        Status::Refused
    } else {
        Status::Done
    }
}
