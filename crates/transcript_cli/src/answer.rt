//! The answer to a line of a script.
ghost use Rattle.std.specs.Prelude.{◌≡◌, ◌≢◌, ◌-◌, ◌^◌, ◌<◌, ◌≤◌, ◌++◌, [], length, IfOk, IfSome, OnOk, None, false, flat_map, option_copied};
ghost use Rattle.computed_style.specs.Styles.{value_of};
ghost use Rattle.doc_tree.specs.declared.limits.TheConstants.{MAX_STYLE_BYTES};
ghost use Rattle.restyle.specs.Edits.{refusal_of, refusal_of_question};
ghost use Rattle.restyle.specs.StyleChanges.{entry_for};
ghost use Rattle.restyle.specs.Worlds.{world_after_frame};
ghost use Rattle.script_text.specs.Commands.{AreInBounds, IsNoLongerThan};
ghost use Rattle.script_text.specs.Reading.{AnswersReading};
ghost use Rattle.transcript_text.specs.Lines.{event_line, value_line};
ghost use Rattle.transcript_cli.specs.Listing.{listing_of};
ghost use Rattle.transcript_cli.specs.Play.{IsAnswered};
ghost use Rattle.transcript_cli.specs.Transcript.{answer_of, frame_lines, is_edit, judged_answer, output_of, reading_of};

use crate::listing::write_listing;
use crate::restyling::Restyling;
use restyle::{EditFault, World};
use script_text::{Command, ReadCommandFault, Refusal, read_command};
use std::alloc::{AllocError, Global};
use style_data::Event;
use transcript_text::{write_event, write_refused, write_value};
use value_types::PropertyId;

/// Answers line `number`, given its text where it isn't over the limit: makes the piece what it writes, and gives the
/// world after it and whether it is refused.
#[tactic(auto, unfolding(crate::specs::Transcript::answer_of))]
pub(crate) fn answer<F: Restyling>(
    alloc: Global,
    restyling: &F,
    world: Box<World>,
    number: u32,
    line: Option<&[u8]>,
    piece: &mut Vec<u8>,
) -> Result<(Box<World>, bool), AllocError>
    requires ready { F.can_restyle restyling.now }
    requires few { world.value.frames < 2 ^ 32 - 1 }
    requires short { IfSome line (λ text. length text.now ≤ MAX_STYLE_BYTES) }
    ensures { IfOk result (λ r. IsAnswered (answer_of world.value number (option_copied line.entry)) r.1 [] piece.new.items r.0.value) }
{
    piece.clear();
    match read_line(alloc, line) {
        Ok(command) => perform(alloc, restyling, world, number, &command, piece),
        Err(ReadCommandFault::Refused(refusal)) => {
            write_refused(piece, number, &refusal)?;
            Ok((world, true))
        }
        Err(ReadCommandFault::NoMemory) => Err(AllocError),
    }
}

/// The command of a line, given its text where it isn't over the limit.
fn read_line(alloc: Global, line: Option<&[u8]>) -> Result<Command, ReadCommandFault>
    requires { IfSome line (λ text. length text.now ≤ MAX_STYLE_BYTES) }
    ensures reading { AnswersReading (reading_of (option_copied line.entry)) result }
    ensures numbers { IfOk result AreInBounds }
    ensures text { IfOk result (IsNoLongerThan MAX_STYLE_BYTES) }
{
    match line {
        Some(text) => read_command(alloc, text),
        None => Err(ReadCommandFault::Refused(Refusal::BoundLine)),
    }
}

/// Answers a command as that of line `number`: appends what it writes, and gives the world after it and whether it is
/// refused.
fn perform<F: Restyling>(
    alloc: Global,
    restyling: &F,
    world: Box<World>,
    number: u32,
    command: &Command,
    piece: &mut Vec<u8>,
) -> Result<(Box<World>, bool), AllocError>
    requires ready { F.can_restyle restyling.now }
    requires few { world.value.frames < 2 ^ 32 - 1 }
    requires numbers { AreInBounds command.now }
    requires text { IsNoLongerThan MAX_STYLE_BYTES command.now }
    ensures { IfOk result (λ r. IsAnswered (judged_answer world.value number command.now (refusal_of world.value command.now)) r.1 piece.old.items piece.new.items r.0.value) }
{
    let mut world = world;
    match command {
        Command::Frame => Ok((frame(alloc, restyling, world, piece)?, false)),
        _ => {
            let refused = edit(alloc, &mut *world, number, command, piece)?;
            Ok((world, refused))
        }
    }
}

/// The world after a frame, whose events are appended.
fn frame<F: Restyling>(
    alloc: Global,
    restyling: &F,
    world: Box<World>,
    piece: &mut Vec<u8>,
) -> Result<Box<World>, AllocError>
    requires ready { F.can_restyle restyling.now }
    requires few { world.value.frames < 2 ^ 32 - 1 }
    ensures world { IfOk result (λ w. w.value ≡ world_after_frame world.value) }
    ensures piece { OnOk result (piece.new.items ≡ piece.old.items ++ frame_lines world.value) }
{
    let (world, out) = restyling.frame(alloc, Box::into_inner(world))?;
    write_events(piece, &out.events)?;
    Ok(Box::new(alloc, world)?)
}

/// Appends the lines of events.
fn write_events(piece: &mut Vec<u8>, events: &[Event]) -> Result<(), AllocError>
    ensures { OnOk result (piece.new.items ≡ piece.old.items ++ flat_map event_line events.now) }
{
    for event in events {
        write_event(piece, event)?;
    }
    Ok(())
}

/// Edits the world by a command that is no frame, and appends what that writes: whether it is refused.
fn edit(
    alloc: Global,
    world: &mut World,
    number: u32,
    command: &Command,
    piece: &mut Vec<u8>,
) -> Result<bool, AllocError>
    requires edit { command.now ≢ Command.Frame }
    requires numbers { AreInBounds command.now }
    requires text { IsNoLongerThan MAX_STYLE_BYTES command.now }
    ensures { IfOk result (λ refused. IsAnswered (judged_answer world.old number command.now (refusal_of world.old command.now)) refused piece.old.items piece.new.items world.new) }
{
    match world.apply_edit(alloc, command) {
        Ok(()) => {
            write_output(piece, world, command)?;
            Ok(false)
        }
        Err(EditFault::Refused(refusal)) => {
            write_refused(piece, number, &refusal)?;
            Ok(true)
        }
        Err(EditFault::NoMemory) => Err(AllocError),
    }
}

/// Appends what an accepted command writes that is no frame; the world is the one after it.
fn write_output(piece: &mut Vec<u8>, world: &World, command: &Command) -> Result<(), AllocError>
    requires edit { command.now ≢ Command.Frame }
    requires accepted { is_edit command.now ≡ false → refusal_of world.now command.now ≡ None }
    ensures { OnOk result (piece.new.items ≡ piece.old.items ++ output_of world.now command.now) }
{
    match command {
        Command::Get { node, property } => write_property(piece, world, *node, *property),
        Command::List(node) => write_node(piece, world, *node),
        _ => Ok(()),
    }
}

/// Appends the value that the last frame gave a property of node `n`.
fn write_property(
    piece: &mut Vec<u8>,
    world: &World,
    n: u32,
    p: PropertyId,
) -> Result<(), AllocError>
    requires { refusal_of_question world.now n ≡ None }
    ensures { OnOk result (piece.new.items ≡ piece.old.items ++ value_line n p (value_of (entry_for world.now.entries n).now p)) }
{
    match world.value(n, p) {
        Ok(value) => write_value(piece, n, p, value),
        Err(_) => unreachable!(),
    }
}

/// Appends the transitions and animations of node `n`.
fn write_node(piece: &mut Vec<u8>, world: &World, n: u32) -> Result<(), AllocError>
    requires { refusal_of_question world.now n ≡ None }
    ensures { OnOk result (piece.new.items ≡ piece.old.items ++ listing_of n (entry_for world.now.entries n)) }
{
    match world.entry(n) {
        Ok(entry) => write_listing(piece, n, entry),
        Err(_) => unreachable!(),
    }
}
