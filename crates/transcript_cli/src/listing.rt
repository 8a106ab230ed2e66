//! What `list` writes of an element.
ghost use Rattle.std.specs.Prelude.{◌≡◌, ◌++◌, OnOk, flat_map, filter};
ghost use Rattle.transcript_text.specs.Lines.{animation_line, completed_line, gone_line, running_line};
ghost use Rattle.transcript_cli.specs.Listing.{is_animation, is_transition, line_if, listing_of};

use std::alloc::AllocError;
use style_data::{Animation, Completed, Entry, Gone, Running, Subject};
use transcript_text::{write_animation, write_completed, write_gone, write_running};
use value_types::PropertyId;

/// Appends the lines of node `n`, whose entry this is.
pub(crate) fn write_listing(piece: &mut Vec<u8>, n: u32, entry: &Entry) -> Result<(), AllocError>
    ensures { OnOk result (piece.new.items ≡ piece.old.items ++ listing_of n entry.now) }
{
    write_all_running(piece, n, entry.running())?;
    write_all_completed(piece, n, entry.completed())?;
    write_animations(piece, n, entry.animations())?;
    write_gone_transitions(piece, n, entry.gone())?;
    write_gone_animations(piece, n, entry.gone())
}

fn write_all_running(
    piece: &mut Vec<u8>,
    n: u32,
    running: &[(PropertyId, Running)],
) -> Result<(), AllocError>
    ensures { OnOk result (piece.new.items ≡ piece.old.items ++ flat_map (λ r. running_line n r.0 r.1) running.now) }
{
    for (property, transition) in running {
        write_running(piece, n, *property, transition)?;
    }
    Ok(())
}

fn write_all_completed(
    piece: &mut Vec<u8>,
    n: u32,
    completed: &[(PropertyId, Completed)],
) -> Result<(), AllocError>
    ensures { OnOk result (piece.new.items ≡ piece.old.items ++ flat_map (λ c. completed_line n c.0 c.1) completed.now) }
{
    for (property, transition) in completed {
        write_completed(piece, n, *property, transition)?;
    }
    Ok(())
}

fn write_animations(piece: &mut Vec<u8>, n: u32, animations: &[Animation]) -> Result<(), AllocError>
    ensures { OnOk result (piece.new.items ≡ piece.old.items ++ flat_map (animation_line n) animations.now) }
{
    for animation in animations {
        write_animation(piece, n, animation)?;
    }
    Ok(())
}

fn write_gone_transitions(piece: &mut Vec<u8>, n: u32, gone: &[Gone]) -> Result<(), AllocError>
    ensures { OnOk result (piece.new.items ≡ piece.old.items ++ flat_map (gone_line n) (filter is_transition gone.now)) }
{
    for item in gone {
        write_if_transition(piece, n, item)?;
    }
    Ok(())
}

fn write_if_transition(piece: &mut Vec<u8>, n: u32, gone: &Gone) -> Result<(), AllocError>
    ensures { OnOk result (piece.new.items ≡ piece.old.items ++ line_if is_transition (gone_line n) gone.now) }
{
    match gone.subject {
        Subject::Property(_) => write_gone(piece, n, gone),
        Subject::Animation(_) => Ok(()),
    }
}

fn write_gone_animations(piece: &mut Vec<u8>, n: u32, gone: &[Gone]) -> Result<(), AllocError>
    ensures { OnOk result (piece.new.items ≡ piece.old.items ++ flat_map (gone_line n) (filter is_animation gone.now)) }
{
    for item in gone {
        write_if_animation(piece, n, item)?;
    }
    Ok(())
}

fn write_if_animation(piece: &mut Vec<u8>, n: u32, gone: &Gone) -> Result<(), AllocError>
    ensures { OnOk result (piece.new.items ≡ piece.old.items ++ line_if is_animation (gone_line n) gone.now) }
{
    match gone.subject {
        Subject::Property(_) => Ok(()),
        Subject::Animation(_) => write_gone(piece, n, gone),
    }
}
