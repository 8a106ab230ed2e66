//! The lines of an element's animations, and of what was cancelled.
ghost use Rattle.std.specs.Prelude.{◌≡◌, ◌++◌, OnErr, OnOk};
ghost use Rattle.transcript_text.specs.Lines.{animation_line, gone_line};

use crate::event::{name_of, subject_kind};
use crate::field::{Field, write_fields};
use std::alloc::AllocError;
use style_data::{Animation, Gone};

/// Appends the line of an animation, which tells where it is held if it is paused, and else when it started. Where
/// memory runs out nothing is appended.
pub fn write_animation(
    out: &mut Vec<u8>,
    node: u32,
    animation: &Animation,
) -> Result<(), AllocError>
    ensures ok { OnOk result (out.new.items ≡ out.old.items ++ animation_line node animation.now) }
    ensures err { OnErr result (out.new.items ≡ out.old.items) }
{
    let state = animation.get();
    let (word, time) = match state.hold {
        Some(hold) => ("hold", hold),
        None => ("start", state.start),
    };
    write_fields(
        out,
        "animation",
        &[
            Field::Number(node),
            Field::Number(state.place),
            Field::Name(state.name.as_bytes()),
            Field::Text(word),
            Field::Millis(time),
        ],
    )
}

/// Appends the line of a cancelled transition or animation. Where memory runs out nothing is appended.
pub fn write_gone(out: &mut Vec<u8>, node: u32, gone: &Gone) -> Result<(), AllocError>
    ensures ok { OnOk result (out.new.items ≡ out.old.items ++ gone_line node gone.now) }
    ensures err { OnErr result (out.new.items ≡ out.old.items) }
{
    write_fields(
        out,
        "gone",
        &[
            Field::Number(node),
            Field::Text(subject_kind(&gone.subject)),
            name_of(&gone.subject),
            Field::Text("cancelled"),
            Field::Millis(gone.cancelled),
        ],
    )
}
