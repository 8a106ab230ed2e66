//! The lines of an element's transitions.
ghost use Rattle.std.specs.Prelude.{◌≡◌, ◌++◌, OnErr, OnOk};
ghost use Rattle.transcript_text.specs.Lines.{completed_line, running_line};

use crate::field::{Field, write_fields};
use std::alloc::AllocError;
use style_data::{Completed, Running};
use value_types::PropertyId;

/// Appends the line of a running transition. Where memory runs out nothing is appended.
pub fn write_running(
    out: &mut Vec<u8>,
    node: u32,
    property: PropertyId,
    running: &Running,
) -> Result<(), AllocError>
    ensures ok { OnOk result (out.new.items ≡ out.old.items ++ running_line node property running.now) }
    ensures err { OnErr result (out.new.items ≡ out.old.items) }
{
    let transition = running.get();
    write_fields(
        out,
        "running",
        &[
            Field::Number(node),
            Field::Text(property.name()),
            Field::Text("from"),
            Field::Value(property, transition.from),
            Field::Text("to"),
            Field::Value(property, transition.to),
            Field::Text("adjusted"),
            Field::Value(property, transition.adjusted),
            Field::Text("start"),
            Field::Millis(transition.start),
            Field::Text("end"),
            Field::Millis(transition.end),
            Field::Text("factor"),
            Field::Factor(transition.factor),
            Field::Text("generation"),
            Field::Number(transition.generation),
        ],
    )
}

/// Appends the line of a completed transition. Where memory runs out nothing is appended.
pub fn write_completed(
    out: &mut Vec<u8>,
    node: u32,
    property: PropertyId,
    completed: &Completed,
) -> Result<(), AllocError>
    ensures ok { OnOk result (out.new.items ≡ out.old.items ++ completed_line node property completed.now) }
    ensures err { OnErr result (out.new.items ≡ out.old.items) }
{
    write_fields(
        out,
        "completed",
        &[
            Field::Number(node),
            Field::Text(property.name()),
            Field::Text("to"),
            Field::Value(property, completed.to),
        ],
    )
}
