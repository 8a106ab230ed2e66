//! The lines of values and of work.
ghost use Rattle.std.specs.Prelude.{◌≡◌, ◌++◌, OnErr, OnOk};
ghost use Rattle.transcript_text.specs.Lines.{value_line, work_line};

use crate::field::{Field, write_fields};
use std::alloc::AllocError;
use value_types::{PropertyId, Value};

/// Appends the line of how many elements a frame updated. Where memory runs out nothing is appended.
pub fn write_work(out: &mut Vec<u8>, frame: u32, updated: u32) -> Result<(), AllocError>
    ensures ok { OnOk result (out.new.items ≡ out.old.items ++ work_line frame updated) }
    ensures err { OnErr result (out.new.items ≡ out.old.items) }
{
    write_fields(out, "work", &[Field::Number(frame), Field::Number(updated)])
}

/// Appends the line of the value that an element has of a property. Where memory runs out nothing is appended.
pub fn write_value(
    out: &mut Vec<u8>,
    node: u32,
    property: PropertyId,
    value: Value,
) -> Result<(), AllocError>
    ensures ok { OnOk result (out.new.items ≡ out.old.items ++ value_line node property value) }
    ensures err { OnErr result (out.new.items ≡ out.old.items) }
{
    write_fields(
        out,
        "value",
        &[
            Field::Number(node),
            Field::Text(property.name()),
            Field::Value(property, value),
        ],
    )
}
