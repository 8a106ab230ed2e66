//! Lines of any kind, field by field.
ghost use Rattle.std.specs.Prelude.{◌≡◌, ◌++◌, flat_map, map, OnErr, OnOk};
ghost use Rattle.std.specs.Io.{StartsWith};
ghost use Rattle.transcript_text.specs.Fields.{field_text};
ghost use Rattle.transcript_text.specs.Lines.{line_of_fields, with_spaces};

use fix_num::{Bill, Micros, print_fix};
use itoa::Buffer;
use std::alloc::AllocError;
use value_print::print_value;
use value_types::{PropertyId, Value};

/// What stands between two spaces of a line, or at its end.
#[derive(Clone, Copy)]
pub(crate) enum Field<'a> {
    Text(&'a str),
    Name(&'a [u8]),
    Number(u32),
    /// A time that is written in seconds.
    Seconds(Micros),
    /// A time that is written in milliseconds.
    Millis(Micros),
    Factor(Bill),
    /// A value of a property.
    Value(PropertyId, Value),
}

/// Appends the line of a kind with these fields. Where memory runs out nothing is appended.
pub(crate) fn write_fields(
    out: &mut Vec<u8>,
    kind: &str,
    fields: &[Field],
) -> Result<(), AllocError>
    ensures ok { OnOk result (out.new.items ≡ out.old.items ++ line_of_fields kind.now (map field_text fields.now)) }
    ensures err { OnErr result (out.new.items ≡ out.old.items) }
{
    let before = out.len();
    let result = push_line(out, kind, fields);
    if result.is_err() {
        out.truncate(before);
    }
    result
}

fn push_line(out: &mut Vec<u8>, kind: &str, fields: &[Field]) -> Result<(), AllocError>
    ensures ok { OnOk result (out.new.items ≡ out.old.items ++ line_of_fields kind.now (map field_text fields.now)) }
    ensures kept { StartsWith out.new.items out.old.items }
{
    push_text(out, kind)?;
    push_fields(out, fields)?;
    push_text(out, "\n")
}

/// Appends each field after a space.
fn push_fields(out: &mut Vec<u8>, fields: &[Field]) -> Result<(), AllocError>
    ensures ok { OnOk result (out.new.items ≡ out.old.items ++ with_spaces (map field_text fields.now)) }
    ensures kept { StartsWith out.new.items out.old.items }
{
    for field in fields {
        push_text(out, " ")?;
        push_field(out, *field)?;
    }
    Ok(())
}

fn push_field(out: &mut Vec<u8>, field: Field) -> Result<(), AllocError>
    ensures ok { OnOk result (out.new.items ≡ out.old.items ++ field_text field.entry) }
    ensures kept { StartsWith out.new.items out.old.items }
{
    match field {
        Field::Text(text) => push_text(out, text),
        Field::Name(name) => out.extend_from_slice(name),
        Field::Number(n) => push_text(out, Buffer::new().format(n)),
        Field::Seconds(time) => print_fix(out, time.0, 6),
        Field::Millis(time) => print_fix(out, time.0, 3),
        Field::Factor(factor) => print_fix(out, factor.0, 9),
        Field::Value(p, value) => print_value(out, p, value),
    }
}

fn push_text(out: &mut Vec<u8>, text: &str) -> Result<(), AllocError>
    ensures ok { OnOk result (out.new.items ≡ out.old.items ++ text.now) }
    ensures kept { StartsWith out.new.items out.old.items }
{
    out.extend_from_slice(text.as_bytes())
}
