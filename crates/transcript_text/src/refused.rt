//! The lines of refusals.
ghost use Rattle.std.specs.Prelude.{◌≡◌, ◌∷◌, [], ◌++◌, codes, decimal, OnErr, OnOk};
ghost use Rattle.transcript_text.specs.Lines.{bound_name, fault_fields, line_of_fields, refused_line};

use crate::field::{Field, write_fields};
use script_text::Refusal;
use sheet_rules::{BoundName, CssFault};
use std::alloc::AllocError;

/// Appends the line of a refused line of the script, which has this number. Where memory runs out nothing is
/// appended.
pub fn write_refused(out: &mut Vec<u8>, line: u32, refusal: &Refusal) -> Result<(), AllocError>
    ensures ok { OnOk result (out.new.items ≡ out.old.items ++ refused_line line refusal.now) }
    ensures err { OnErr result (out.new.items ≡ out.old.items) }
{
    match *refusal {
        Refusal::BoundLine => write_reason(out, line, "bound line"),
        Refusal::Syntax => write_reason(out, line, "syntax"),
        Refusal::BoundNumber => write_reason(out, line, "bound number"),
        Refusal::UnknownNode => write_reason(out, line, "unknown-node"),
        Refusal::NodeTaken => write_reason(out, line, "node-taken"),
        Refusal::TimeBack(now) => write_fields(
            out,
            "refused",
            &[
                Field::Number(line),
                Field::Text("time-back"),
                Field::Millis(now),
            ],
        ),
        Refusal::Css(fault) => write_fault(out, line, fault),
        Refusal::BoundNodes => write_reason(out, line, "bound nodes"),
        Refusal::BoundDepth => write_reason(out, line, "bound depth"),
        Refusal::BoundRoot => write_reason(out, line, "bound root"),
        Refusal::BoundClasses => write_reason(out, line, "bound classes"),
        Refusal::NoStyle => write_reason(out, line, "no-style"),
    }
}

/// Appends the line of a fault of a style text or a sheet.
fn write_fault(out: &mut Vec<u8>, line: u32, fault: CssFault) -> Result<(), AllocError>
    ensures ok { OnOk result (out.new.items ≡ out.old.items ++ line_of_fields (codes "refused") (decimal line ∷ fault_fields fault)) }
    ensures err { OnErr result (out.new.items ≡ out.old.items) }
{
    match fault {
        CssFault::BadToken { at } => write_place(out, line, "bad-css", at),
        CssFault::UnsupportedRule { at } => write_place(out, line, "unsupported-rule", at),
        CssFault::UnsupportedValue { name, at } => {
            write_named_place(out, line, "unsupported-value", name.text(), at)
        }
        CssFault::Bound { what, at } => {
            write_named_place(out, line, "bound", bound_name(what), at)
        }
        // A refusal never has this one; it has no reason to tell.
        CssFault::NoMemory => write_fields(out, "refused", &[Field::Number(line)]),
    }
}

fn write_reason(out: &mut Vec<u8>, line: u32, reason: &str) -> Result<(), AllocError>
    ensures ok { OnOk result (out.new.items ≡ out.old.items ++ line_of_fields (codes "refused") (decimal line ∷ reason.now ∷ [])) }
    ensures err { OnErr result (out.new.items ≡ out.old.items) }
{
    write_fields(out, "refused", &[Field::Number(line), Field::Text(reason)])
}

fn write_place(out: &mut Vec<u8>, line: u32, reason: &str, at: u32) -> Result<(), AllocError>
    ensures ok { OnOk result (out.new.items ≡ out.old.items ++ line_of_fields (codes "refused") (decimal line ∷ reason.now ∷ codes "at" ∷ decimal at ∷ [])) }
    ensures err { OnErr result (out.new.items ≡ out.old.items) }
{
    write_fields(
        out,
        "refused",
        &[
            Field::Number(line),
            Field::Text(reason),
            Field::Text("at"),
            Field::Number(at),
        ],
    )
}

fn write_named_place(
    out: &mut Vec<u8>,
    line: u32,
    reason: &'static str,
    name: &'static str,
    at: u32,
) -> Result<(), AllocError>
    ensures ok { OnOk result (out.new.items ≡ out.old.items ++ line_of_fields (codes "refused") (decimal line ∷ reason.now ∷ name.now ∷ codes "at" ∷ decimal at ∷ [])) }
    ensures err { OnErr result (out.new.items ≡ out.old.items) }
{
    write_fields(
        out,
        "refused",
        &[
            Field::Number(line),
            Field::Text(reason),
            Field::Text(name),
            Field::Text("at"),
            Field::Number(at),
        ],
    )
}

/// What a bound is of.
fn bound_name(what: BoundName) -> &'static str
    ensures { result.now ≡ bound_name what }
{
    match what {
        BoundName::Value => "value",
        BoundName::Items => "items",
        BoundName::Declarations => "declarations",
        BoundName::Rules => "rules",
        BoundName::Selectors => "selectors",
        BoundName::Compounds => "compounds",
        BoundName::Offsets => "offsets",
    }
}
