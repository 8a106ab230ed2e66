//! Pieces of text at the end of others.
ghost use Rattle.std.specs.Prelude.{◌≡◌, ◌++◌, pos, OnErr, OnOk};
ghost use Rattle.std.specs.Io.{StartsWith};
ghost use Rattle.value_print.specs.Printed.{channels_text, number_text, whole_text};

use fix_num::print_fix;
use std::alloc::AllocError;

pub(crate) fn push_text(out: &mut Vec<u8>, text: &str) -> Result<(), AllocError>
    ensures ok { OnOk result (out.new.items ≡ out.old.items ++ text.now) }
    ensures kept { StartsWith out.new.items out.old.items }
{
    out.extend_from_slice(text.as_bytes())
}

/// Appends `n` millionths and their unit.
#[tactic(auto, using(crate::proofs::Appending::starts_with_more))]
pub(crate) fn push_number(out: &mut Vec<u8>, n: i64, unit: &str) -> Result<(), AllocError>
    ensures ok { OnOk result (out.new.items ≡ out.old.items ++ number_text n unit.now) }
    ensures kept { StartsWith out.new.items out.old.items }
{
    print_fix(out, n, 6)?;
    push_text(out, unit)
}

#[tactic(auto, using(crate::proofs::Appending::starts_with_more))]
pub(crate) fn push_channels(out: &mut Vec<u8>, r: u8, g: u8, b: u8) -> Result<(), AllocError>
    ensures ok { OnOk result (out.new.items ≡ out.old.items ++ channels_text r g b) }
    ensures kept { StartsWith out.new.items out.old.items }
{
    push_channel(out, r)?;
    push_text(out, ", ")?;
    push_channel(out, g)?;
    push_text(out, ", ")?;
    push_channel(out, b)
}

#[tactic(auto, using(crate::proofs::Appending::starts_with_more))]
fn push_channel(out: &mut Vec<u8>, channel: u8) -> Result<(), AllocError>
    ensures ok { OnOk result (out.new.items ≡ out.old.items ++ whole_text (pos channel)) }
    ensures kept { StartsWith out.new.items out.old.items }
{
    print_fix(out, i64::from(channel), 0)
}
