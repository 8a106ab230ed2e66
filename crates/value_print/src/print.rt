//! Computed values as text.
ghost use Rattle.std.specs.Prelude.{◌≡◌, ◌++◌, codes, pos, unsigned_abs, OnErr, OnOk};
ghost use Rattle.std.specs.Io.{StartsWith};
ghost use Rattle.value_print.specs.Printed.{color_text, number_text, pair_text, serialized_value, sign_text, size_text, sum_text, whole_text};

use crate::pieces::{push_channels, push_number, push_text};
use fix_num::{Fix, print_fix};
use std::alloc::AllocError;
use value_types::{PropertyId, Value};

/// Appends the printed form of a computed value, which doesn't depend on the property (CSSOM, "Serializing
/// CSS Values"). Where memory runs out nothing is appended.
pub fn print_value(out: &mut Vec<u8>, _p: PropertyId, v: Value) -> Result<(), AllocError>
    ensures ok { OnOk result (out.new.items ≡ out.old.items ++ serialized_value v) }
    ensures err { OnErr result (out.new.items ≡ out.old.items) }
{
    let before = out.len();
    let result = push_value(out, v);
    if result.is_err() {
        out.truncate(before);
    }
    result
}

#[tactic(auto, using(crate::proofs::Appending::starts_with_more))]
fn push_value(out: &mut Vec<u8>, v: Value) -> Result<(), AllocError>
    ensures ok { OnOk result (out.new.items ≡ out.old.items ++ serialized_value v) }
    ensures kept { StartsWith out.new.items out.old.items }
{
    match v {
        Value::Number(n) => push_number(out, n.0, ""),
        Value::Length { px, pct } => push_size(out, px, pct),
        Value::Auto => push_text(out, "auto"),
        Value::Int(i) => push_integer(out, i),
        Value::Color { r, g, b, a } => push_color(out, r, g, b, a),
        Value::Angle(n) => push_number(out, n.0, "deg"),
        Value::Pair {
            x_px,
            x_pct,
            y_px,
            y_pct,
        } => push_pair(out, x_px, x_pct, y_px, y_pct),
        Value::Absent => push_text(out, "none"),
        Value::Visible(v) => push_text(out, v.keyword()),
        Value::Display(d) => push_text(out, d.keyword()),
    }
}

#[tactic(auto, using(crate::proofs::Appending::starts_with_more))]
fn push_integer(out: &mut Vec<u8>, i: i32) -> Result<(), AllocError>
    ensures ok { OnOk result (out.new.items ≡ out.old.items ++ whole_text i) }
    ensures kept { StartsWith out.new.items out.old.items }
{
    print_fix(out, i64::from(i), 0)
}

#[tactic(auto, unfolding(crate::specs::Printed::size_text))]
fn push_size(out: &mut Vec<u8>, px: Fix, pct: Fix) -> Result<(), AllocError>
    ensures ok { OnOk result (out.new.items ≡ out.old.items ++ size_text px pct) }
    ensures kept { StartsWith out.new.items out.old.items }
{
    if pct.0 == 0 {
        return push_number(out, px.0, "px");
    }
    if px.0 == 0 {
        return push_number(out, pct.0, "%");
    }
    push_sum(out, px.0, pct.0)
}

#[tactic(auto, using(crate::proofs::Appending::starts_with_more), unfolding(crate::specs::Printed::sum_text))]
fn push_sum(out: &mut Vec<u8>, px: i64, pct: i64) -> Result<(), AllocError>
    ensures ok { OnOk result (out.new.items ≡ out.old.items ++ sum_text px pct) }
    ensures kept { StartsWith out.new.items out.old.items }
{
    push_text(out, "calc(")?;
    push_number(out, pct, sign(px))?;
    push_last(out, px)
}

/// Appends the size of a length that ends a sum.
#[tactic(auto, using(crate::proofs::Appending::starts_with_more))]
fn push_last(out: &mut Vec<u8>, px: i64) -> Result<(), AllocError>
    ensures ok { OnOk result (out.new.items ≡ out.old.items ++ number_text (pos (unsigned_abs px)) (codes "px)")) }
    ensures kept { StartsWith out.new.items out.old.items }
{
    if let Some(size) = px.checked_abs() {
        return push_number(out, size, "px)");
    }
    // The size of the least number is past those that an i64 holds.
    push_text(out, "9223372036854.775808px)")
}

fn sign(px: i64) -> &'static str
    ensures { result.now ≡ sign_text px }
{
    if px < 0 { "% - " } else { "% + " }
}

#[tactic(auto, using(crate::proofs::Appending::starts_with_more), unfolding(crate::specs::Printed::pair_text))]
fn push_pair(
    out: &mut Vec<u8>,
    x_px: Fix,
    x_pct: Fix,
    y_px: Fix,
    y_pct: Fix,
) -> Result<(), AllocError>
    ensures ok { OnOk result (out.new.items ≡ out.old.items ++ pair_text x_px x_pct y_px y_pct) }
    ensures kept { StartsWith out.new.items out.old.items }
{
    push_size(out, x_px, x_pct)?;
    if y_px.0 == 0 && y_pct.0 == 0 {
        return Ok(());
    }
    push_text(out, " ")?;
    push_size(out, y_px, y_pct)
}

#[tactic(auto, using(crate::proofs::Appending::starts_with_more), unfolding(crate::specs::Printed::color_text))]
fn push_color(out: &mut Vec<u8>, r: u8, g: u8, b: u8, a: Fix) -> Result<(), AllocError>
    ensures ok { OnOk result (out.new.items ≡ out.old.items ++ color_text r g b a) }
    ensures kept { StartsWith out.new.items out.old.items }
{
    if a.0 == Fix::ONE.0 {
        push_text(out, "rgb(")?;
        push_channels(out, r, g, b)?;
        return push_text(out, ")");
    }
    push_text(out, "rgba(")?;
    push_channels(out, r, g, b)?;
    push_text(out, ", ")?;
    push_number(out, a.0, ")")
}
