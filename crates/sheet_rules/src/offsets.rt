//! The offsets of frames.
ghost use Rattle.std.specs.Prelude.{◌≡◌, ◌≤◌, ◌<◌, All, IfOk, IfSome, map, option_map, pos, ◌≤ℤ◌, ◌^◌};
ghost use Rattle.token_parts.specs.Parts.{token_part};
ghost use Rattle.fix_num.specs.declared.units.Bill.{Bill};
ghost use Rattle.sheet_rules.specs.Frames.{IsOffset, is_comma, offset_in, offset_named, offset_of, offsets_of};

use fix_num::{Bill, NumFault, read_rounded_bytes};
use std::alloc::{AllocError, Global};
use token_parts::{Part, is_keyword};

/// A hundred percent, in millionths.
const WHOLE: i64 = 100_000_000;

/// The offset that a part is: `from`, `to`, or a percent from 0 to 100.
fn offset_of(part: &Part) -> Option<Bill>
    ensures value { result ≡ offset_of (token_part part.now) }
    ensures range { IfSome result IsOffset }
{
    match part {
        Part::Ident(word) => offset_named(word),
        Part::Percent(number) => offset_in(read_rounded_bytes(number, 6, WHOLE)),
        _ => None,
    }
}

fn offset_named(word: &[u8]) -> Option<Bill>
    ensures value { result ≡ offset_named word.now }
    ensures range { IfSome result IsOffset }
{
    if is_keyword(word, b"from") {
        Some(Bill(0))
    } else if is_keyword(word, b"to") {
        Some(Bill(1_000_000_000))
    } else {
        None
    }
}

/// So many millionths of a percent, as billionths.
fn offset_in(percent: Result<i64, NumFault>) -> Option<Bill>
    ensures value { result ≡ offset_in percent }
    ensures range { IfSome result IsOffset }
{
    match percent {
        Ok(millionths) if millionths >= 0 && millionths <= WHOLE => Some(Bill(10 * millionths)),
        _ => None,
    }
}

/// The offsets that the parts are, with a comma between each and the next; `None` where they are none.
pub(crate) fn offsets_of(alloc: Global, parts: &[Part]) -> Result<Option<Vec<Bill>>, AllocError>
    ensures value { IfOk result (λ found. option_map (λ v. v.items) found ≡ offsets_of (map token_part parts.now)) }
    ensures range { IfOk result (λ found. IfSome found (λ v. All IsOffset v.items)) }
{
    let mut found = Vec::new(alloc);
    let mut at: usize = 0;
    while at < parts.len() {
        let Some(offset) = offset_of(&parts[at]) else {
            return Ok(None);
        };
        found.push(offset)?;
        if at + 1 == parts.len() {
            return Ok(Some(found));
        }
        if !is_comma(&parts[at + 1]) {
            return Ok(None);
        }
        at += 2;
    }
    Ok(None)
}

fn is_comma(part: &Part) -> bool
    ensures { result ≡ is_comma (token_part part.now) }
{
    matches!(part, Part::Comma)
}
