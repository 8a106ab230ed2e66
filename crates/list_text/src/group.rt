//! The groups of parts between commas.
ghost use Rattle.std.specs.Prelude.{◌≡◌, false, map, IfOk};
ghost use Rattle.token_parts.specs.Parts.{token_part};
ghost use Rattle.list_text.specs.ItemReading.{groups_of, is_inside, parts_items};

use std::alloc::{AllocError, Global};
use token_parts::Part;

/// The parts between commas outside brackets.
pub(crate) fn groups<'a, 'b>(
    alloc: Global,
    parts: &'b [Part<'a>],
) -> Result<Vec<&'b [Part<'a>]>, AllocError>
    ensures { IfOk result (λ v. map (λ g. map token_part g.now) v.items ≡ groups_of false (map token_part parts.now)) }
{
    let mut groups = Vec::new(alloc);
    let mut from: usize = 0;
    let mut inside = false;
    for (i, part) in parts.iter().enumerate() {
        if parts_items(inside, part) {
            groups.push(&parts[from..i])?;
            from = i + 1;
            inside = false;
        } else {
            inside = is_inside(inside, part);
        }
    }
    groups.push(&parts[from..])?;
    Ok(groups)
}

/// Whether the part is a comma outside brackets.
fn parts_items(inside: bool, part: &Part) -> bool
    ensures { result ≡ parts_items inside (token_part part.now) }
{
    !inside && matches!(part, Part::Comma)
}

/// Whether a bracket is open after the part.
pub fn is_inside(inside: bool, part: &Part) -> bool
    ensures { result ≡ is_inside inside (token_part part.now) }
{
    match part {
        Part::Function(_) => true,
        Part::Close => false,
        _ => inside,
    }
}
