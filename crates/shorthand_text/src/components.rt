//! The components of a value (CSS Syntax 3, "Component value"), and what is taken of them.
ghost use Rattle.std.specs.Prelude.{◌≡◌, false, map, IfOk};
ghost use Rattle.token_parts.specs.Parts.{token_part};
ghost use Rattle.shorthand_text.specs.Components.{component_values_of, fitting, others};

use list_text::{Item, is_inside};
use std::alloc::{AllocError, Global};
use token_parts::Part;
use value_types::ListName;

/// The components of the parts: a function goes up to its bracket, any other part is one by itself.
pub(crate) fn components<'a, 'b>(
    alloc: Global,
    parts: &'b [Part<'a>],
) -> Result<Vec<&'b [Part<'a>]>, AllocError>
    ensures { IfOk result (λ v. map (λ c. map token_part c.now) v.items ≡ component_values_of false (map token_part parts.now)) }
{
    let mut components = Vec::new(alloc);
    let mut from: usize = 0;
    let mut inside = false;
    for (i, part) in parts.iter().enumerate() {
        inside = is_inside(inside, part);
        if !inside {
            components.push(&parts[from..i + 1])?;
            from = i + 1;
        }
    }
    if inside {
        components.push(&parts[from..])?;
    }
    Ok(components)
}

/// Takes the first component out that is an item of the list.
pub(crate) fn take_first<T: Item>(
    alloc: Global,
    name: ListName,
    components: &mut Vec<&[Part]>,
) -> Result<Option<T>, AllocError>
    ensures { IfOk result (λ found.
        (found ≡ fitting (T.item_of name) (map (λ c. map token_part c.now) components.old.items))
        × (map (λ c. map token_part c.now) components.new.items ≡ others (T.item_of name) (map (λ c. map token_part c.now) components.old.items))) }
{
    for i in 0..components.len() {
        if let Some(item) = T::read(alloc, name, components[i])? {
            let _ = components.remove(i);
            return Ok(Some(item));
        }
    }
    Ok(None)
}
