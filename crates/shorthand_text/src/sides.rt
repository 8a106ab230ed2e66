//! The shorthands of the sides of a box (CSS Box 4, "Margin Shorthand: the margin property").
ghost use Rattle.std.specs.Prelude.{◌≡◌, ◌∷◌, [], map, IfErr, IfOk};
ghost use Rattle.token_parts.specs.Parts.{token_part};
ghost use Rattle.shorthand_text.specs.Declaring.{Reads};
ghost use Rattle.shorthand_text.specs.Outcomes.{all_given};
ghost use Rattle.shorthand_text.specs.Sides.{box_in, side_in, sides_in, sides_of};

use crate::longhand::Longhand;
use std::alloc::Global;
use std::slice;
use token_parts::{Part, ValueFault};
use value_text::{cascade_keyword, value_of_parts};
use value_types::{Declared, PropertyId};

/// The values of the four sides.
#[derive(Clone, Copy)]
pub(crate) struct Sides {
    pub bottom: Declared,
    pub left: Declared,
    pub right: Declared,
    pub top: Declared,
}

/// What the parts declare of the four properties of a box, which are those of its bottom, left, right and top side
/// and have one row of the table.
pub(crate) fn box_longhands(
    alloc: Global,
    properties: &[PropertyId],
    parts: &[Part],
) -> Result<Vec<Longhand>, ValueFault>
    ensures { Reads (λ v. v.items) result (box_in properties.now (map token_part parts.now)) }
{
    match properties {
        [bottom, left, right, top] => match sides_in(alloc, *top, parts) {
            Ok(sides) => four(
                alloc,
                [
                    Longhand::Property(*bottom, sides.bottom),
                    Longhand::Property(*left, sides.left),
                    Longhand::Property(*right, sides.right),
                    Longhand::Property(*top, sides.top),
                ],
            ),
            Err(fault) => Err(fault),
        },
        _ => Err(ValueFault::Unsupported),
    }
}

fn four(alloc: Global, longhands: [Longhand; 4]) -> Result<Vec<Longhand>, ValueFault>
    ensures ok { IfOk result (λ v. v.items ≡ longhands) }
    ensures err { IfErr result (λ fault. fault ≡ ValueFault.NoMemory) }
{
    match Vec::from_array(alloc, longhands) {
        Ok(list) => Ok(list),
        Err(_) => Err(ValueFault::NoMemory),
    }
}

/// The values of the four sides by one to four parts.
#[tactic(auto, unfolding(crate::specs::Sides::sides_in))]
fn sides_in(alloc: Global, p: PropertyId, parts: &[Part]) -> Result<Sides, ValueFault>
    ensures { Reads (λ s. s) result (sides_in p (map token_part parts.now)) }
{
    if parts.len() > 4 {
        return Err(ValueFault::Unsupported);
    }
    match values_in(alloc, p, parts) {
        Ok(values) => sides_of(values.as_slice()).ok_or(ValueFault::Unsupported),
        Err(fault) => Err(fault),
    }
}

fn sides_of(values: &[Declared]) -> Option<Sides>
    ensures { result ≡ sides_of values.now }
{
    let (bottom, left, right, top) = match *values {
        [all] => (all, all, all, all),
        [vertical, horizontal] => (vertical, horizontal, horizontal, vertical),
        [top, horizontal, bottom] => (bottom, horizontal, horizontal, top),
        [top, right, bottom, left] => (bottom, left, right, top),
        _ => return None,
    };
    Some(Sides {
        bottom,
        left,
        right,
        top,
    })
}

/// The value that each part is; what is unsupported in one comes before a bound in another.
fn values_in(alloc: Global, p: PropertyId, parts: &[Part]) -> Result<Vec<Declared>, ValueFault>
    ensures { Reads (λ v. v.items) result (all_given (map (side_in p) (map token_part parts.now))) }
{
    let mut values = Vec::new(alloc);
    let mut fault = None;
    for part in parts {
        match side_in(p, part) {
            Ok(value) => {
                if values.push(value).is_err() {
                    return Err(ValueFault::NoMemory);
                }
            }
            Err(ValueFault::Unsupported) => return Err(ValueFault::Unsupported),
            Err(bound) => fault = Some(bound),
        }
    }
    match fault {
        Some(fault) => Err(fault),
        None => Ok(values),
    }
}

fn side_in(p: PropertyId, part: &Part) -> Result<Declared, ValueFault>
    ensures { result ≡ side_in p (token_part part.now) }
{
    let part = slice::from_ref(part);
    match cascade_keyword(part) {
        Some(_) => Err(ValueFault::Unsupported),
        None => value_of_parts(p, part),
    }
}
