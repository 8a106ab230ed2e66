//! What texts declare.
ghost use Rattle.std.specs.Prelude.{IfOk};
ghost use Rattle.timing_types.specs.Timing.{IsEasing};
ghost use Rattle.value_types.specs.Validity.{IsDeclaredFor};

use css_token::tokens;
use list_text::{read_easing, read_list};
use timing_types::Easing;
use token_parts::ValueFault;
use value_text::read_value;
use value_types::{Declared, ListName, ListValue, PropertyId};

/// What the text declares of the property.
pub fn declared(rt: &HostRuntime, p: PropertyId, text: &str) -> Result<Declared, ValueFault>
    ensures { IfOk result (IsDeclaredFor p) }
{
    if text.len() > 100 {
        return Err(ValueFault::NoMemory);
    }
    let Ok(list) = tokens(rt.alloc(), text) else {
        return Err(ValueFault::NoMemory);
    };
    read_value(rt.alloc(), p, text, list.as_slice())
}

/// What the text declares of the list.
pub fn list(rt: &HostRuntime, name: ListName, text: &str) -> Result<ListValue, ValueFault> {
    if text.len() > 1000 {
        return Err(ValueFault::NoMemory);
    }
    let Ok(list) = tokens(rt.alloc(), text) else {
        return Err(ValueFault::NoMemory);
    };
    read_list(rt.alloc(), name, text, list.as_slice())
}

/// The easing that the text spells.
pub fn easing(rt: &HostRuntime, text: &str) -> Result<Easing, ValueFault>
    ensures { IfOk result IsEasing }
{
    if text.len() > 100 {
        return Err(ValueFault::NoMemory);
    }
    let Ok(list) = tokens(rt.alloc(), text) else {
        return Err(ValueFault::NoMemory);
    };
    let Ok(found) = read_easing(rt.alloc(), text, list.as_slice()) else {
        return Err(ValueFault::Unsupported);
    };
    Ok(found)
}
