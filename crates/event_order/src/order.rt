//! The order in which events are sent.

ghost use Rattle.std.specs.Prelude.{◌≡◌, ◌≢◌, AllPairs, IfOk, flat_map};
ghost use Rattle.event_order.specs.Order.{IsInOrderOf};

use std::alloc::{AllocError, Global};
use style_data::{Event, Key};

/// Where the event stands among those of its frame.
pub fn key(event: &Event) -> Key
    ensures { result ≡ event.now.key }
{
    event.key
}

/// The events of all lists, ascending by their keys (Web Animations 1, "update animations and send events": by scheduled
/// event time, then in composite order). No two events have one key.
pub fn merge(alloc: Global, lists: Vec<Vec<Event>>) -> Result<Vec<Event>, AllocError>
    requires { AllPairs (λ a b. a.key ≢ b.key) (flat_map (λ list. list.items) lists.items) }
    ensures { IfOk result (λ merged. IsInOrderOf merged.items (flat_map (λ list. list.items) lists.items)) }
{
    let mut events = joined(alloc, lists)?;
    events.sort_by(|a, b| a.key.compare(b.key))?;
    Ok(events)
}

/// The events of the lists, one list after another.
fn joined(alloc: Global, lists: Vec<Vec<Event>>) -> Result<Vec<Event>, AllocError>
    ensures { IfOk result (λ events. events.items ≡ flat_map (λ list. list.items) lists.items) }
{
    let mut events = Vec::new(alloc);
    for list in lists {
        let mut list = list;
        events.append(&mut list)?;
    }
    Ok(events)
}
