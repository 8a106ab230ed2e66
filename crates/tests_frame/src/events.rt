//! Events in composite order.
ghost use Rattle.std.specs.Prelude.{◌≡◌, ◌≢◌, AllPairs, IfOk, flat_map};

use event_order::{key, merge};
use fix_num::Micros;
use std::alloc::{AllocError, Global};
use std::test::Fail;
use style_data::{Event, EventKind, Key, Subject};
use value_types::PropertyId;

/// An event of an element's opacity, with this time, class and number of its kind.
fn event(element: u32, time: u16, class: u32, kind: EventKind) -> Event {
    Event {
        element,
        subject: Subject::Property(PropertyId::Opacity),
        kind,
        elapsed: Micros(0),
        key: Key {
            time: Micros(i64::from(time)),
            class,
            first: element,
            second: 1,
            third: 12,
            kind: kind.number(),
        },
    }
}

/// A list of one list of one event.
fn one_list(alloc: Global) -> Result<Vec<Vec<Event>>, AllocError>
    ensures { IfOk result (λ lists. AllPairs (λ a b. a.key ≢ b.key) (flat_map (λ list. list.items) lists.items)) }
{
    let mut list = Vec::new(alloc);
    list.push(event(2, 5, 0, EventKind::End))?;
    let mut lists = Vec::new(alloc);
    lists.push(list)?;
    Ok(lists)
}

#[test]
fn merges_lists(rt: HostRuntime) -> Result<(), Fail> {
    let none = merge(rt.alloc(), Vec::new(rt.alloc()))?;
    assert!(rt; none.is_empty());
    let one = merge(rt.alloc(), one_list(rt.alloc())?)?;
    assert!(rt; one.len() == 1 && one[0].element == 2);
    Ok(())
}

#[test]
fn the_key_is_its_own(rt: HostRuntime) {
    let end = event(2, 5, 0, EventKind::End);
    assert!(rt; key(&end) == end.key);
}
