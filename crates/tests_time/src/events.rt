//! The order of events.

use fix_num::Micros;
use std::cmp::Ordering;
use style_data::{EventKind, Key, entries_may_be_shared};

#[test]
fn numbers_of_kinds(rt: HostRuntime) {
    for (kind, number) in [
        (EventKind::Run, 0),
        (EventKind::Start, 1),
        (EventKind::Iteration, 2),
        (EventKind::End, 3),
        (EventKind::Cancel, 4),
    ] {
        assert!(rt; kind.number() == number);
    }
}

#[test]
fn order_of_keys(rt: HostRuntime) {
    let key = Key {
        time: Micros(-5),
        class: 0,
        first: 9,
        second: 1,
        third: 0,
        kind: 4,
    };
    for (other, wanted) in [
        (key, Ordering::Equal),
        (Key { kind: 3, ..key }, Ordering::Greater),
        (
            Key {
                third: 1,
                kind: 0,
                ..key
            },
            Ordering::Less,
        ),
        (
            Key {
                time: Micros(-6),
                first: 10,
                ..key
            },
            Ordering::Greater,
        ),
    ] {
        assert!(rt; key.compare(other) == wanted);
    }
}

#[test]
fn may_cross_threads() {
    entries_may_be_shared();
}
