//! The transitions of an element at a style change event.
use crate::declarations::style_of;
use crate::entries::transitions;
use fix_num::{Fix, Micros};
use std::test::Fail;
use style_data::{Style, Transitions};
use transition_update::{
    StyleChangeEvent, all_end_there, cancel_transitions, update_kept_transitions,
    update_transitions,
};
use value_types::{PropertyId, Value};

const LATER: [(PropertyId, Value); 1] = [(PropertyId::Opacity, Value::Number(Fix(250_000)))];

/// Half a second after the start of a fading from 0 to 1.
const EVENT: StyleChangeEvent = StyleChangeEvent {
    time: Micros(500_000),
    generation: 2,
    position: 3,
};

#[test]
fn stays_where_it_ends_there(rt: HostRuntime) -> Result<(), Fail> {
    let initial = Style::initial(rt.alloc());
    let kept = transitions(rt.alloc())?;
    let same = update_transitions(rt.alloc(), &kept, &initial, &initial, EVENT)?;
    assert!(rt; same.transitions.running().len() == 1 && same.transitions.completed().len() == 1);
    assert!(rt; same.gone.is_empty());
    Ok(())
}

#[test]
fn stays_where_no_other_is_asked(rt: HostRuntime) -> Result<(), Fail> {
    let initial = Style::initial(rt.alloc());
    let kept = transitions(rt.alloc())?;
    let same = update_kept_transitions(rt.alloc(), &kept, &initial, &initial, EVENT)?;
    assert!(rt; same.transitions.running().len() == 1 && same.transitions.completed().len() == 1);
    assert!(rt; same.gone.is_empty());
    Ok(())
}

/// What an element declares whose opacity runs to 1 and whose width has come to `auto`, and whether both stay.
const DECLARED: [(&str, bool); 9] = [
    ("", true),
    ("opacity: 0.25", false),
    ("opacity: 0.25; transition: all 1s", false),
    ("width: 3px", false),
    ("transition-property: width", false),
    ("transition-property: opacity", false),
    ("transition-property: opacity, width", true),
    ("transition: opacity 0s, width 2s -3s", true),
    ("height: 3px", true),
];

/// Whether the running transition of before runs on, and the completed one is there.
fn are_left(transitions: &Transitions) -> bool {
    transitions
        .running()
        .iter()
        .any(|item| item.1.get().generation == 1)
        && transitions.completed().len() == 1
}

#[test]
fn stay_where_they_end_there_and_match(rt: HostRuntime) -> Result<(), Fail> {
    let initial = Style::initial(rt.alloc());
    let kept = transitions(rt.alloc())?;
    for (text, stay) in DECLARED {
        assert!(rt; text.len() < 50);
        let after = style_of(rt.alloc(), text)?;
        assert!(rt; all_end_there(&kept, &after) == stay);
        let updated = update_transitions(rt.alloc(), &kept, &initial, &after, EVENT)?;
        assert!(rt; are_left(&updated.transitions) == stay);
    }
    Ok(())
}

#[test]
fn is_cancelled_where_there_is_no_time(rt: HostRuntime) -> Result<(), Fail> {
    let initial = Style::initial(rt.alloc());
    let later = Style::layered(rt.alloc(), &initial, &LATER)?;
    let kept = transitions(rt.alloc())?;
    let other = update_transitions(rt.alloc(), &kept, &initial, &later, EVENT)?;
    assert!(rt; other.transitions.running().is_empty() && other.transitions.completed().len() == 1);
    assert!(rt; other.gone.len() == 1 && other.gone[0].elapsed == Micros(500_000));
    Ok(())
}

#[test]
fn all_are_cancelled(rt: HostRuntime) -> Result<(), Fail> {
    let kept = transitions(rt.alloc())?;
    let gone = cancel_transitions(rt.alloc(), &kept, EVENT.time)?;
    assert!(rt; gone.len() == 1 && gone[0].cancelled == EVENT.time);
    Ok(())
}
