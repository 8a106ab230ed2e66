//! Copies and equality of names, lists and frames.

use css_token::is_identifier;
use fix_num::{Bill, Fix, Micros};
use std::test::Fail;
use timing_types::{AnimationLists, Count, Easing, Items, Name, PlayState, Same};
use value_types::{Declared, Frame, Frames, ListValue, PropertyId, PropertyItem, TransitionLists};

fn name(rt: &HostRuntime, bytes: &[u8]) -> Result<Name, Fail> {
    if !is_identifier(bytes) {
        return Err("no identifier".into());
    }
    Ok(Name::from_bytes(rt.alloc(), bytes)?)
}

#[test]
fn names(rt: HostRuntime) -> Result<(), Fail> {
    let fade = name(&rt, b"fade")?;
    let copy = fade.copy(rt.alloc())?;
    assert!(rt; copy.is_same(&fade));
    let other = name(&rt, b"Fade")?;
    assert!(rt; !fade.is_same(&other));
    let underscore = Name::underscore(rt.alloc());
    assert!(rt; underscore.as_bytes() == b"_".as_slice());
    Ok(())
}

#[test]
fn identifiers(rt: HostRuntime) {
    for (word, wanted) in [
        ("a", true),
        ("--", true),
        ("-a1", true),
        ("_", true),
        ("-1", false),
        ("1a", false),
        ("a b", false),
        ("-", false),
        ("", false),
    ] {
        assert!(rt; is_identifier(word.as_bytes()) == wanted);
    }
}

#[test]
fn items(rt: HostRuntime) -> Result<(), Fail> {
    let mut items = Items::new(rt.alloc());
    items.push(Micros(1))?;
    items.push(Micros(2))?;
    let copy = Items::from_vec(items.copy(rt.alloc())?.into_vec());
    assert!(rt; copy.len() == 2);
    assert!(rt; copy.get(1).copied() == Some(Micros(2)));
    assert!(rt; copy.is_same(&items));
    Ok(())
}

#[test]
fn list_values(rt: HostRuntime) -> Result<(), Fail> {
    let fade = name(&rt, b"fade")?;
    let names = ListValue::Names(Items::of(rt.alloc(), Some(fade))?);
    let copy = names.copy(rt.alloc())?;
    assert!(rt; copy.is_same(&names));
    assert!(rt; !copy.is_same(&ListValue::Initial));
    Ok(())
}

#[test]
fn transition_lists(rt: HostRuntime) -> Result<(), Fail> {
    let lists = TransitionLists::initial(rt.alloc())?;
    assert!(rt; lists.items() == [PropertyItem::All].as_slice());
    assert!(rt; lists.durations() == [Micros(0)].as_slice());
    assert!(rt; lists.delays() == [Micros(0)].as_slice());
    assert!(rt; lists.easings() == [Easing::ease()].as_slice());
    let copy = lists.copy(rt.alloc())?;
    assert!(rt; copy.is_same(&lists));
    Ok(())
}

#[test]
fn animation_lists(rt: HostRuntime) -> Result<(), Fail> {
    let lists = AnimationLists::initial(rt.alloc())?;
    assert!(rt; lists.names().len() == 1);
    assert!(rt; lists.counts() == [Count::Times(Fix(1_000_000))].as_slice());
    assert!(rt; lists.states() == [PlayState::Running].as_slice());
    let copy = lists.copy(rt.alloc())?;
    assert!(rt; copy.is_same(&lists));
    Ok(())
}

#[test]
fn frames(rt: HostRuntime) -> Result<(), Fail> {
    let frame = Frame {
        offset: Bill(0),
        property: PropertyId::Opacity,
        declared: Declared::Number(Fix(0)),
        easing: None,
    };
    let frames = Frames::from_vec(vec![in rt.alloc(); frame]?);
    let copy = frames.copy(rt.alloc())?;
    assert!(rt; copy.is_same(&frames));
    Ok(())
}
