//! Styles and what is shared.
use crate::fading::number;
use fix_num::Fix;
use std::test::Fail;
use style_data::{NoSampling, Sampling, Shared, Style};
use timing_types::{AnimationLists, Same};
use value_types::{PropertyId, TransitionLists, Value};

const HALF: [(PropertyId, Value); 1] = [(PropertyId::Opacity, Value::Number(Fix(500_000)))];

#[test]
fn layers(rt: HostRuntime) -> Result<(), Fail> {
    let initial = Style::initial(rt.alloc());
    let half = Style::layered(rt.alloc(), &initial, &HALF)?;
    assert!(rt; half.value(PropertyId::Opacity) == number(500_000));
    assert!(rt; half.value(PropertyId::Width) == Value::Auto);
    assert!(rt; !half.is_same(&initial) && half.is_same(&half.copy(rt.alloc())?));
    Ok(())
}

#[test]
fn hands_down_the_initial_size(rt: HostRuntime) {
    let style = Style::initial(rt.alloc());
    assert!(rt; style.font_size() == Fix(16_000_000));
    let inherited = style.inherited(style.font_size()).get();
    assert!(rt; inherited.root_size == Fix(16_000_000) && inherited.font_size == Fix(16_000_000));
}

#[test]
fn shares(rt: HostRuntime) -> Result<(), Fail> {
    let lists = Shared::new(rt.alloc(), TransitionLists::initial(rt.alloc())?)?;
    let other = lists.copy()?;
    assert!(rt; other.get().is_same(lists.get()));
    let names = AnimationLists::initial(rt.alloc())?;
    assert!(rt; names.names().len() == 1);
    Ok(())
}

#[test]
fn samples_nothing(rt: HostRuntime) {
    let size = Style::initial(rt.alloc()).font_size();
    let found = NoSampling.value(PropertyId::Width, size, size, size, Value::Auto);
    assert!(rt; found.is_none());
}
