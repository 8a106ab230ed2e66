//! Winning declarations.
ghost use Rattle.std.specs.Prelude.{◌≤◌, length};

use mini_cascade::compute;
use sheet_rules::read_style;
use shorthand_text::Longhand;
use std::alloc::Global;
use std::test::Fail;
use style_data::{DeclaredSet, NoSampling, Style, Winning};
use timing_types::Same;
use value_types::{Declared, ListName, ListValue, PropertyId};

/// The style of an element with the declarations of this text, without a parent.
pub(crate) fn style_of(alloc: Global, text: &str) -> Result<Style, Fail>
    requires { length text.now ≤ 200 }
{
    let mut winning = Winning::new(alloc);
    for declaration in read_style(alloc, text)?.iter() {
        match &declaration.get().longhand {
            Longhand::Property(p, declared) => winning.put(*p, false, *declared)?,
            Longhand::List(name, value) => winning.put_list(*name, false, value.copy(alloc)?)?,
        }
    }
    Ok(compute(alloc, &winning.finish(alloc)?, &NoSampling, &[], None)?)
}

#[test]
fn collects_winners(rt: HostRuntime) -> Result<(), Fail> {
    let mut winning = Winning::new(rt.alloc());
    winning.put(PropertyId::ZIndex, true, Declared::Auto)?;
    winning.put(PropertyId::ZIndex, false, Declared::Initial)?;
    winning.put_list(ListName::AnimationName, false, ListValue::Initial)?;
    let declared = winning.finish(rt.alloc())?;
    let copy = declared.copy()?;
    let winners = copy.winners(PropertyId::ZIndex);
    assert!(rt; winners.important == Some(Declared::Auto));
    assert!(rt; winners.normal == Some(Declared::Initial));
    assert!(rt; copy.winners(PropertyId::Width).normal.is_none());
    assert!(rt; copy.list(ListName::AnimationName, false).is_some());
    assert!(rt; copy.list(ListName::AnimationName, true).is_none());
    assert!(rt; copy.is_same(&declared) && !copy.is_same(&DeclaredSet::empty()));
    Ok(())
}

#[test]
fn none_is_empty(rt: HostRuntime) -> Result<(), Fail> {
    let declared = Winning::new(rt.alloc()).finish(rt.alloc())?;
    assert!(rt; declared.is_same(&DeclaredSet::empty()));
    Ok(())
}
