//! The update of an element.
use animation_names::Paired;
use element_step::{is_rendered, update_entry};
use fix_num::{Fix, Micros};
use std::test::Fail;
use style_data::{DeclaredSet, Entry, NoSampling};
use transition_update::StyleChangeEvent;
use value_types::{PropertyId, Value};

#[test]
fn first_update_of_the_root(rt: HostRuntime) -> Result<(), Fail> {
    let event = StyleChangeEvent {
        time: Micros(0),
        generation: 1,
        position: 0,
    };
    let paired = Paired {
        animations: Vec::new(rt.alloc()),
        gone: Vec::new(rt.alloc()),
    };
    let fresh = Entry::fresh(rt.alloc())?;
    let updated = update_entry(
        rt.alloc(),
        &fresh,
        DeclaredSet::empty(),
        None,
        &NoSampling,
        &NoSampling,
        paired,
        None,
        event,
        false,
    )?;
    assert!(rt; updated.entry.styled() && updated.entry.rendered() && updated.entry.settled());
    assert!(rt; updated.entry.now().value(PropertyId::Opacity) == Value::Number(Fix(1_000_000)));
    let down = updated.down.ok_or("it hands down nothing")?;
    assert!(rt; down.rendered && down.changed && down.before.is_none());
    assert!(rt; is_rendered(&DeclaredSet::empty(), Some(&down)));
    Ok(())
}
