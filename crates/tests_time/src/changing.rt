//! The three styles of an element at a style change event.
ghost use Rattle.std.specs.Prelude.{◌≡◌, ◌*◌, pos};
ghost use Rattle.style_data.specs.Kept.{IsKeptFor};
ghost use Rattle.value_types.specs.declared.property.PropertyId.{PropertyId};
ghost use Rattle.value_types.specs.declared.value.Value.{Value};

use change_styles::before_style;
use fix_num::{Bill, Fix, Micros};
use std::alloc::{AllocError, Global};
use std::test::Fail;
use style_data::{
    DeclaredSet, Effects, Entry, NoSampling, Phase, Running, Style, Transition, Transitions,
    Winning,
};
use timing_types::Easing;
use value_types::{Declared, PropertyId, Size, Unit, Value};

fn pixels(px: u8) -> Value
    ensures { result ≡ Value.Length (record { 0 = pos (px * 1000000) }) (record { 0 = pos 0 }) }
{
    Value::Length {
        px: Fix(i64::from(px) * 1_000_000),
        pct: Fix(0),
    }
}

/// A transition of the letter spacing from 0 to 8px in the first second.
fn spreading() -> Running
    ensures { IsKeptFor PropertyId.LetterSpacing result }
{
    Running::new(Transition {
        from: pixels(0),
        to: pixels(8),
        adjusted: pixels(0),
        created: Micros(0),
        start: Micros(0),
        end: Micros(1_000_000),
        easing: Easing::Linear,
        factor: Bill(1_000_000_000),
        generation: 1,
        position: 0,
        seen: Phase::Active,
    })
}

fn running(alloc: Global) -> Result<Transitions, AllocError> {
    let mut transitions = Transitions::new(alloc);
    transitions.keep(PropertyId::LetterSpacing, Some(spreading()), None)?;
    Ok(transitions)
}

/// A letter spacing of 8px.
fn spaced(alloc: Global) -> Result<DeclaredSet, AllocError> {
    let mut winning = Winning::new(alloc);
    let size = Size {
        amount: Fix(8_000_000),
        unit: Unit::Px,
    };
    winning.put(PropertyId::LetterSpacing, false, Declared::Length(size))?;
    winning.finish(alloc)
}

#[test]
fn before_change_style_is_of_this_moment(rt: HostRuntime) -> Result<(), Fail> {
    let alloc = rt.alloc();
    let effects = Effects::new(running(alloc)?, Vec::new(alloc), Vec::new(alloc));
    let now = Style::initial(alloc);
    let entry = Entry::new(alloc, true, true, false, spaced(alloc)?, now, effects)?;
    for (t, px) in [(0, 0), (250_000, 2), (500_000, 4), (1_000_000, 8)] {
        let style = before_style(alloc, &entry, Micros(t), None, &NoSampling)?;
        assert!(rt; style.value(PropertyId::LetterSpacing) == pixels(px));
    }
    Ok(())
}
