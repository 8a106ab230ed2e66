//! What entries, styles and declarations take.
ghost use Rattle.std.specs.Prelude.{◌≡◌, IfOk};
ghost use Rattle.value_types.specs.declared.property.PropertyId.{PropertyId};
ghost use Rattle.style_data.specs.Kept.{IsKeptFor};
ghost use Rattle.computed_style.specs.Styles.{initial_values};

use fix_num::{Bill, Fix, Micros};
use std::alloc::{AllocError, Global};
use style_data::{
    DeclaredSet, Effects, Entry, Phase, Running, Style, Transition, Transitions, Winning,
};
use timing_types::Easing;
use value_types::{Declared, PropertyId, Value, initial_value};

/// So many entries of elements that no frame has styled.
pub(crate) fn fresh(alloc: Global, count: u64) -> Result<usize, AllocError> {
    let mut entries = Vec::new(alloc);
    for _ in 0..count {
        entries.push(Entry::fresh(alloc)?)?;
    }
    Ok(entries.len())
}

/// So many lists of bytes of a size.
pub(crate) fn bytes(alloc: Global, size: u32, count: u64) -> Result<usize, AllocError> {
    let mut lists: Vec<Vec<u8>> = Vec::new(alloc);
    for _ in 0..count {
        lists.push(Vec::with_capacity(alloc, size as usize)?)?;
    }
    Ok(lists.len())
}

/// So many copies of one style.
pub(crate) fn styles(alloc: Global, count: u64) -> Result<usize, AllocError> {
    let base = based(alloc)?;
    let style = Style::layered(alloc, &base, &GIVEN)?;
    let mut copies = Vec::new(alloc);
    for _ in 0..count {
        copies.push(style.copy(alloc)?)?;
    }
    Ok(copies.len())
}

/// So many copies of the same declarations.
pub(crate) fn declarations(alloc: Global, count: u64) -> Result<usize, AllocError> {
    let declared = declared(alloc)?;
    let mut copies = Vec::new(alloc);
    for _ in 0..count {
        copies.push(declared.copy()?)?;
    }
    Ok(copies.len())
}

/// So many entries at rest that share one style and its declarations.
pub(crate) fn resting(alloc: Global, count: u64) -> Result<usize, AllocError> {
    let style = based(alloc)?;
    let declared = declared(alloc)?;
    let mut entries = Vec::new(alloc);
    for _ in 0..count {
        entries.push(at_rest(alloc, &declared, &style)?)?;
    }
    Ok(entries.len())
}

fn at_rest(alloc: Global, declared: &DeclaredSet, style: &Style) -> Result<Entry, AllocError> {
    let now = style.copy(alloc)?;
    Entry::new(
        alloc,
        true,
        true,
        true,
        declared.copy()?,
        now,
        Effects::none(alloc),
    )
}

/// So many entries in which two transitions run.
pub(crate) fn running(alloc: Global, count: u64) -> Result<usize, AllocError> {
    let base = based(alloc)?;
    let declared = declared(alloc)?;
    let mut entries = Vec::new(alloc);
    for _ in 0..count {
        entries.push(in_motion(alloc, &declared, &base)?)?;
    }
    Ok(entries.len())
}

fn in_motion(alloc: Global, declared: &DeclaredSet, base: &Style) -> Result<Entry, AllocError> {
    let effects = Effects::new(two_running(alloc)?, Vec::new(alloc), Vec::new(alloc));
    let now = Style::layered(alloc, base, &GIVEN)?;
    Entry::new(alloc, true, true, false, declared.copy()?, now, effects)
}

/// What transitions of the opacity and of the width give.
const GIVEN: [(PropertyId, Value); 2] = [
    (PropertyId::Opacity, Value::Number(Fix(500_000))),
    (PropertyId::Width, Value::Auto),
];

/// A style of initial values with a base of its own.
fn based(alloc: Global) -> Result<Style, AllocError> {
    Style::new(alloc, initial_values(), None, None)
}

fn initial_values() -> [Value; 24]
    ensures { result ≡ initial_values }
{
    [
        initial_value(PropertyId::BackgroundColor),
        initial_value(PropertyId::Bottom),
        initial_value(PropertyId::Color),
        initial_value(PropertyId::Display),
        initial_value(PropertyId::FontSize),
        initial_value(PropertyId::Height),
        initial_value(PropertyId::Left),
        initial_value(PropertyId::LetterSpacing),
        initial_value(PropertyId::MarginBottom),
        initial_value(PropertyId::MarginLeft),
        initial_value(PropertyId::MarginRight),
        initial_value(PropertyId::MarginTop),
        initial_value(PropertyId::Opacity),
        initial_value(PropertyId::PaddingBottom),
        initial_value(PropertyId::PaddingLeft),
        initial_value(PropertyId::PaddingRight),
        initial_value(PropertyId::PaddingTop),
        initial_value(PropertyId::Right),
        initial_value(PropertyId::Rotate),
        initial_value(PropertyId::Top),
        initial_value(PropertyId::Translate),
        initial_value(PropertyId::Visibility),
        initial_value(PropertyId::Width),
        initial_value(PropertyId::ZIndex),
    ]
}

/// Four declarations.
fn declared(alloc: Global) -> Result<DeclaredSet, AllocError> {
    let mut winning = Winning::new(alloc);
    winning.put(PropertyId::Display, false, Declared::Initial)?;
    winning.put(PropertyId::Opacity, false, Declared::Initial)?;
    winning.put(PropertyId::Width, false, Declared::Auto)?;
    winning.put(PropertyId::Width, true, Declared::Initial)?;
    winning.finish(alloc)
}

fn two_running(alloc: Global) -> Result<Transitions, AllocError> {
    let mut transitions = Transitions::new(alloc);
    transitions.keep(PropertyId::Opacity, Some(fade()), None)?;
    transitions.keep(PropertyId::Width, Some(still()), None)?;
    Ok(transitions)
}

/// What runs while an opacity goes from 0 to 1 in a second.
pub(crate) fn fade() -> Running
    ensures { IsKeptFor PropertyId.Opacity result }
{
    lasting_a_second(Value::Number(Fix(0)), Value::Number(Fix::ONE))
}

/// A width that stays.
fn still() -> Running
    ensures { IsKeptFor PropertyId.Width result }
{
    lasting_a_second(Value::Auto, Value::Auto)
}

fn lasting_a_second(from: Value, to: Value) -> Running
    ensures { (result.from ≡ from) × (result.to ≡ to) × (result.adjusted ≡ from) }
{
    Running::new(Transition {
        from,
        to,
        adjusted: from,
        created: Micros(0),
        start: Micros(0),
        end: Micros(1_000_000),
        easing: Easing::Linear,
        factor: Bill::ONE,
        generation: 1,
        position: 0,
        seen: Phase::Active,
    })
}
