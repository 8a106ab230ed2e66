//! The cascade of one element.

ghost use Rattle.std.specs.Prelude.{◌≡◌, ◌*◌, pos};
ghost use Rattle.computed_style.specs.Styles.{AreInherited};

use computed_style::{
    DeclaredSet, Inherited, InheritedValues, NoSampling, Sampling, Style, Winning,
};
use fix_num::{Fix, Micros};
use mini_cascade::compute;
use std::alloc::{AllocError, Global};
use std::test::Fail;
use timing_types::{AnimationLists, Count, Items, Same};
use value_types::{
    Declared, ListName, ListValue, PropertyId, Size, Unit, Value, Visibility, initial_value,
};

/// An animation that gives each property its initial value.
struct ToInitial;

impl Sampling for ToInitial {
    ghost use Rattle.std.specs.Prelude.{Some};
    ghost use Rattle.value_types.specs.Table.{initial_value};
    ghost use Rattle.mini_cascade.proofs.Validity.{initial_valid};

    ghost animated_value = { λ s p parent own root under. Some (initial_value p) };

    ghost valid = { λ s p parent own root under a b c d. initial_valid p };

    fn value(
        &self,
        p: PropertyId,
        _parent_size: Fix,
        _own_size: Fix,
        _root_size: Fix,
        _under: Value,
    ) -> Option<Value> {
        Some(initial_value(p))
    }

    fn gives_nothing(&self) -> bool {
        false
    }
}

/// A length or percent of so many tenths of the unit.
fn tenths(count: u16, unit: Unit) -> Declared
    ensures { result ≡ Declared.Length (record { amount = record { 0 = pos (count * 100000) }; unit = unit }) }
{
    Declared::Length(Size {
        amount: Fix(i64::from(count) * 100_000),
        unit,
    })
}

fn pixels(px: u32) -> Value {
    Value::Length {
        px: Fix(i64::from(px) * 1_000_000),
        pct: Fix(0),
    }
}

fn root(alloc: Global) -> Result<Style, AllocError> {
    let mut winning = Winning::new(alloc);
    winning.put(PropertyId::FontSize, false, tenths(20, Unit::Em))?;
    winning.put(PropertyId::Height, false, tenths(20, Unit::Rem))?;
    compute(alloc, &winning.finish(alloc)?, &NoSampling, &[], None)
}

fn child(alloc: Global) -> Result<DeclaredSet, AllocError> {
    let mut winning = Winning::new(alloc);
    winning.put(PropertyId::FontSize, false, tenths(500, Unit::Percent))?;
    winning.put(PropertyId::Width, false, tenths(15, Unit::Em))?;
    winning.put(PropertyId::Height, false, tenths(20, Unit::Rem))?;
    winning.finish(alloc)
}

#[test]
fn relative_lengths(rt: HostRuntime) -> Result<(), Fail> {
    let root = root(rt.alloc())?;
    assert!(rt; root.font_size() == Fix(32_000_000));
    assert!(rt; root.value(PropertyId::Height) == pixels(64));
    let parent = root.inherited(root.font_size());
    let style = compute(
        rt.alloc(),
        &child(rt.alloc())?,
        &NoSampling,
        &[],
        Some(&parent),
    )?;
    for (p, px) in [
        (PropertyId::FontSize, 16),
        (PropertyId::Width, 24),
        (PropertyId::Height, 64),
    ] {
        assert!(rt; style.value(p) == pixels(px));
    }
    Ok(())
}

/// A z-index of 1, and one of 2 that is important where it is so.
fn z_index(alloc: Global, important: bool) -> Result<DeclaredSet, AllocError> {
    let mut winning = Winning::new(alloc);
    winning.put(PropertyId::ZIndex, false, Declared::Int(1))?;
    if important {
        winning.put(PropertyId::ZIndex, true, Declared::Int(2))?;
    }
    winning.finish(alloc)
}

#[test]
fn precedence(rt: HostRuntime) -> Result<(), Fail> {
    let alloc = rt.alloc();
    let given = [(PropertyId::ZIndex, Value::Int(3))];
    let z = PropertyId::ZIndex;
    let normal = z_index(alloc, false)?;
    assert!(rt; compute(alloc, &normal, &NoSampling, &[], None)?.value(z) == Value::Int(1));
    assert!(rt; compute(alloc, &normal, &ToInitial, &[], None)?.value(z) == Value::Auto);
    let important = z_index(alloc, true)?;
    assert!(rt; compute(alloc, &important, &ToInitial, &[], None)?.value(z) == Value::Int(2));
    assert!(rt; compute(alloc, &important, &ToInitial, &given, None)?.value(z) == Value::Int(3));
    Ok(())
}

/// What an element without declarations has under a parent with these inherited values.
fn undeclared(alloc: Global, values: InheritedValues) -> Result<Style, AllocError>
    requires { AreInherited values }
{
    let parent = Inherited::new(values);
    compute(
        alloc,
        &DeclaredSet::empty(),
        &NoSampling,
        &[],
        Some(&parent),
    )
}

#[test]
fn inherits(rt: HostRuntime) -> Result<(), Fail> {
    let initial = Inherited::initial().get();
    let same = undeclared(rt.alloc(), initial)?;
    assert!(rt; same.is_same(&Style::initial(rt.alloc())));
    let hidden = InheritedValues {
        visibility: Value::Visible(Visibility::Hidden),
        font_size: Fix(8_000_000),
        ..initial
    };
    let two = undeclared(rt.alloc(), hidden)?;
    assert!(rt; two.value(PropertyId::Visibility) == hidden.visibility);
    assert!(rt; two.font_size() == Fix(8_000_000));
    Ok(())
}

#[test]
fn timing_lists(rt: HostRuntime) -> Result<(), Fail> {
    let alloc = rt.alloc();
    let mut winning = Winning::new(alloc);
    let second = Items::of(alloc, Micros(1_000_000))?;
    winning.put_list(
        ListName::TransitionDuration,
        false,
        ListValue::Times(second),
    )?;
    let twice = Items::of(alloc, Count::Times(Fix(2_000_000)))?;
    winning.put_list(ListName::AnimationCount, false, ListValue::Counts(twice))?;
    winning.put_list(ListName::AnimationCount, true, ListValue::Initial)?;
    let style = compute(alloc, &winning.finish(alloc)?, &NoSampling, &[], None)?;
    let transitions = style.transitions().ok_or("no transition list")?;
    assert!(rt; transitions.durations() == [Micros(1_000_000)].as_slice());
    assert!(rt; transitions.delays() == [Micros(0)].as_slice());
    let animations = style.animations().ok_or("no animation list")?;
    assert!(rt; animations.is_same(&AnimationLists::initial(alloc)?));
    Ok(())
}
