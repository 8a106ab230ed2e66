//! Samples of keyframes rules.
ghost use Rattle.std.specs.Prelude.{◌≡◌, ◌≤◌, ◌^◌, pos, ◌<ℤ◌, IfSome};
ghost use Rattle.fix_num.specs.Fractions.{IsFraction};
ghost use Rattle.timing_types.specs.Timing.{IsEasing};
ghost use Rattle.value_types.specs.Keyframes.{IsFrame};
ghost use Rattle.value_types.specs.Validity.{IsDeclaredFor, IsValid};

use computed_style::Sampling;
use fix_num::{Bill, Fix};
use keyframes::{AnimationSample, SampleParts, Sampled, sample};
use std::alloc::{AllocError, Global};
use std::test::Fail;
use timing_types::{Easing, Jump};
use value_types::{Declared, Frame, Frames, PropertyId, Shared, Size, Unit, Value};

const WIDTH: PropertyId = PropertyId::Width;

const TEN: Fix = Fix(10_000_000);

const SIXTEEN: Fix = Fix(16_000_000);

fn pixels(px: u16) -> Value
    ensures { IsValid PropertyId.Width result }
{
    Value::Length {
        px: Fix(i64::from(px) * 1_000_000),
        pct: Fix(0),
    }
}

fn declared(amount: u16, unit: Unit) -> Declared
    ensures { IsDeclaredFor PropertyId.Width result }
{
    Declared::Length(Size {
        amount: Fix(i64::from(amount) * 1_000_000),
        unit,
    })
}

fn frame(offset: u32, declared: Declared, easing: Option<Easing>) -> Frame
    requires offset { offset ≤ 10 ^ 9 }
    requires declared { IsDeclaredFor PropertyId.Width declared }
    requires easing { IfSome easing IsEasing }
    ensures frame { IsFrame result }
    ensures offset { result.offset.0 ≡ pos offset }
{
    Frame {
        offset: Bill(i64::from(offset)),
        property: WIDTH,
        declared,
        easing,
    }
}

/// A rule of one frame.
#[tactic(auto, using(crate::proofs::TwoFrames::one_frame))]
fn one_frame(alloc: Global, only: Frame) -> Result<Frames, AllocError>
    requires { IsFrame only }
{
    let mut frames = Vec::new(alloc);
    frames.push(only)?;
    Ok(Frames::from_vec(frames))
}

/// A rule of two frames.
#[tactic(auto, using(crate::proofs::TwoFrames::two_frames))]
fn two_frames(alloc: Global, first: Frame, second: Frame) -> Result<Frames, AllocError>
    requires first { IsFrame first }
    requires second { IsFrame second }
    requires ascending { first.offset.0 <ℤ second.offset.0 }
{
    let mut frames = Vec::new(alloc);
    frames.push(first)?;
    frames.push(second)?;
    Ok(Frames::from_vec(frames))
}

/// The width at a progress over 100px, in an element of font size 10px.
fn width(frames: &Frames, at: i64) -> Option<Value>
    requires { IsFraction at }
{
    sample(
        frames,
        WIDTH,
        Easing::Linear,
        Bill(at),
        SIXTEEN,
        TEN,
        SIXTEEN,
        pixels(100),
    )
}

#[test]
fn missing_start(rt: HostRuntime) -> Result<(), Fail> {
    let to = frame(1_000_000_000, declared(400, Unit::Px), None);
    let frames = one_frame(rt.alloc(), to)?;
    assert!(rt; width(&frames, 500_000_000) == Some(pixels(250)));
    assert!(rt; width(&frames, 0) == Some(pixels(100)));
    assert!(rt; width(&frames, 1_000_000_000) == Some(pixels(400)));
    let height = sample(
        &frames,
        PropertyId::Height,
        Easing::Linear,
        Bill(0),
        SIXTEEN,
        TEN,
        SIXTEEN,
        Value::Auto,
    );
    assert!(rt; height.is_none());
    let auto = sample(
        &frames,
        WIDTH,
        Easing::Linear,
        Bill(499_999_999),
        SIXTEEN,
        TEN,
        SIXTEEN,
        Value::Auto,
    );
    assert!(rt; auto == Some(Value::Auto));
    Ok(())
}

#[test]
fn starting_keyframe_eases(rt: HostRuntime) -> Result<(), Fail> {
    let steps = Easing::Steps {
        count: 2,
        jump: Jump::End,
    };
    let first = frame(500_000_000, declared(2, Unit::Em), Some(steps));
    let second = frame(1_000_000_000, declared(40, Unit::Px), None);
    let frames = two_frames(rt.alloc(), first, second)?;
    // From 100px to 20px by the animation's easing, from there to 40px in two steps.
    for (at, px) in [
        (250_000_000, 60),
        (500_000_000, 20),
        (749_999_999, 20),
        (750_000_000, 30),
        (999_999_999, 30),
        (1_000_000_000, 40),
    ] {
        assert!(rt; width(&frames, at) == Some(pixels(px)));
    }
    Ok(())
}

fn sampled(alloc: Global, px: u16) -> Result<AnimationSample, AllocError> {
    let to = frame(1_000_000_000, declared(px, Unit::Px), None);
    Ok(AnimationSample::new(SampleParts {
        frames: Shared::new(alloc, one_frame(alloc, to)?)?,
        easing: Easing::Linear,
        num: 1,
        den: 3,
    }))
}

#[test]
fn last_sample_counts(rt: HostRuntime) -> Result<(), Fail> {
    let mut samples = Sampled::new(rt.alloc());
    let none = samples.value(WIDTH, SIXTEEN, TEN, SIXTEEN, pixels(100));
    assert!(rt; none.is_none());
    samples.push(sampled(rt.alloc(), 400)?)?;
    samples.push(sampled(rt.alloc(), 130)?)?;
    let width = samples.value(WIDTH, SIXTEEN, TEN, SIXTEEN, pixels(100));
    assert!(rt; width == Some(pixels(110)));
    let height = samples.value(PropertyId::Height, SIXTEEN, TEN, SIXTEEN, Value::Auto);
    assert!(rt; height.is_none());
    Ok(())
}
