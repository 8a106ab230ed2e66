//! The effect value of a keyframe effect.
ghost use Rattle.std.specs.Prelude.{◌≡◌, ◌≤◌, ◌*◌, ◌^◌, pos, ◌≤ℤ◌, ◌-ℤ◌, ◌*ℤ◌, unsigned_abs, is_some, ◌||◌, true, false, not, ◌&&◌, All, IfSome, find, reverse};
ghost use Rattle.fix_num.specs.Fractions.{IsFraction};
ghost use Rattle.fix_num.specs.declared.limits.TheConstants.{MAX_TIME};
ghost use Rattle.timing_types.specs.Timing.{IsEasing};
ghost use Rattle.value_types.specs.Keyframes.{IsFrame};
ghost use Rattle.value_types.specs.Ranges.{IsSize};
ghost use Rattle.value_types.specs.Validity.{IsValid};
ghost use Rattle.keyframes.specs.EffectValues.{combined_value, interval_value, is_reached, output_between, sample_of};
ghost use Rattle.keyframes.specs.Last.{last_passing};
ghost use Rattle.keyframes.specs.PropertyKeyframes.{effect_context, frames_of, gives};
ghost use Rattle.keyframes.specs.Validity.{IsContext, IsFrameOf, IsKeyframe, IsProgress};

use crate::keyframe::{EffectContext, Keyframe, gives, keyframe_or};
use easing::output;
use fix_num::{Bill, Fix};
use interpolation::{able, between};
use timing_types::Easing;
use value_types::{Frame, Frames, PropertyId, Value};

/// The value that a keyframes rule gives a property at the progress `at`, in billionths (Web Animations Level 1, "The effect value
/// of a keyframe effect"); `None` where no frame gives the property. `easing` is the animation's, `under` the underlying
/// value, and the sizes are the font sizes of the parent, of the element and of the root, in millionths of a pixel. Takes no memory.
pub fn sample(
    frames: &Frames,
    p: PropertyId,
    easing: Easing,
    at: Bill,
    parent_size: Fix,
    own_size: Fix,
    root_size: Fix,
    under: Value,
) -> Option<Value>
    requires easing { IsEasing easing }
    requires at { IsFraction at.0 }
    requires parent { IsSize parent_size }
    requires own { IsSize own_size }
    requires root { IsSize root_size }
    requires under { IsValid p under }
    ensures value { result ≡ sample_of frames.now (effect_context p easing parent_size own_size root_size under) at.0 Bill.ONE.0 }
    ensures valid { IfSome result (IsValid p) }
{
    let x = EffectContext {
        property: p,
        easing,
        parent_size,
        own_size,
        root_size,
        under,
    };
    sample_at(
        frames.as_slice(),
        &x,
        i128::from(at.0),
        i128::from(Bill::ONE.0),
    )
}

/// The value that the frames of a keyframes rule give at the progress `num / den`.
pub(crate) fn sample_at(frames: &[Frame], x: &EffectContext, num: i128, den: i128) -> Option<Value>
    requires frames { All IsFrame frames.now }
    requires context { IsContext x.now }
    requires progress { IsProgress num den }
    ensures value { result ≡ sample_of frames.now x.now num den }
    ensures valid { IfSome result (IsValid x.now.property) }
{
    let last = last_reached(frames, x.property, num, den);
    let next = first_ahead(frames, x.property, num, den);
    if !is_any(last, next) {
        return None;
    }
    let from = keyframe_or(x, last, Bill(0));
    let to = keyframe_or(x, next, Bill::ONE);
    Some(interval_value(x.property, num, den, from, to))
}

/// Whether there is a frame.
fn is_any(last: Option<Frame>, next: Option<Frame>) -> bool
    ensures { result ≡ (is_some last || is_some next) }
{
    last.is_some() || next.is_some()
}

/// The last frame of the property that the progress has reached.
fn last_reached(frames: &[Frame], p: PropertyId, num: i128, den: i128) -> Option<Frame>
    requires frames { All IsFrame frames.now }
    requires progress { IsProgress num den }
    ensures value { result ≡ last_passing (λ f. is_reached num den f.offset.0) (frames_of p frames.now) }
    ensures bounds { IfSome result (IsFrameOf p) }
{
    last_where(frames, p, num, den)
}

fn last_where(frames: &[Frame], p: PropertyId, num: i128, den: i128) -> Option<Frame>
    requires { IsProgress num den }
    ensures { result ≡ find (λ f. gives p f && is_reached num den f.offset.0) (reverse frames.now) }
{
    frames
        .iter()
        .rev()
        .copied()
        .find(|f| gives(p, f) && is_reached(num, den, f.offset))
}

/// The first frame of the property that the progress hasn't reached.
fn first_ahead(frames: &[Frame], p: PropertyId, num: i128, den: i128) -> Option<Frame>
    requires frames { All IsFrame frames.now }
    requires progress { IsProgress num den }
    ensures value { result ≡ find (λ f. not (is_reached num den f.offset.0)) (frames_of p frames.now) }
    ensures bounds { IfSome result (IsFrameOf p) }
{
    first_where(frames, p, num, den)
}

fn first_where(frames: &[Frame], p: PropertyId, num: i128, den: i128) -> Option<Frame>
    requires { IsProgress num den }
    ensures { result ≡ find (λ f. gives p f && not (is_reached num den f.offset.0)) frames.now }
{
    frames
        .iter()
        .copied()
        .find(|f| gives(p, f) && !is_reached(num, den, f.offset))
}

/// Whether an offset is at or before the progress, and before 1.
fn is_reached(num: i128, den: i128, offset: Bill) -> bool
    requires { IsProgress num den }
    ensures { result ≡ is_reached num den offset.0 }
{
    times(offset, den) <= times(Bill::ONE, num) && offset.0 < Bill::ONE.0
}

/// The value between two keyframes, the last that is reached and the first that isn't.
fn interval_value(p: PropertyId, num: i128, den: i128, a: Keyframe, b: Keyframe) -> Value
    requires progress { IsProgress num den }
    requires from { IsKeyframe p a }
    requires to { IsKeyframe p b }
    requires begun { is_reached num den a.offset.0 ≡ true }
    requires ahead { is_reached num den b.offset.0 ≡ false }
    requires start { IsFraction a.offset.0 }
    requires end { IsFraction b.offset.0 }
    ensures value { result ≡ interval_value p num den a b }
    ensures valid { IsValid p result }
{
    combined(p, a.value, b.value, output_between(num, den, a, b))
}

/// The output of the first keyframe's easing at the distance of the progress in their interval.
fn output_between(num: i128, den: i128, a: Keyframe, b: Keyframe) -> Bill
    requires progress { IsProgress num den }
    requires easing { IsEasing a.easing }
    requires begun { is_reached num den a.offset.0 ≡ true }
    requires ahead { is_reached num den b.offset.0 ≡ false }
    requires start { IsFraction a.offset.0 }
    requires end { IsFraction b.offset.0 }
    ensures value { result.0 ≡ output_between num den a b }
    ensures size { unsigned_abs result.0 ≤ 10 ^ 10 }
{
    output(
        a.easing,
        passed(num, den, a.offset),
        length(num, den, a.offset, b.offset),
        false,
    )
}

/// How far the progress is beyond an offset, in parts of `den` billionths.
fn passed(num: i128, den: i128, offset: Bill) -> i128
    requires progress { IsProgress num den }
    requires offset { IsFraction offset.0 }
    ensures { result ≡ Bill.ONE.0 *ℤ num -ℤ offset.0 *ℤ den }
{
    times(Bill::ONE, num) - times(offset, den)
}

/// How far one offset is beyond another, in parts of `den` billionths.
fn length(num: i128, den: i128, from: Bill, to: Bill) -> i128
    requires progress { IsProgress num den }
    requires from { IsFraction from.0 }
    requires to { IsFraction to.0 }
    ensures { result ≡ (to.0 -ℤ from.0) *ℤ den }
{
    times(Bill(to.0 - from.0), den)
}

/// An offset times a part of a progress.
fn times(offset: Bill, part: i128) -> i128
    requires low { pos 0 ≤ℤ part }
    requires high { part ≤ℤ pos MAX_TIME }
    ensures value { result ≡ offset.0 *ℤ part }
    ensures size { unsigned_abs result ≤ unsigned_abs offset.0 * MAX_TIME }
{
    i128::from(offset.0) * part
}

/// Two values combined at an output: by interpolation, or where there is none, by a step in the middle.
fn combined(p: PropertyId, a: Value, b: Value, q: Bill) -> Value
    requires from { IsValid p a }
    requires to { IsValid p b }
    requires output { unsigned_abs q.0 ≤ 10 ^ 10 }
    ensures value { result ≡ combined_value p a b q.0 }
    ensures valid { IsValid p result }
{
    if able(p, a, b) {
        between(p, a, b, q)
    } else if 2 * q.0 < Bill::ONE.0 {
        a
    } else {
        b
    }
}
