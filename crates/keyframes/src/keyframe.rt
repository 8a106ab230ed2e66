//! The keyframes of one property.
ghost use Rattle.std.specs.Prelude.{◌≡◌, IfSome};
ghost use Rattle.value_types.specs.Validity.{IsDeclaredFor, IsValid};
ghost use Rattle.keyframes.specs.PropertyKeyframes.{gives, keyframe_of, keyframe_or, underlying_at, value_given};
ghost use Rattle.keyframes.specs.Validity.{IsContext, IsFrameOf, IsKeyframe};

use computed_value::absolute;
use fix_num::{Bill, Fix};
use timing_types::Easing;
use value_types::{Declared, Frame, PropertyId, Value, initial_value};

/// A keyframe of a property: its offset in billionths, the value there, and the easing up to the next keyframe.
#[derive(Clone, Copy)]
pub(crate) struct Keyframe {
    pub offset: Bill,
    pub value: Value,
    pub easing: Easing,
}

/// What a property is sampled over.
#[derive(Clone, Copy)]
pub struct EffectContext {
    pub property: PropertyId,
    /// The animation's easing.
    pub easing: Easing,
    /// The font sizes of the parent, of the element and of the root, in millionths of a pixel.
    pub parent_size: Fix,
    pub own_size: Fix,
    pub root_size: Fix,
    /// The underlying value: what the declarations give the property.
    pub under: Value,
}

/// Whether a frame gives the property a value.
pub(crate) fn gives(p: PropertyId, f: &Frame) -> bool
    ensures { result ≡ gives p f.now }
{
    f.property.number() == p.number()
}

/// The keyframe of a frame of the property.
fn keyframe_of(x: &EffectContext, f: Frame) -> Keyframe
    requires context { IsContext x.now }
    requires frame { IsFrameOf x.now.property f }
    ensures value { result ≡ keyframe_of x.now f }
    ensures bounds { IsKeyframe x.now.property result }
{
    Keyframe {
        offset: f.offset,
        value: value_given(x, f.declared),
        easing: f.easing.unwrap_or(x.easing),
    }
}

/// The keyframe of a frame of the property; of the underlying value where there is none.
pub(crate) fn keyframe_or(x: &EffectContext, f: Option<Frame>, offset: Bill) -> Keyframe
    requires context { IsContext x.now }
    requires frame { IfSome f (IsFrameOf x.now.property) }
    ensures value { result ≡ keyframe_or x.now f offset }
    ensures bounds { IsKeyframe x.now.property result }
{
    match f {
        Some(f) => keyframe_of(x, f),
        None => underlying_at(x, offset),
    }
}

/// A keyframe of the underlying value.
fn underlying_at(x: &EffectContext, offset: Bill) -> Keyframe
    requires { IsContext x.now }
    ensures value { result ≡ underlying_at x.now offset }
    ensures bounds { IsKeyframe x.now.property result }
{
    Keyframe {
        offset,
        value: x.under,
        easing: x.easing,
    }
}

/// The value that a frame gives.
fn value_given(x: &EffectContext, d: Declared) -> Value
    requires context { IsContext x.now }
    requires declared { IsDeclaredFor x.now.property d }
    ensures value { result ≡ value_given x.now d }
    ensures valid { IsValid x.now.property result }
{
    match d {
        Declared::Inherit => x.under,
        Declared::Initial => initial_value(x.property),
        _ => absolute(x.property, &d, x.parent_size, x.own_size, x.root_size),
    }
}
