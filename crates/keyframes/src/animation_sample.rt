//! A sample of an animation.
ghost use Rattle.std.specs.Prelude.{◌≡◌, IfSome};
ghost use Rattle.timing_types.specs.Timing.{IsEasing};
ghost use Rattle.value_types.specs.Ranges.{IsSize};
ghost use Rattle.value_types.specs.Validity.{IsValid};
ghost use Rattle.keyframes.specs.SampleLists.{IsSample, value_given_by};
ghost use Rattle.keyframes.specs.Validity.{IsProgress};

use crate::effect_value::sample_at;
use crate::keyframe::EffectContext;
use fix_num::Fix;
use std::marker::Model;
use timing_types::Easing;
use value_types::{Frames, PropertyId, Shared, Value};

/// What an animation is sampled from: the frames of its keyframes rule, its easing, and its progress `num / den`.
#[derive(Drop)]
pub struct SampleParts {
    pub frames: Shared<Frames>,
    pub easing: Easing,
    pub num: i128,
    pub den: i128,
}

/// A sample of one animation, within its bounds: a progress from 0 to 1 with a `den` of at most 10^15. Contracts see it as its parts.
#[derive(Drop)]
pub struct AnimationSample {
    parts: SampleParts,
}

impl Model for AnimationSample {
    ghost use Rattle.keyframes.specs.declared.animation_sample.SampleParts.{SampleParts};

    ghost Value = { SampleParts };

    ghost use Rattle.keyframes.specs.SampleLists.{IsSample};

    ghost view = { λ s. s.parts };

    ghost invariant = { λ s. IsSample s.parts };
}

impl AnimationSample {
    /// The sample of these parts. Takes no memory.
    pub fn new(parts: SampleParts) -> AnimationSample
        requires easing { IsEasing parts.easing }
        requires progress { IsProgress parts.num parts.den }
        ensures value { result ≡ parts }
        ensures bounds { IsSample result }
    {
        // That the frames keep their bounds is known once they are read.
        let _frames = parts.frames.get().as_slice();
        AnimationSample { parts }
    }

    /// The parts.
    pub fn get(&self) -> &SampleParts
        ensures value { result.now ≡ self.now }
        ensures bounds { IsSample result.now }
    {
        &self.parts
    }

    /// The value that it gives a property; `None` where no frame gives one. Takes no memory.
    pub fn value(
        &self,
        p: PropertyId,
        parent_size: Fix,
        own_size: Fix,
        root_size: Fix,
        under: Value,
    ) -> Option<Value>
        requires under { IsValid p under }
        requires parent { IsSize parent_size }
        requires own { IsSize own_size }
        requires root { IsSize root_size }
        ensures value { result ≡ value_given_by p parent_size own_size root_size under self.now }
        ensures valid { IfSome result (IsValid p) }
    {
        let parts = self.get();
        let x = EffectContext {
            property: p,
            easing: parts.easing,
            parent_size,
            own_size,
            root_size,
            under,
        };
        sample_at(parts.frames.get().as_slice(), &x, parts.num, parts.den)
    }
}
