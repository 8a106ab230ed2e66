//! Floor: time. Knows keyframes and a progress, and no clock, no tree and no thread.
//!
//! The values that keyframes rules give the properties of an element, after CSS Animations Level 1 and Web Animations Level 1:
//! `sample(&frames, PropertyId::Width, Easing::Linear, Bill(500_000_000), ..)` is 250px halfway from an underlying width of 100px to a
//! frame of 400px. `Sampled` is a list of such samples, of which the last that gives a value counts.
#![tactic(auto)]

mod animation_sample;
mod effect_value;
mod keyframe;
pub mod laws;
mod sampled;
mod sampling;

pub use animation_sample::{AnimationSample, SampleParts};
pub use effect_value::sample;
pub use keyframe::EffectContext;
pub use sampled::Sampled;
