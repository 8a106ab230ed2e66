//! The samples of an element's animations.
ghost use Rattle.keyframes.specs.SampleLists.{GiveValid};
ghost use Rattle.keyframes.specs.SampleProps.{GiveValid-prop};

use crate::animation_sample::AnimationSample;
use timing_types::Items;

/// Samples of the animations of an element at one moment, in the order of its list of animations.
#[derive(Drop)]
pub struct Sampled {
    pub(crate) samples: Items<AnimationSample>,
    ghost valid: { GiveValid samples } by { GiveValid-prop samples },
}
