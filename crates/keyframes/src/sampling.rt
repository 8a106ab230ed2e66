//! What samples give the properties of an element.
ghost use Rattle.std.specs.Prelude.{◌≡◌, [], ◌∷◌, ◌++◌, None, OnOk, OnErr};
ghost use Rattle.std.specs.Bool.{OnTrue};
ghost use Rattle.value_types.specs.Ranges.{IsSize};
ghost use Rattle.value_types.specs.Validity.{IsValid};
ghost use Rattle.keyframes.specs.Last.{last_given};
ghost use Rattle.keyframes.specs.SampleLists.{value_given_by, value_of_samples};
ghost use Rattle.keyframes.specs.SamplesIn.{samples_in};

use crate::animation_sample::AnimationSample;
use crate::sampled::Sampled;
use computed_style::Sampling;
use fix_num::Fix;
use std::alloc::{AllocError, Global};
use timing_types::Items;
use value_types::{PropertyId, Value};

impl Sampled {
    /// No sample. Takes no memory.
    pub fn new(alloc: Global) -> Sampled
        ensures { samples_in result ≡ [] }
    {
        Sampled {
            samples: Items::new(alloc),
        }
    }

    /// Puts the sample of the next animation after the others; where memory runs out the samples stay as they were.
    pub fn push(&mut self, sample: AnimationSample) -> Result<(), AllocError>
        ensures ok { OnOk result (samples_in self.new ≡ samples_in self.old ++ sample ∷ []) }
        ensures err { OnErr result (samples_in self.new ≡ samples_in self.old) }
    {
        // That what it gives is valid is known once it is read.
        let _parts = sample.get();
        self.samples.push(sample)?;
        Ok(())
    }
}

impl Sampling for Sampled {
    ghost animated_value = { λ s p parent own root under. value_of_samples (samples_in s) p parent own root under };

    ghost valid = { λ s p parent own root under a b c d. s.valid p parent own root under a b c d };

    fn value(
        &self,
        p: PropertyId,
        parent_size: Fix,
        own_size: Fix,
        root_size: Fix,
        under: Value,
    ) -> Option<Value> {
        last_given(
            self.samples.as_slice(),
            p,
            parent_size,
            own_size,
            root_size,
            under,
        )
    }

    fn gives_nothing(&self) -> bool {
        has_none(self.samples.as_slice())
    }
}

fn has_none(samples: &[AnimationSample]) -> bool
    ensures { OnTrue result (samples.now ≡ []) }
{
    samples.is_empty()
}

/// The value of the last sample that gives one.
fn last_given(
    samples: &[AnimationSample],
    p: PropertyId,
    parent_size: Fix,
    own_size: Fix,
    root_size: Fix,
    under: Value,
) -> Option<Value>
    requires under { IsValid p under }
    requires parent { IsSize parent_size }
    requires own { IsSize own_size }
    requires root { IsSize root_size }
    ensures { result ≡ last_given (value_given_by p parent_size own_size root_size under) samples.now }
{
    let mut last = None;
    for sample in samples {
        let given = sample.value(p, parent_size, own_size, root_size, under);
        last = given.or(last);
    }
    last
}
