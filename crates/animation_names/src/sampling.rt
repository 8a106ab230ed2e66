//! What the animations of an element are sampled from.
ghost use Rattle.std.specs.Prelude.{◌≡◌, ◌++◌, IfOk, OnOk};
ghost use Rattle.std.specs.Option.{option_to_list};
ghost use Rattle.keyframes.specs.SamplesIn.{samples_in};
ghost use Rattle.style_data.specs.Transitions.{IsMoment};
ghost use Rattle.animation_names.specs.Samples.{sample_of_animation, samples_of};

use anim_timing::progress_at;
use fix_num::Micros;
use keyframes::{AnimationSample, SampleParts, Sampled};
use sheet_types::Sheets;
use std::alloc::{AllocError, Global};
use style_data::Animation;

/// What the animations of a list are sampled from at time `t`, in microseconds, in the order of the list: the frames of the keyframes rule of each,
/// its easing and its progress. One without a rule or without a progress has no sample. Takes no memory where there is no
/// animation.
pub fn sampled(
    alloc: Global,
    animations: &[Animation],
    sheets: &Sheets,
    t: Micros,
) -> Result<Sampled, AllocError>
    requires { IsMoment t.0 }
    ensures { IfOk result (λ s. samples_in s ≡ samples_of animations.now sheets.now t.0) }
{
    let mut samples = Sampled::new(alloc);
    for animation in animations {
        push_sample(&mut samples, animation, sheets, t)?;
    }
    Ok(samples)
}

/// Puts the sample of one animation after the others, where it has one.
fn push_sample(
    samples: &mut Sampled,
    animation: &Animation,
    sheets: &Sheets,
    t: Micros,
) -> Result<(), AllocError>
    requires { IsMoment t.0 }
    ensures { OnOk result (samples_in samples.new ≡ samples_in samples.old ++ option_to_list (sample_of_animation sheets.now t.0 animation.now)) }
{
    if let Some(sample) = sample_of(animation, sheets, t)? {
        samples.push(sample)?;
    }
    Ok(())
}

/// The sample of one animation; `None` where its name has no keyframes rule or where it has no progress.
fn sample_of(
    animation: &Animation,
    sheets: &Sheets,
    t: Micros,
) -> Result<Option<AnimationSample>, AllocError>
    requires { IsMoment t.0 }
    ensures { IfOk result (λ s. s ≡ sample_of_animation sheets.now t.0 animation.now) }
{
    let state = animation.get();
    let Some(rule) = sheets.keyframes_named(state.name.as_bytes()) else {
        return Ok(None);
    };
    let Some(progress) = progress_at(animation, t) else {
        return Ok(None);
    };
    Ok(Some(AnimationSample::new(SampleParts {
        frames: rule.frames.copy()?,
        easing: state.timing.get().easing,
        num: progress.num,
        den: progress.den,
    })))
}
