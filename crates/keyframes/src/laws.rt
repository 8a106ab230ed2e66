//! What holds of samples by the definitions alone.
ghost use Rattle.std.specs.Prelude.{◌≡◌, ℤ, List, [], ◌∷◌, ◌++◌, true, None, Some, All};
ghost use Rattle.value_types.specs.declared.frame.Frame.{Frame};
ghost use Rattle.value_types.specs.declared.property.PropertyId.{PropertyId};
ghost use Rattle.value_types.specs.declared.value.Value.{Value};
ghost use Rattle.fix_num.specs.declared.units.Fix.{Fix};
ghost use Rattle.keyframes.specs.declared.keyframe.EffectContext.{EffectContext};
ghost use Rattle.keyframes.specs.declared.animation_sample.SampleParts.{SampleParts};
ghost use Rattle.keyframes.specs.EffectValues.{sample_of};
ghost use Rattle.keyframes.specs.PropertyKeyframes.{frames_of, has_frame_at, value_given, zero_offset};
ghost use Rattle.keyframes.specs.SampleLists.{value_given_by, value_of_samples};
ghost use Rattle.keyframes.specs.Validity.{IsProgress};

use fix_num::Bill;

/// A keyframes rule gives a property no value exactly where it has no frame of it.
pub fn none_without_frames()
    ensures none { (frames : List Frame) (x : EffectContext) (num den : ℤ) → frames_of x.property frames ≡ [] → sample_of frames x num den ≡ None }
    ensures only { (frames : List Frame) (x : EffectContext) (num den : ℤ) → IsProgress num den → sample_of frames x num den ≡ None → frames_of x.property frames ≡ [] }
{}

/// A keyframes rule that gives a property one value, at 0, at 1 and wherever else, gives that value throughout.
pub fn one_value_stays()
    ensures { (frames : List Frame) (x : EffectContext) (num den : ℤ) (v : Value) → IsProgress num den
        → has_frame_at zero_offset (frames_of x.property frames) ≡ true → has_frame_at Bill.ONE (frames_of x.property frames) ≡ true
        → All (λ f. value_given x f.declared ≡ v) (frames_of x.property frames) → sample_of frames x num den ≡ Some v }
{}

/// Of two animations that give a property a value the later one counts, and one that gives none leaves what the others give.
pub fn last_animation_wins()
    ensures given { (samples : List SampleParts) (s : SampleParts) (p : PropertyId) (parent own root : Fix) (under v : Value)
        → value_given_by p parent own root under s ≡ Some v → value_of_samples (samples ++ s ∷ []) p parent own root under ≡ Some v }
    ensures left { (samples : List SampleParts) (s : SampleParts) (p : PropertyId) (parent own root : Fix) (under : Value)
        → value_given_by p parent own root under s ≡ None → value_of_samples (samples ++ s ∷ []) p parent own root under ≡ value_of_samples samples p parent own root under }
{}
