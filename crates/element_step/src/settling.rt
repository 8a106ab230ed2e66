//! Elements that change no more by time alone.

ghost use Rattle.std.specs.Prelude.{◌≡◌, ◌==◌, ◌&&◌, length};
ghost use Rattle.std.specs.List.{list_all};
ghost use Rattle.style_data.specs.Transitions.{IsMoment};
ghost use Rattle.element_step.specs.Settling.{has_ended, have_same_values};

use anim_timing::phase_at;
use fix_num::Micros;
use interpolation::same;
use style_data::{Animation, Phase, Running, Style};
use value_types::PropertyId;

/// Whether nothing will change by time alone: no transition runs, all animations have ended, and the after-change style is the
/// current one.
pub(crate) fn is_settled(
    running: &[(PropertyId, Running)],
    animations: &[Animation],
    after: &Style,
    now: &Style,
    t: Micros,
) -> bool
    requires { IsMoment t.0 }
    ensures { result ≡ (length running.now == 0) && list_all (has_ended t.0) animations.now && have_same_values after.now now.now }
{
    running.is_empty() && have_ended(animations, t) && have_same_values(after, now)
}

/// Whether no transition runs, and all animations have ended.
pub(crate) fn have_all_ended(
    running: &[(PropertyId, Running)],
    animations: &[Animation],
    t: Micros,
) -> bool
    requires { IsMoment t.0 }
    ensures { result ≡ (length running.now == 0) && list_all (has_ended t.0) animations.now }
{
    running.is_empty() && have_ended(animations, t)
}

/// Whether all animations have come to their after phase.
pub(crate) fn have_ended(animations: &[Animation], t: Micros) -> bool
    requires { IsMoment t.0 }
    ensures { result ≡ list_all (has_ended t.0) animations.now }
{
    animations.iter().all(|animation| has_ended(animation, t))
}

fn has_ended(animation: &Animation, t: Micros) -> bool
    requires { IsMoment t.0 }
    ensures { result ≡ has_ended t.0 animation.now }
{
    matches!(phase_at(animation, t), Phase::After)
}

/// Whether the styles have the same value of each property.
fn have_same_values(a: &Style, b: &Style) -> bool
    ensures { result ≡ have_same_values a.now b.now }
{
    PropertyId::ALL
        .iter()
        .all(|p| same(a.value(*p), b.value(*p)))
}
