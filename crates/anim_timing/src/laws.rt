//! What holds of the timing of animations by the definitions alone.
ghost use Rattle.std.specs.Prelude.{◌≡◌, ◌≢◌, ◌⊎◌, ℕ, ◌+◌, ◌*◌, ◌<◌, ℤ, pos, ◌+ℤ◌, ◌-ℤ◌, ◌*ℤ◌, ◌≤ℤ◌, ◌<ℤ◌, true, false, None, Some, IsSome, IsSomeAnd};
ghost use Rattle.style_data.specs.Animations.{IsAnimation, IsTiming};
ghost use Rattle.style_data.specs.declared.animation.AnimationState.{AnimationState};
ghost use Rattle.style_data.specs.declared.timing.AnimationTiming.{AnimationTiming};
ghost use Rattle.style_data.specs.declared.transition.Phase.{Phase};
ghost use Rattle.anim_timing.specs.ActiveTimes.{active_time};
ghost use Rattle.anim_timing.specs.Directions.{with_direction};
ghost use Rattle.anim_timing.specs.Durations.{active_duration};
ghost use Rattle.anim_timing.specs.Iterations.{iteration_in, progress_in_iteration, ratio};
ghost use Rattle.anim_timing.specs.Phases.{IsInPhase, phase_of};
ghost use Rattle.anim_timing.specs.Playing.{filling_both, played};
ghost use Rattle.anim_timing.specs.Progresses.{progress_at, progress_in};

use style_data::Phase;
use timing_types::Direction;

/// At every local time an animation is in exactly one phase.
pub fn exactly_one_phase()
    ensures one { (t : AnimationTiming) (local : ℤ) → IsInPhase t local (phase_of t local) }
    ensures only { (t : AnimationTiming) (local : ℤ) (phase : Phase) → IsTiming t → IsInPhase t local phase → phase ≡ phase_of t local }
{}

/// Where an iteration lasts any time, whole iterations and the progress in the current one make up the active time.
pub fn iterations_make_up_active_time()
    ensures { (t : AnimationTiming) (phase : Phase) (active iteration : ℤ) → pos 0 <ℤ t.duration.0 → pos 0 ≤ℤ active → iteration_in t phase active ≡ Some iteration
        → (iteration *ℤ t.duration.0) +ℤ (progress_in_iteration t phase active).num ≡ active }
{}

/// Where whole iterations have passed, the end of the active duration is the end of the last iteration, and any other time is
/// the start of the next one.
pub fn last_iteration_ends()
    ensures end { (t : AnimationTiming) (phase : Phase) (n : ℕ) → pos 0 <ℤ t.duration.0 → phase ≢ Phase.Before → 0 < n
        → active_duration t ≡ Some (pos n *ℤ t.duration.0)
        → (iteration_in t phase (pos n *ℤ t.duration.0) ≡ Some (pos n -ℤ pos 1))
        × (progress_in_iteration t phase (pos n *ℤ t.duration.0) ≡ ratio t.duration.0 t.duration.0) }
    ensures next { (t : AnimationTiming) (phase : Phase) (n : ℕ) → pos 0 <ℤ t.duration.0
        → active_duration t ≢ Some (pos n *ℤ t.duration.0)
        → (iteration_in t phase (pos n *ℤ t.duration.0) ≡ Some (pos n))
        × (progress_in_iteration t phase (pos n *ℤ t.duration.0) ≡ ratio (pos 0) t.duration.0) }
{}

/// An animation that alternates runs as a normal one in even iterations and as a reverse one in odd ones, and one that alternates
/// in reverse the other way round.
pub fn alternate_iterations_turn()
    ensures even { (t : AnimationTiming) (phase : Phase) (active : ℤ) (n : ℕ) → iteration_in t phase active ≡ Some (pos (2 * n))
        → (progress_in (with_direction t Direction.Alternate) phase active ≡ progress_in (with_direction t Direction.Normal) phase active)
        × (progress_in (with_direction t Direction.AlternateReverse) phase active ≡ progress_in (with_direction t Direction.Reverse) phase active) }
    ensures odd { (t : AnimationTiming) (phase : Phase) (active : ℤ) (n : ℕ) → iteration_in t phase active ≡ Some (pos (2 * n + 1))
        → (progress_in (with_direction t Direction.Alternate) phase active ≡ progress_in (with_direction t Direction.Reverse) phase active)
        × (progress_in (with_direction t Direction.AlternateReverse) phase active ≡ progress_in (with_direction t Direction.Normal) phase active) }
{}

/// Pausing an animation and letting it run again at the same time changes nothing.
pub fn pause_and_run_at_once()
    ensures { (a : AnimationState) (t : ℤ) → IsAnimation a → a.hold ≡ None → a.start.0 ≤ℤ t → played (played a true t) false t ≡ a }
{}

/// A paused animation stays where it is: at any time its progress is the one at which it was paused.
pub fn paused_animation_stays()
    ensures still { (a : AnimationState) (t later : ℤ) → IsSome a.hold → progress_at a later ≡ progress_at a t }
    ensures as_paused { (a : AnimationState) (t later : ℤ) → a.start.0 ≤ℤ t → progress_at (played a true t) later ≡ progress_at a t }
{}

/// An animation that fills both ways has an active time at every local time, which isn't negative: so each cancelled one has an elapsed time.
pub fn filling_both_is_resolved()
    ensures { (t : AnimationTiming) (local : ℤ) → IsTiming t → IsSomeAnd (active_time (filling_both t) local) (λ active. pos 0 ≤ℤ active) }
{}
