//! Animations that go on, that start and that are cancelled.
ghost use Rattle.std.specs.Prelude.{◌≡◌, ◌<◌, ◌^◌, IfOk};
ghost use Rattle.style_data.specs.Transitions.{IsMoment};
ghost use Rattle.animation_names.specs.Continuing.{cancelled_animation, continued_animation, started_animation};
ghost use Rattle.animation_names.specs.NameLists.{names_update};

use crate::lists::{is_paused_at, timing_at};
use anim_timing::{cancel_elapsed, pause_or_run};
use fix_num::Micros;
use std::alloc::{AllocError, Global};
use style_data::{Animation, AnimationState, Gone, Phase, Subject};
use timing_types::{AnimationLists, Name};

/// An animation that goes on at place `i`: it has the timing of the place, and pauses or runs.
#[tactic(auto, unfolding(crate::specs::Continuing::continued_animation))]
pub(crate) fn continued_animation(
    alloc: Global,
    a: &Animation,
    lists: &AnimationLists,
    i: usize,
    t: Micros,
) -> Result<Animation, AllocError>
    requires place { i < 2 ^ 32 }
    requires time { IsMoment t.0 }
    ensures { IfOk result (λ b. b ≡ continued_animation lists.now t i a.now) }
{
    let mut state = a.get().copy(alloc)?;
    state.place = i as u32;
    state.timing = timing_at(lists, i);
    let mut animation = Animation::new(state);
    pause_or_run(&mut animation, is_paused_at(lists, i), t);
    Ok(animation)
}

/// An animation of this name that starts at place `i`.
#[tactic(auto, unfolding(crate::specs::Continuing::started_animation))]
pub(crate) fn started_animation(
    alloc: Global,
    name: &Name,
    lists: &AnimationLists,
    i: usize,
    t: Micros,
    generation: u32,
    position: u32,
) -> Result<Animation, AllocError>
    requires place { i < 2 ^ 32 }
    requires time { IsMoment t.0 }
    ensures { IfOk result (λ a. a ≡ started_animation lists.now t generation position i name.now) }
{
    let hold = if is_paused_at(lists, i) {
        Some(Micros(0))
    } else {
        None
    };
    Ok(Animation::new(AnimationState {
        name: name.copy(alloc)?,
        place: i as u32,
        first_place: i as u32,
        created: t,
        start: t,
        hold,
        timing: timing_at(lists, i),
        generation,
        position,
        seen: Phase::Idle,
        iteration: 0,
    }))
}

/// An animation that is cancelled at time `t`, with what its cancel event needs.
#[tactic(auto, unfolding(crate::specs::Continuing::cancelled_animation))]
pub fn cancelled_animation(alloc: Global, a: &Animation, t: Micros) -> Result<Gone, AllocError>
    requires { IsMoment t.0 }
    ensures { IfOk result (λ gone. gone ≡ cancelled_animation t a.now) }
{
    let state = a.get();
    Ok(Gone {
        subject: Subject::Animation(state.name.copy(alloc)?),
        place: state.first_place,
        cancelled: t,
        elapsed: cancel_elapsed(a, t),
        generation: state.generation,
        position: state.position,
        seen: state.seen,
    })
}
