//! Animations within their bounds.

ghost use Rattle.std.specs.Prelude.{◌≡◌, IfOk, IfSome};
ghost use Rattle.style_data.specs.Animations.{IsAnimation};
ghost use Rattle.style_data.specs.Transitions.{IsMoment};

use crate::timing::AnimTiming;
use crate::transition::Phase;
use fix_num::Micros;
use std::alloc::{AllocError, Global};
use std::marker::Model;
use timing_types::Name;

/// One animation of an element (CSS Animations 1, section 4). Times are microseconds.
#[derive(Drop)]
pub struct AnimationState {
    /// The name of its keyframes rule.
    pub name: Name,
    /// Its place in the list of `animation-name` now, from 0.
    pub place: u32,
    /// The place that it started at.
    pub first_place: u32,
    /// The time of the style change event that started it.
    pub created: Micros,
    pub start: Micros,
    /// The local time at which it is paused, where it is.
    pub hold: Option<Micros>,
    pub timing: AnimTiming,
    /// The number of the frame that started it.
    pub generation: u32,
    /// The tree position of its element at that moment.
    pub position: u32,
    pub seen: Phase,
    /// The current iteration at the last tick.
    pub iteration: u64,
}

impl AnimationState {
    /// The same again.
    pub fn copy(&self, alloc: Global) -> Result<AnimationState, AllocError>
        ensures { IfOk result (λ state. state ≡ self.now) }
    {
        Ok(AnimationState {
            name: self.name.copy(alloc)?,
            place: self.place,
            first_place: self.first_place,
            created: self.created,
            start: self.start,
            hold: self.hold,
            timing: self.timing,
            generation: self.generation,
            position: self.position,
            seen: self.seen,
            iteration: self.iteration,
        })
    }
}

/// An animation whose times of creation and start, and whose hold where it is paused, are 0 to 10^15
/// microseconds. Contracts see it as its state.
#[derive(Drop)]
pub struct Animation {
    state: AnimationState,
}

impl Model for Animation {
    ghost use Rattle.style_data.specs.declared.animation.AnimationState.{AnimationState};

    ghost Value = { AnimationState };

    ghost use Rattle.style_data.specs.Animations.{IsAnimation};

    ghost view = { λ a. a.state };

    ghost invariant = { λ a. IsAnimation a.state };
}

impl Animation {
    /// The animation in this state. Takes no memory.
    pub fn new(state: AnimationState) -> Animation
        requires { IsAnimation state }
        ensures { result ≡ state }
    {
        Animation { state }
    }

    /// Its state.
    pub fn get(&self) -> &AnimationState
        ensures value { result.now ≡ self.now }
        ensures bounds { IsAnimation result.now }
    {
        &self.state
    }

    /// Its state, to be kept. Takes no memory.
    pub fn into_inner(self) -> AnimationState
        ensures value { result ≡ self }
        ensures bounds { IsAnimation result }
    {
        let Animation { state } = self;
        state
    }

    /// Keeps the phase and the current iteration of a tick.
    pub fn see(&mut self, seen: Phase, iteration: u64)
        ensures { self.new ≡ record self.old { seen = seen; iteration = iteration } }
    {
        self.state.seen = seen;
        self.state.iteration = iteration;
    }

    /// Pauses it at this local time, or no longer.
    pub fn set_hold(&mut self, hold: Option<Micros>)
        requires { IfSome hold (λ h. IsMoment h.0) }
        ensures { self.new ≡ record self.old { hold = hold } }
    {
        self.state.hold = hold;
    }

    /// Makes this its start time.
    pub fn set_start(&mut self, start: Micros)
        requires { IsMoment start.0 }
        ensures { self.new ≡ record self.old { start = start } }
    {
        self.state.start = start;
    }

    /// The same animation again.
    pub fn copy(&self, alloc: Global) -> Result<Animation, AllocError>
        ensures { IfOk result (λ animation. animation ≡ self.now) }
    {
        Ok(Animation::new(self.get().copy(alloc)?))
    }
}
