//! The lists that time animations.

ghost use Rattle.std.specs.Prelude.{◌≡◌, ◌↔◌, [], ◌∷◌, IfOk, IsTrue};
ghost use Rattle.timing_types.specs.Names.{IsNameItem};
ghost use Rattle.timing_types.specs.Timing.{IsAny, IsCount, IsDelay, IsDuration, IsEasing, ease};
ghost use Rattle.timing_types.specs.TimingLists.{IsListOf, animation_values, initial_animations, no_time, once};

use crate::easing::Easing;
use crate::items::Items;
use crate::name::{Name, copy_names};
use crate::same::Same;
use crate::timing::{Count, Direction, Fill, PlayState};
use fix_num::{Fix, Micros};
use std::alloc::{AllocError, Global};
use std::marker::Model;

/// The eight lists that time the animations of an element (CSS Animations 1, "Declaring Animations"). Durations
/// are 0 to 10^15 microseconds, delays within 10^15, counts 0 to 10^12 millionths or without end, easings within
/// their bounds, names those of animations. Each list has 1 to 32 items.
#[derive(Drop)]
pub struct AnimationLists {
    names: Items<Option<Name>>,
    timing: IterationLists,
    playing: PlaybackLists,
}

/// The lists of when iterations begin, how long they last, how they run and how many there are.
#[derive(Drop)]
pub struct IterationLists {
    pub durations: Items<Micros>,
    pub delays: Items<Micros>,
    pub easings: Items<Easing>,
    pub counts: Items<Count>,
}

/// The lists of which way they run, what is shown outside of them, and whether they run at all.
#[derive(Drop)]
pub struct PlaybackLists {
    pub directions: Items<Direction>,
    pub fills: Items<Fill>,
    pub states: Items<PlayState>,
}

impl Model for AnimationLists {
    ghost use Rattle.timing_types.specs.TimingLists.{AnimationValues, IsAnimationValues, animation_values};

    ghost Value = { AnimationValues };

    ghost view = { λ l. animation_values l.names l.timing.durations l.timing.delays l.timing.easings l.timing.counts
        l.playing.directions l.playing.fills l.playing.states };

    ghost invariant = { λ l. IsAnimationValues (animation_values l.names l.timing.durations l.timing.delays l.timing.easings
        l.timing.counts l.playing.directions l.playing.fills l.playing.states) };
}

impl IterationLists {
    fn initial(alloc: Global) -> Result<IterationLists, AllocError>
        ensures { IfOk result (λ t. (t.durations ≡ no_time ∷ []) × (t.delays ≡ no_time ∷ []) × (t.easings ≡ ease ∷ []) × (t.counts ≡ once ∷ [])) }
    {
        Ok(IterationLists {
            durations: Items::of(alloc, Micros(0))?,
            delays: Items::of(alloc, Micros(0))?,
            easings: Items::of(alloc, Easing::ease())?,
            counts: Items::of(alloc, Count::Times(Fix::ONE))?,
        })
    }

    fn copy(&self, alloc: Global) -> Result<IterationLists, AllocError>
        ensures { IfOk result (λ copy. copy ≡ self.now) }
    {
        Ok(IterationLists {
            durations: self.durations.copy(alloc)?,
            delays: self.delays.copy(alloc)?,
            easings: self.easings.copy(alloc)?,
            counts: self.counts.copy(alloc)?,
        })
    }

    fn is_same(&self, other: &IterationLists) -> bool
        ensures { IsTrue result ↔ (self.now ≡ other.now) }
    {
        self.durations.is_same(&other.durations)
            && self.delays.is_same(&other.delays)
            && self.easings.is_same(&other.easings)
            && self.counts.is_same(&other.counts)
    }
}

impl PlaybackLists {
    fn initial(alloc: Global) -> Result<PlaybackLists, AllocError>
        ensures { IfOk result (λ p. (p.directions ≡ Direction.Normal ∷ []) × (p.fills ≡ Fill.Nothing ∷ []) × (p.states ≡ PlayState.Running ∷ [])) }
    {
        Ok(PlaybackLists {
            directions: Items::of(alloc, Direction::Normal)?,
            fills: Items::of(alloc, Fill::Nothing)?,
            states: Items::of(alloc, PlayState::Running)?,
        })
    }

    fn copy(&self, alloc: Global) -> Result<PlaybackLists, AllocError>
        ensures { IfOk result (λ copy. copy ≡ self.now) }
    {
        Ok(PlaybackLists {
            directions: self.directions.copy(alloc)?,
            fills: self.fills.copy(alloc)?,
            states: self.states.copy(alloc)?,
        })
    }

    fn is_same(&self, other: &PlaybackLists) -> bool
        ensures { IsTrue result ↔ (self.now ≡ other.now) }
    {
        self.directions.is_same(&other.directions)
            && self.fills.is_same(&other.fills)
            && self.states.is_same(&other.states)
    }
}

impl AnimationLists {
    /// These lists. Takes no memory.
    pub fn new(names: Items<Option<Name>>, timing: IterationLists, playing: PlaybackLists) -> Self
        requires names { IsListOf IsNameItem names }
        requires durations { IsListOf IsDuration timing.durations }
        requires delays { IsListOf IsDelay timing.delays }
        requires easings { IsListOf IsEasing timing.easings }
        requires counts { IsListOf IsCount timing.counts }
        requires directions { IsListOf IsAny playing.directions }
        requires fills { IsListOf IsAny playing.fills }
        requires states { IsListOf IsAny playing.states }
        ensures { result ≡ animation_values names timing.durations timing.delays timing.easings timing.counts playing.directions playing.fills playing.states }
    {
        AnimationLists {
            names,
            timing,
            playing,
        }
    }

    /// The initial value of each list.
    pub fn initial(alloc: Global) -> Result<Self, AllocError>
        ensures { IfOk result (λ lists. lists ≡ initial_animations) }
    {
        Ok(AnimationLists {
            names: Items::of(alloc, None)?,
            timing: IterationLists::initial(alloc)?,
            playing: PlaybackLists::initial(alloc)?,
        })
    }

    /// The same lists again.
    pub fn copy(&self, alloc: Global) -> Result<Self, AllocError>
        ensures { IfOk result (λ lists. lists ≡ self.now) }
    {
        Ok(AnimationLists {
            names: copy_names(alloc, self.names.as_slice())?,
            timing: self.timing.copy(alloc)?,
            playing: self.playing.copy(alloc)?,
        })
    }

    /// The items of `animation-name`.
    pub fn names(&self) -> &[Option<Name>]
        ensures value { result.now ≡ self.now.names }
        ensures bounds { IsListOf IsNameItem result.now }
    {
        self.names.as_slice()
    }

    /// The items of `animation-duration`.
    pub fn durations(&self) -> &[Micros]
        ensures value { result.now ≡ self.now.durations }
        ensures bounds { IsListOf IsDuration result.now }
    {
        self.timing.durations.as_slice()
    }

    /// The items of `animation-delay`.
    pub fn delays(&self) -> &[Micros]
        ensures value { result.now ≡ self.now.delays }
        ensures bounds { IsListOf IsDelay result.now }
    {
        self.timing.delays.as_slice()
    }

    /// The items of `animation-timing-function`.
    pub fn easings(&self) -> &[Easing]
        ensures value { result.now ≡ self.now.easings }
        ensures bounds { IsListOf IsEasing result.now }
    {
        self.timing.easings.as_slice()
    }

    /// The items of `animation-iteration-count`.
    pub fn counts(&self) -> &[Count]
        ensures value { result.now ≡ self.now.counts }
        ensures bounds { IsListOf IsCount result.now }
    {
        self.timing.counts.as_slice()
    }

    /// The items of `animation-direction`.
    pub fn directions(&self) -> &[Direction]
        ensures value { result.now ≡ self.now.directions }
        ensures bounds { IsListOf IsAny result.now }
    {
        self.playing.directions.as_slice()
    }

    /// The items of `animation-fill-mode`.
    pub fn fills(&self) -> &[Fill]
        ensures value { result.now ≡ self.now.fills }
        ensures bounds { IsListOf IsAny result.now }
    {
        self.playing.fills.as_slice()
    }

    /// The items of `animation-play-state`.
    pub fn states(&self) -> &[PlayState]
        ensures value { result.now ≡ self.now.states }
        ensures bounds { IsListOf IsAny result.now }
    {
        self.playing.states.as_slice()
    }
}

impl Same for AnimationLists {
    fn is_same(&self, other: &AnimationLists) -> bool {
        self.names.is_same(&other.names)
            && self.timing.is_same(&other.timing)
            && self.playing.is_same(&other.playing)
    }
}
