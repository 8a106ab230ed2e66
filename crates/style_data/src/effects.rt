//! The effects of an element.

ghost use Rattle.std.specs.Prelude.{◌≡◌, ◌<◌, ◌↔◌, IsTrue, IfOk, OnErr, OnOk, length, option_copied, unwrap_or};
ghost use Rattle.style_data.specs.Entries.{AreAscending, animation_seen_at, effect_lists, no_effects};
ghost use Rattle.style_data.specs.TransitionSets.{AreTransitions, with_seen};

use crate::animation::Animation;
use crate::gone::Gone;
use crate::transition::Phase;
use crate::transitions::Transitions;
use std::alloc::{AllocError, Global};
use std::marker::Model;
use timing_types::{Same, are_same};

/// The transitions and animations of an element, the animations ascending by their places, and the cancelled
/// ones of both, in the order of their cancellation. Contracts see them as these lists.
#[derive(Drop)]
pub struct Effects {
    transitions: Transitions,
    animations: Vec<Animation>,
    gone: Vec<Gone>,
}

impl Model for Effects {
    ghost use Rattle.style_data.specs.Entries.{AreAscending, EffectLists, effect_lists};

    ghost Value = { EffectLists };

    ghost view = { λ e. effect_lists e.transitions e.animations.items e.gone.items };

    ghost invariant = { λ e. AreAscending e.animations.items };
}

impl Effects {
    /// None at all. Takes no memory.
    pub fn none(alloc: Global) -> Effects
        ensures { result ≡ no_effects }
    {
        Effects {
            transitions: Transitions::new(alloc),
            animations: Vec::new(alloc),
            gone: Vec::new(alloc),
        }
    }

    /// These lists. Takes no memory.
    pub fn new(transitions: Transitions, animations: Vec<Animation>, gone: Vec<Gone>) -> Effects
        requires { AreAscending animations.items }
        ensures { result ≡ effect_lists transitions animations.items gone.items }
    {
        Effects {
            transitions,
            animations,
            gone,
        }
    }

    /// The transitions.
    pub fn transitions(&self) -> &Transitions
        ensures value { result.now ≡ self.now.transitions }
    {
        &self.transitions
    }

    /// The animations, by their places.
    pub fn animations(&self) -> &[Animation]
        ensures value { result.now ≡ self.now.animations }
        ensures ascending { AreAscending result.now }
    {
        self.animations.as_slice()
    }

    /// The cancelled transitions and animations.
    pub fn gone(&self) -> &[Gone]
        ensures { result.now ≡ self.now.gone }
    {
        self.gone.as_slice()
    }

    /// Keeps the phase in which the running transition at place `i`, from 0, was last seen.
    pub fn see_transition(&mut self, i: usize, seen: Phase)
        requires { i < length self.old.transitions.running }
        ensures { self.new ≡ record self.old { transitions = with_seen self.old.transitions i seen } }
    {
        self.transitions.see(i, seen);
    }

    /// Keeps the phase and the iteration in which the animation at index `i` was last seen.
    pub fn see_animation(&mut self, i: usize, seen: Phase, iteration: u64)
        requires { i < length self.old.animations }
        ensures { self.new ≡ record self.old { animations = animation_seen_at self.old.animations i seen iteration } }
    {
        see_at(&mut self.animations, i, seen, iteration);
    }

    /// The lists. Takes no memory.
    pub fn into_lists(self) -> (Transitions, Vec<Animation>, Vec<Gone>)
        ensures value { self ≡ effect_lists result.0 result.1.items result.2.items }
        ensures kept { AreTransitions result.0 }
        ensures ascending { AreAscending result.1.items }
    {
        let Effects {
            transitions,
            animations,
            gone,
        } = self;
        let _ = transitions.running();
        (transitions, animations, gone)
    }

    /// Whether there is none at all.
    pub fn is_empty(&self) -> bool
        ensures { IsTrue result ↔ (self.now ≡ no_effects) }
    {
        self.transitions.is_empty() && self.animations.is_empty() && self.gone.is_empty()
    }

    /// The same effects again.
    pub fn copy(&self, alloc: Global) -> Result<Effects, AllocError>
        ensures { IfOk result (λ e. e ≡ self.now) }
    {
        let animations = copy_animations(alloc, self.animations.as_slice())?;
        let gone = copy_gone(alloc, self.gone.as_slice())?;
        Ok(Effects::new(self.transitions.copy(alloc)?, animations, gone))
    }
}

impl Same for Effects {
    fn is_same(&self, other: &Effects) -> bool {
        self.transitions.is_same(&other.transitions)
            && are_same(self.animations.as_slice(), other.animations.as_slice())
            && are_same(self.gone.as_slice(), other.gone.as_slice())
    }
}

impl Same for BoxedEffects {
    fn is_same(&self, other: &BoxedEffects) -> bool {
        match (self.get(), other.get()) {
            (None, None) => true,
            (Some(a), Some(b)) => a.is_same(b),
            (Some(a), None) => a.is_empty(),
            (None, Some(b)) => b.is_empty(),
        }
    }
}

fn see_at(animations: &mut Vec<Animation>, i: usize, seen: Phase, iteration: u64)
    requires { i < length animations.old.items }
    ensures { animations.new.items ≡ animation_seen_at animations.old.items i seen iteration }
{
    animations[i].see(seen, iteration);
}

fn copy_animations(alloc: Global, animations: &[Animation]) -> Result<Vec<Animation>, AllocError>
    ensures { IfOk result (λ copies. copies.items ≡ animations.now) }
{
    let mut copies = Vec::new(alloc);
    for animation in animations {
        copies.push(animation.copy(alloc)?)?;
    }
    Ok(copies)
}

fn copy_gone(alloc: Global, items: &[Gone]) -> Result<Vec<Gone>, AllocError>
    ensures { IfOk result (λ copies. copies.items ≡ items.now) }
{
    let mut copies = Vec::new(alloc);
    for item in items {
        copies.push(item.copy(alloc)?)?;
    }
    Ok(copies)
}

/// Effects after a pointer, which take no memory where there is none. Contracts see them as the effects.
#[derive(Drop)]
pub(crate) struct BoxedEffects {
    effects: Option<Box<Effects>>,
}

impl Model for BoxedEffects {
    ghost use Rattle.std.specs.Prelude.{unwrap_or, option_map};
    ghost use Rattle.style_data.specs.Entries.{EffectLists, no_effects};

    ghost Value = { EffectLists };

    ghost view = { λ b. unwrap_or (option_map (λ e. e.value) b.effects) no_effects };
}

impl BoxedEffects {
    pub(crate) fn none() -> BoxedEffects
        ensures { result ≡ no_effects }
    {
        BoxedEffects { effects: None }
    }

    pub(crate) fn new(alloc: Global, effects: Effects) -> Result<BoxedEffects, AllocError>
        ensures { IfOk result (λ b. b ≡ effects) }
    {
        if effects.is_empty() {
            return Ok(BoxedEffects::none());
        }
        Ok(BoxedEffects {
            effects: Some(Box::new(alloc, effects)?),
        })
    }

    /// The effects; `None` where there is none.
    pub(crate) fn get(&self) -> Option<&Effects>
        ensures { unwrap_or (option_copied result) no_effects ≡ self.now }
    {
        match &self.effects {
            None => None,
            Some(effects) => Some(effects),
        }
    }

    pub(crate) fn see_transition(&mut self, i: usize, seen: Phase)
        requires { i < length self.old.transitions.running }
        ensures { self.new ≡ record self.old { transitions = with_seen self.old.transitions i seen } }
    {
        if let Some(effects) = &mut self.effects {
            effects.see_transition(i, seen);
        }
    }

    pub(crate) fn see_animation(&mut self, i: usize, seen: Phase, iteration: u64)
        requires { i < length self.old.animations }
        ensures { self.new ≡ record self.old { animations = animation_seen_at self.old.animations i seen iteration } }
    {
        if let Some(effects) = &mut self.effects {
            effects.see_animation(i, seen, iteration);
        }
    }

    pub(crate) fn copy(&self, alloc: Global) -> Result<BoxedEffects, AllocError>
        ensures { IfOk result (λ b. b ≡ self.now) }
    {
        match &self.effects {
            None => Ok(BoxedEffects::none()),
            Some(effects) => BoxedEffects::new(alloc, effects.copy(alloc)?),
        }
    }
}
