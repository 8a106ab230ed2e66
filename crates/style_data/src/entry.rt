//! Entries.

ghost use Rattle.std.specs.Prelude.{◌≡◌, ◌<◌, ◌↔◌, IsTrue, IfOk, IfSome, OnErr, OnOk, length, option_copied, unwrap_or};
ghost use Rattle.style_data.specs.Entries.{AreAscending, animation_seen_at, entry_parts, fresh_entry, no_effects};
ghost use Rattle.style_data.specs.Kept.{IsCompletedFor, IsKeptFor};
ghost use Rattle.style_data.specs.TransitionSets.{AreTransitions, completed_of, running_of, with_seen};

use crate::animation::Animation;
use crate::effects::{BoxedEffects, Effects};
use crate::gone::Gone;
use crate::transition::{Completed, Phase, Running};
use computed_style::{DeclaredSet, Style};
use std::alloc::{AllocError, Global};
use std::marker::Model;
use timing_types::Same;
use value_types::PropertyId;

#[derive(Drop)]
struct Parts {
    styled: bool,
    rendered: bool,
    settled: bool,
    declared: DeclaredSet,
    now: Style,
    effects: BoxedEffects,
}

/// What is kept of an element from one style change event to the next: whether a frame has styled it, whether
/// it was rendered at the last event, whether nothing of it will change by time alone, the declarations of
/// that event, the current style that it gave, and its effects. It stands after one pointer, and its effects
/// after another where there are any.
#[derive(Drop)]
pub struct Entry {
    parts: Box<Parts>,
}

impl Model for Entry {
    ghost use Rattle.style_data.specs.Entries.{EntryParts, entry_parts};

    ghost Value = { EntryParts };

    ghost view = { λ e. entry_parts e.parts.value.styled e.parts.value.rendered e.parts.value.settled e.parts.value.declared e.parts.value.now e.parts.value.effects };
}

impl Entry {
    /// The entry of these parts. Takes memory once, and once more where there are effects.
    pub fn new(
        alloc: Global,
        styled: bool,
        rendered: bool,
        settled: bool,
        declared: DeclaredSet,
        now: Style,
        effects: Effects,
    ) -> Result<Entry, AllocError>
        ensures { IfOk result (λ e. e ≡ entry_parts styled rendered settled declared now effects) }
    {
        let effects = BoxedEffects::new(alloc, effects)?;
        Ok(Entry {
            parts: Box::new(
                alloc,
                Parts {
                    styled,
                    rendered,
                    settled,
                    declared,
                    now,
                    effects,
                },
            )?,
        })
    }

    /// That of an element which no frame has styled. Takes memory once.
    pub fn fresh(alloc: Global) -> Result<Entry, AllocError>
        ensures { IfOk result (λ e. e ≡ fresh_entry) }
    {
        Ok(Entry {
            parts: Box::new(
                alloc,
                Parts {
                    styled: false,
                    rendered: false,
                    settled: false,
                    declared: DeclaredSet::empty(),
                    now: Style::initial(alloc),
                    effects: BoxedEffects::none(),
                },
            )?,
        })
    }

    /// Whether a frame has styled the element.
    pub fn styled(&self) -> bool
        ensures { result ≡ self.now.styled }
    {
        self.parts.styled
    }

    /// Whether it was rendered at the last style change event.
    pub fn rendered(&self) -> bool
        ensures { result ≡ self.now.rendered }
    {
        self.parts.rendered
    }

    /// Whether nothing of it will change by time alone.
    pub fn settled(&self) -> bool
        ensures { result ≡ self.now.settled }
    {
        self.parts.settled
    }

    /// The declarations of the last style change event.
    pub fn declared(&self) -> &DeclaredSet
        ensures { result.now ≡ self.now.declared }
    {
        &self.parts.declared
    }

    /// The current style that it gave.
    pub fn now(&self) -> &Style
        ensures { result.now ≡ self.now.now }
    {
        &self.parts.now
    }

    /// The effects; `None` where there is none.
    pub fn effects(&self) -> Option<&Effects>
        ensures { unwrap_or (option_copied result) no_effects ≡ self.now.effects }
    {
        self.parts.effects.get()
    }

    /// The running transitions, by property.
    pub fn running(&self) -> &[(PropertyId, Running)]
        ensures value { result.now ≡ self.now.effects.transitions.running }
        ensures kept { AreTransitions self.now.effects.transitions }
    {
        match self.effects() {
            None => &[],
            Some(effects) => effects.transitions().running(),
        }
    }

    /// The completed transitions, by property.
    pub fn completed(&self) -> &[(PropertyId, Completed)]
        ensures value { result.now ≡ self.now.effects.transitions.completed }
        ensures kept { AreTransitions self.now.effects.transitions }
    {
        match self.effects() {
            None => &[],
            Some(effects) => effects.transitions().completed(),
        }
    }

    /// The running transition of a property; `None` where there is none.
    pub fn running_of(&self, p: PropertyId) -> Option<Running>
        ensures value { result ≡ running_of self.now.effects.transitions p }
        ensures kept { IfSome result (IsKeptFor p) }
    {
        match self.effects() {
            None => None,
            Some(effects) => effects.transitions().running_of(p),
        }
    }

    /// The completed transition of a property; `None` where there is none.
    pub fn completed_of(&self, p: PropertyId) -> Option<Completed>
        ensures value { result ≡ completed_of self.now.effects.transitions p }
        ensures kept { IfSome result (IsCompletedFor p) }
    {
        match self.effects() {
            None => None,
            Some(effects) => effects.transitions().completed_of(p),
        }
    }

    /// The animations, by their places.
    pub fn animations(&self) -> &[Animation]
        ensures value { result.now ≡ self.now.effects.animations }
        ensures ascending { AreAscending result.now }
    {
        match self.effects() {
            None => &[],
            Some(effects) => effects.animations(),
        }
    }

    /// The cancelled transitions and animations, in the order of their cancellation.
    pub fn gone(&self) -> &[Gone]
        ensures { result.now ≡ self.now.effects.gone }
    {
        match self.effects() {
            None => &[],
            Some(effects) => effects.gone(),
        }
    }

    /// Keeps the phase in which the running transition at place `i`, from 0, was last seen.
    pub fn see_transition(&mut self, i: usize, seen: Phase)
        requires { i < length self.old.effects.transitions.running }
        ensures { self.new ≡ record self.old { effects = record self.old.effects { transitions = with_seen self.old.effects.transitions i seen } } }
    {
        self.parts.effects.see_transition(i, seen);
    }

    /// Keeps the phase and the iteration in which the animation at index `i` was last seen.
    pub fn see_animation(&mut self, i: usize, seen: Phase, iteration: u64)
        requires { i < length self.old.effects.animations }
        ensures { self.new ≡ record self.old { effects = record self.old.effects { animations = animation_seen_at self.old.effects.animations i seen iteration } } }
    {
        self.parts.effects.see_animation(i, seen, iteration);
    }

    /// Makes these its effects. Where memory runs out the entry stays as it was.
    pub fn set_effects(&mut self, alloc: Global, effects: Effects) -> Result<(), AllocError>
        ensures ok { OnOk result (self.new ≡ record self.old { effects = effects }) }
        ensures err { OnErr result (self.new ≡ self.old) }
    {
        self.parts.effects = BoxedEffects::new(alloc, effects)?;
        Ok(())
    }

    /// The same entry again.
    pub fn copy(&self, alloc: Global) -> Result<Entry, AllocError>
        ensures { IfOk result (λ e. e ≡ self.now) }
    {
        let now = self.parts.now.copy(alloc)?;
        let effects = self.parts.effects.copy(alloc)?;
        Ok(Entry {
            parts: Box::new(
                alloc,
                Parts {
                    styled: self.parts.styled,
                    rendered: self.parts.rendered,
                    settled: self.parts.settled,
                    declared: self.parts.declared.copy()?,
                    now,
                    effects,
                },
            )?,
        })
    }
}

impl Same for Entry {
    fn is_same(&self, other: &Entry) -> bool {
        have_same_flags(self, other)
            && self.declared().is_same(other.declared())
            && self.now().is_same(other.now())
            && self.parts.effects.is_same(&other.parts.effects)
    }
}

fn have_same_flags(a: &Entry, b: &Entry) -> bool
    ensures { IsTrue result ↔ ((a.now.styled ≡ b.now.styled) × (a.now.rendered ≡ b.now.rendered) × (a.now.settled ≡ b.now.settled)) }
{
    a.styled() == b.styled() && a.rendered() == b.rendered() && a.settled() == b.settled()
}
