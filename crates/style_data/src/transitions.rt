//! The transitions of an element.

ghost use Rattle.std.specs.Prelude.{◌≡◌, ◌<◌, ◌⊎◌, ◌↔◌, IsNone, IsTrue, IfOk, IfSome, None, OnErr, OnOk, Some, length};
ghost use Rattle.computed_style.specs.ByProperty.{kept_for};
ghost use Rattle.style_data.specs.TransitionSets.{AreTransitions, ComesLast, completed_of, kept_with, no_transitions, running_of, seen_at, with_seen};
ghost use Rattle.style_data.specs.Kept.{IsCompletedFor, IsKeptFor};

use crate::same::have_same;
use crate::transition::{Completed, Phase, Running};
use smallvec::SmallVec;
use std::alloc::{AllocError, Global};
use std::marker::Model;
use timing_types::Same;
use value_types::PropertyId;

/// The running and the completed transitions of an element (CSS Transitions 1, section 3), both ascending by
/// property number. Each is kept for its property, and no property has both.
#[derive(Drop)]
pub struct Transitions {
    running: SmallVec<(PropertyId, Running), 2>,
    completed: SmallVec<(PropertyId, Completed), 2>,
}

impl Model for Transitions {
    ghost use Rattle.style_data.specs.TransitionSets.{TransitionSet, AreTransitions, transition_set};

    ghost Value = { TransitionSet };

    ghost view = { λ t. transition_set t.running.items t.completed.items };

    ghost invariant = { λ t. AreTransitions (transition_set t.running.items t.completed.items) };
}

impl Transitions {
    /// None at all. Takes no memory.
    pub fn new(alloc: Global) -> Transitions
        ensures { result ≡ no_transitions }
    {
        Transitions {
            running: SmallVec::new(alloc),
            completed: SmallVec::new(alloc),
        }
    }

    /// Puts what is left of a property's transitions after those of the properties before it. Where memory
    /// runs out they stay as they were.
    pub fn keep(
        &mut self,
        p: PropertyId,
        running: Option<Running>,
        completed: Option<Completed>,
    ) -> Result<(), AllocError>
        requires last { ComesLast p self.old }
        requires apart { IsNone running ⊎ IsNone completed }
        requires running { IfSome running (IsKeptFor p) }
        requires completed { IfSome completed (IsCompletedFor p) }
        ensures ok { OnOk result (self.new ≡ kept_with self.old p running completed) }
        ensures err { OnErr result (self.new ≡ self.old) }
    {
        if let Some(running) = running {
            self.push_running(p, running)?;
        }
        if let Some(completed) = completed {
            self.push_completed(p, completed)?;
        }
        Ok(())
    }

    fn push_running(&mut self, p: PropertyId, running: Running) -> Result<(), AllocError>
        requires last { ComesLast p self.old }
        requires kept { IsKeptFor p running }
        ensures ok { OnOk result (self.new ≡ kept_with self.old p (Some running) None) }
        ensures err { OnErr result (self.new ≡ self.old) }
    {
        self.running.push((p, running))?;
        Ok(())
    }

    fn push_completed(&mut self, p: PropertyId, completed: Completed) -> Result<(), AllocError>
        requires last { ComesLast p self.old }
        requires kept { IsCompletedFor p completed }
        ensures ok { OnOk result (self.new ≡ kept_with self.old p None (Some completed)) }
        ensures err { OnErr result (self.new ≡ self.old) }
    {
        self.completed.push((p, completed))?;
        Ok(())
    }

    /// Keeps the phase in which the running transition at place `i`, from 0, was last seen.
    pub fn see(&mut self, i: usize, seen: Phase)
        requires { i < length self.old.running }
        ensures { self.new ≡ with_seen self.old i seen }
    {
        see_at(&mut self.running, i, seen);
    }

    /// Whether none runs and none has completed.
    pub fn is_empty(&self) -> bool
        ensures { IsTrue result ↔ (self.now ≡ no_transitions) }
    {
        self.running.is_empty() && self.completed.is_empty()
    }

    /// The running transitions, by property.
    pub fn running(&self) -> &[(PropertyId, Running)]
        ensures value { result.now ≡ self.now.running }
        ensures kept { AreTransitions self.now }
    {
        self.running.as_slice()
    }

    /// The completed transitions, by property.
    pub fn completed(&self) -> &[(PropertyId, Completed)]
        ensures value { result.now ≡ self.now.completed }
        ensures kept { AreTransitions self.now }
    {
        self.completed.as_slice()
    }

    /// The running transition of a property; `None` where there is none.
    pub fn running_of(&self, p: PropertyId) -> Option<Running>
        ensures value { result ≡ running_of self.now p }
        ensures kept { IfSome result (IsKeptFor p) }
    {
        running_for(self.running.as_slice(), p)
    }

    /// The completed transition of a property; `None` where there is none.
    pub fn completed_of(&self, p: PropertyId) -> Option<Completed>
        ensures value { result ≡ completed_of self.now p }
        ensures kept { IfSome result (IsCompletedFor p) }
    {
        completed_for(self.completed.as_slice(), p)
    }

    /// The same transitions again.
    pub fn copy(&self, alloc: Global) -> Result<Transitions, AllocError>
        ensures { IfOk result (λ t. t ≡ self.now) }
    {
        Ok(Transitions {
            running: SmallVec::from_slice(alloc, self.running.as_slice())?,
            completed: SmallVec::from_slice(alloc, self.completed.as_slice())?,
        })
    }
}

impl Same for Transitions {
    fn is_same(&self, other: &Transitions) -> bool {
        have_same(self.running.as_slice(), other.running.as_slice())
            && have_same(self.completed.as_slice(), other.completed.as_slice())
    }
}

fn see_at(running: &mut SmallVec<(PropertyId, Running), 2>, i: usize, seen: Phase)
    requires { i < length running.old.items }
    ensures { running.new.items ≡ seen_at running.old.items i seen }
{
    if let Some(item) = running.get_mut(i) {
        item.1 = item.1.with_seen(seen);
    }
}

fn running_for(kept: &[(PropertyId, Running)], p: PropertyId) -> Option<Running>
    ensures { result ≡ kept_for p kept.now }
{
    kept.iter()
        .find(|item| item.0.number() == p.number())
        .map(|item| item.1)
}

fn completed_for(kept: &[(PropertyId, Completed)], p: PropertyId) -> Option<Completed>
    ensures { result ≡ kept_for p kept.now }
{
    kept.iter()
        .find(|item| item.0.number() == p.number())
        .map(|item| item.1)
}
