//! Worlds.

ghost use Rattle.std.specs.Prelude.{◌≡◌, ◌-◌, ◌^◌, ◌<◌, ◌≤◌, IfOk, length};
ghost use Rattle.computed_style.specs.Styles.{value_of};
ghost use Rattle.doc_tree.specs.declared.limits.TheConstants.{MAX_STYLE_BYTES};
ghost use Rattle.event_order.specs.Order.{IsInOrderOf};
ghost use Rattle.script_text.specs.Commands.{AreInBounds, IsNoLongerThan};
ghost use Rattle.restyle.specs.Edits.{AnswersEdit, AnswersQuestion, refusal_of_question};
ghost use Rattle.restyle.specs.StyleChanges.{entry_for};
ghost use Rattle.restyle.specs.Worlds.{events_of_frame, new_world, world_after_frame};

use crate::edit::edit;
use crate::edit_fault::EditFault;
use crate::passes::{ByLevels, InTreeOrder};
use crate::state::WorldState;
use crate::world_frame::next_frame;
use script_text::{Command, Refusal};
use std::alloc::{AllocError, Global};
use std::marker::Model;
use std::thread::Threads;
use style_data::{Entry, Event};
use value_types::{PropertyId, Value};

/// A document with its sheets, the entries of its elements, what waits of removed elements for the next tick, the current time and the number of
/// frames so far. Contracts see these parts.
#[derive(Drop)]
pub struct World {
    state: WorldState,
}

impl Model for World {
    ghost use Rattle.restyle.specs.States.{IsKeptState, world_of};
    ghost use Rattle.restyle.specs.Worlds.{WorldParts};

    ghost Value = { WorldParts };

    ghost view = { λ w. world_of w.state };

    ghost invariant = { λ w. IsKeptState w.state };
}

/// What a frame tells.
#[derive(Drop)]
pub struct FrameOut {
    /// Its events, as they are sent.
    pub events: Vec<Event>,
    /// How many elements were updated.
    pub updated: u32,
}

impl World {
    /// The world with no element and no sheet, at time 0, which has had no frame.
    pub fn new(alloc: Global) -> Result<World, AllocError>
        ensures { IfOk result (λ w. w ≡ new_world) }
    {
        Ok(World {
            state: WorldState::new(alloc)?,
        })
    }

    /// Edits the world; where the command is refused, or memory runs out, it stays as it was. A frame is no edit, and what is asked of an element
    /// changes nothing.
    pub fn apply_edit(&mut self, alloc: Global, c: &Command) -> Result<(), EditFault>
        requires numbers { AreInBounds c.now }
        requires text { IsNoLongerThan MAX_STYLE_BYTES c.now }
        ensures { AnswersEdit self.old self.new c.now result }
    {
        edit(&mut self.state, alloc, c)
    }

    /// The next frame, at the current time, on this thread: a tick with its events (Web Animations 1, "update animations and send events"), and then
    /// a style change event. Waits for nobody.
    pub fn frame_alone(self, alloc: Global) -> Result<(World, FrameOut), AllocError>
        requires { self.frames < 2 ^ 32 - 1 }
        ensures world { IfOk result (λ r. r.0 ≡ world_after_frame self) }
        ensures events { IfOk result (λ r. IsInOrderOf r.1.events.items (events_of_frame self)) }
        ensures updated { IfOk result (λ r. r.1.updated ≡ length self.document.elements) }
    {
        let World { state } = self;
        let (state, out) = next_frame(&InTreeOrder, alloc, state)?;
        Ok((World { state }, out))
    }

    /// The next frame, whose style change event is made by levels, each by so many workers at most. The world and what the frame tells are those of
    /// `frame_alone`.
    pub fn frame<R: Threads + Sync>(
        self,
        rt: &R,
        alloc: Global,
        workers: u32,
    ) -> Result<(World, FrameOut), AllocError>
        requires some { 0 < workers }
        requires most { workers ≤ 64 }
        requires few { self.frames < 2 ^ 32 - 1 }
        ensures world { IfOk result (λ r. r.0 ≡ world_after_frame self) }
        ensures events { IfOk result (λ r. IsInOrderOf r.1.events.items (events_of_frame self)) }
        ensures updated { IfOk result (λ r. r.1.updated ≡ length self.document.elements) }
    {
        let World { state } = self;
        let (state, out) = next_frame(&ByLevels { rt, workers }, alloc, state)?;
        Ok((World { state }, out))
    }

    /// The value that the last frame gave a property of node `n`. Refused are, in this order, a node that isn't in the tree and one that no
    /// frame has styled.
    pub fn value(&self, n: u32, p: PropertyId) -> Result<Value, Refusal>
        ensures value { IfOk result (λ v. v ≡ value_of (entry_for self.now.entries n).now p) }
        ensures refusal { AnswersQuestion (refusal_of_question self.now n) result }
    {
        match self.entry(n) {
            Ok(entry) => Ok(entry.now().value(p)),
            Err(refusal) => Err(refusal),
        }
    }

    /// The entry of node `n`, refused as its values are.
    pub fn entry(&self, n: u32) -> Result<&Entry, Refusal>
        ensures value { IfOk result (λ e. e.now ≡ entry_for self.now.entries n) }
        ensures refusal { AnswersQuestion (refusal_of_question self.now n) result }
    {
        self.state.entry(n)
    }

    /// How many frames there were.
    pub fn frames(&self) -> u32
        ensures { result ≡ self.now.frames }
    {
        self.state.frames
    }
}
