//! Passes that have come so far.

ghost use Rattle.std.specs.Prelude.{◌≡◌, [], IfOk, IsTrue, OnOk, OnErr, option_copied};
ghost use Rattle.pass_core.specs.Plans.{is_proper};
ghost use Rattle.pass_core.specs.Passes.{after_event, after_events, are_allowed, are_distinct, have_entries, is_allowed, update_all, value_for, IsAfterSome, IsPass, IsPassOutcome, PassState};

use crate::event::CoreEvent;
use crate::plan::Plan;
use crate::update::update_in;
use crate::values;
use crate::work::TreeWork;
use std::alloc::{AllocError, Global};
use std::marker::Model;

/// A pass that has come so far: the entries, and the elements that are done with what they hand down.
#[derive(Drop)]
pub struct CoreState<W: TreeWork> {
    entries: Vec<(u32, W::Entry)>,
    done: Vec<(u32, W::Down)>,
}

impl<W: TreeWork> Model for CoreState<W> {
    ghost use Rattle.pass_core.specs.Passes.{PassState};

    ghost Value = { PassState W.Entry W.Down };

    ghost view = { λ s. record { entries = s.entries.items; done = s.done.items } };
}

impl<W: TreeWork> CoreState<W> {
    /// A pass in which nothing is done yet.
    pub fn begin(alloc: Global, entries: Vec<(u32, W::Entry)>) -> Result<CoreState<W>, AllocError>
        requires { IsTrue (are_distinct entries.items) }
        ensures { IfOk result (λ s. s ≡ record { entries = entries.items; done = [] }) }
    {
        Ok(CoreState {
            entries,
            done: Vec::new(alloc),
        })
    }

    /// The element's entry; `None` where it has none. Takes no memory.
    pub fn entry(&self, element: u32) -> Option<&W::Entry>
        ensures { option_copied result ≡ value_for self.now.entries element }
    {
        values::value_for(self.entries.as_slice(), element)
    }

    /// What the element hands down; `None` where it isn't done. Takes no memory.
    pub fn down(&self, element: u32) -> Option<&W::Down>
        ensures { option_copied result ≡ value_for self.now.done element }
    {
        values::value_for(self.done.as_slice(), element)
    }

    /// Carries out an event that may happen: an update notes its outcome, and a refused one changes nothing. Where
    /// memory runs out the pass is as it was.
    pub fn step(
        &mut self,
        alloc: Global,
        work: &W,
        plan: &Plan,
        event: CoreEvent,
    ) -> Result<(), AllocError>
        requires proper { IsTrue (is_proper plan.now.places.items) }
        requires entries { IsTrue (have_entries plan.now.places.items self.old.entries) }
        requires allowed { IsTrue (is_allowed plan.now.places.items self.old.done event) }
        ensures ok { OnOk result (self.new ≡ after_event (W.meaning work.now) plan.now.places.items self.old event) }
        ensures err { OnErr result (self.new ≡ self.old) }
    {
        match event {
            CoreEvent::Refuse(_) => Ok(()),
            CoreEvent::Update(element) => update_in(
                alloc,
                work,
                plan.places.as_slice(),
                &mut self.entries,
                &mut self.done,
                element,
            ),
        }
    }
}

/// Carries out events, each of which may happen in its turn. Where memory runs out some of the first events are
/// carried out.
pub fn run_schedule<W: TreeWork>(
    alloc: Global,
    work: &W,
    plan: &Plan,
    state: &mut CoreState<W>,
    events: &[CoreEvent],
) -> Result<(), AllocError>
    requires proper { IsTrue (is_proper plan.now.places.items) }
    requires entries { IsTrue (have_entries plan.now.places.items state.old.entries) }
    requires allowed { IsTrue (are_allowed (W.meaning work.now) plan.now.places.items state.old events.now) }
    ensures ok { OnOk result (state.new ≡ after_events (W.meaning work.now) plan.now.places.items state.old events.now) }
    ensures err { OnErr result (IsAfterSome (W.meaning work.now) plan.now.places.items state.old events.now state.new) }

    // From a pass in which nothing is done: each element that is done has the entry of its place's result and hands
    // down what that does, and every other has the entry that it had.
    ensures results { state.old.done ≡ [] → IsPass (W.meaning work.now) plan.now.places.items state.old.entries state.new }
    // Events that update the whole plan leave the outcome of the pass, whatever their order.
    ensures whole { OnOk result (state.old.done ≡ [] → IsTrue (update_all plan.now.places.items events.now) → IsPassOutcome (W.meaning work.now) plan.now.places.items state.old.entries state.new.entries) }
{
    for event in events {
        state.step(alloc, work, plan, *event)?;
    }
    Ok(())
}
