//! The next frame of a world.

ghost use Rattle.std.specs.Prelude.{◌≡◌, ◌+◌, ◌-◌, ◌^◌, ◌<◌, [], All, IfOk, IsTrue, OnOk, length, map};
ghost use Rattle.doc_tree.specs.Element.{numbers_of};
ghost use Rattle.event_order.specs.Order.{IsInOrderOf};
ghost use Rattle.style_data.specs.Entries.{AreAscending};
ghost use Rattle.style_data.specs.TransitionSets.{AreTransitions};
ghost use Rattle.style_data.specs.Transitions.{IsMoment};
ghost use Rattle.ticker.specs.Distinct.{AreDistinct};
ghost use Rattle.ticker.specs.Ticks.{tick_events, ticked_entry};
ghost use Rattle.doc_tree.specs.Shape.{IsTree};
ghost use Rattle.restyle.specs.Distinct.{AreInTreeOrder};
ghost use Rattle.restyle.specs.Quiet.{IsQuietFrame};
ghost use Rattle.restyle.specs.States.{HasSameRest, IsKeptState, world_of};
ghost use Rattle.restyle.specs.StyleChanges.{frame_after, frame_parts};
ghost use Rattle.restyle.specs.Worlds.{entries_of, events_of_frame, frame_of, ticked_world, with_frame, world_after_frame};

use crate::departed::departed_items;
use crate::entries::Entries;
use crate::frame::{Frame, FrameContent};
use crate::passes::Pass;
use crate::restyling::{Restyled, restyle_by};
use crate::state::{Removed, WorldState};
use crate::world::FrameOut;
use crate::world_laws::{frames_have_an_order, worlds_stay_distinct};
use doc_tree::Tree;
use event_order::merge;
use fix_num::Micros;
use indexmap::IndexSet;
use std::alloc::{AllocError, Global};
use style_data::{Entry, Event, Gone};
use ticker::{laws, tick};

/// The world after its next frame, by this pass, and what the frame tells.
pub(crate) fn next_frame<P: Pass>(
    pass: &P,
    alloc: Global,
    state: WorldState,
) -> Result<(WorldState, FrameOut), AllocError>
    requires ready { P.can_pass pass.now }
    requires kept { IsKeptState state }
    requires few { state.frames < 2 ^ 32 - 1 }
    ensures world { IfOk result (λ r. world_of r.0 ≡ world_after_frame (world_of state)) }
    ensures kept { IfOk result (λ r. IsKeptState r.0) }
    ensures events { IfOk result (λ r. IsInOrderOf r.1.events.items (events_of_frame (world_of state))) }
    ensures updated { IfOk result (λ r. r.1.updated ≡ length state.tree.elements) }
{
    worlds_stay_distinct();
    let mut state = state;
    let events = events_of(alloc, &mut state)?;
    let (state, updated) = restyled(pass, alloc, state)?;
    Ok((state, FrameOut { events, updated }))
}

/// The tick of the frame: its events in order. The entries are those after it, in tree order, and nothing waits of removed elements.
fn events_of(alloc: Global, state: &mut WorldState) -> Result<Vec<Event>, AllocError>
    requires kept { IsKeptState state.old }
    ensures events { IfOk result (λ events. IsInOrderOf events.items (events_of_frame (world_of state.old))) }
    ensures world { OnOk result (world_of state.new ≡ ticked_world (world_of state.old)) }
    ensures order { OnOk result (AreInTreeOrder state.new.tree state.new.entries) }
    ensures rest { OnOk result (HasSameRest state.old state.new) }
{
    frames_have_an_order();
    state.tree.renumber();
    let mut departed = departed_items(alloc, &state.entries, state.removed.as_slice())?;
    state.removed.clear();
    let (numbers, mut list) = take_entries(alloc, state)?.into_parts();
    know_lists(list.as_slice());
    let events = ordered_events(alloc, &mut list, &mut departed, &state.tree, state.time)?;
    state.entries = Entries::with_numbers(numbers, list);
    Ok(events)
}

/// Contracts know of an entry what its readers ensure.
fn know_lists(list: &[(u32, Entry)])
    ensures transitions { All (λ e. AreTransitions e.1.effects.transitions) list.now }
    ensures animations { All (λ e. AreAscending e.1.effects.animations) list.now }
{
    for entry in list {
        let _ = entry.1.running();
        let _ = entry.1.animations();
    }
}

/// The entries in tree order, which are taken out of the state.
fn take_entries(alloc: Global, state: &mut WorldState) -> Result<Entries, AllocError>
    ensures entries { IfOk result (λ e. e ≡ entries_of state.old.tree state.old.entries) }
    ensures rest { state.new ≡ record state.old { entries = [] } }
{
    let entries = std::mem::replace(&mut state.entries, Entries::new(alloc));
    entries.in_tree_order(alloc, &state.tree)
}

/// The events of a tick at time `t`, in order.
fn ordered_events(
    alloc: Global,
    entries: &mut Vec<(u32, Entry)>,
    departed: &mut Vec<(u32, Gone)>,
    tree: &Tree,
    t: Micros,
) -> Result<Vec<Event>, AllocError>
    requires time { IsMoment t.0 }
    requires distinct { AreDistinct tree.now entries.old.items departed.old.items }
    ensures events { IfOk result (λ events. IsInOrderOf events.items (tick_events tree.now t.0 entries.old.items departed.old.items)) }
    ensures entries { OnOk result (entries.new.items ≡ map (ticked_entry t.0) entries.old.items) }
{
    laws::keys_of_a_tick_differ();
    let events = tick(alloc, entries, departed, tree, t)?;
    merge(alloc, vec![in alloc; events]?)
}

/// The style change event of the frame, and how many elements were updated.
fn restyled<P: Pass>(
    pass: &P,
    alloc: Global,
    state: WorldState,
) -> Result<(WorldState, u32), AllocError>
    requires ready { P.can_pass pass.now }
    requires tree { IsTree state.tree }
    requires order { AreInTreeOrder state.tree state.entries }
    requires time { IsMoment state.time.0 }
    requires removed { state.removed.items ≡ [] }
    requires few { state.frames < 2 ^ 32 - 1 }
    requires quiet { IsTrue state.quiet → IsQuietFrame state.touched.keys (frame_of (world_of state)) }
    ensures world { IfOk result (λ r. world_of r.0 ≡ with_frame (world_of state) (frame_after (frame_of (world_of state)))) }
    ensures order { IfOk result (λ r. AreInTreeOrder r.0.tree r.0.entries) }
    ensures removed { IfOk result (λ r. r.0.removed.items ≡ []) }
    ensures touched { IfOk result (λ r. r.0.touched.keys ≡ []) }
    ensures updated { IfOk result (λ r. r.1 ≡ length state.tree.elements) }
{
    let WorldState {
        tree,
        last_sheets,
        sheets,
        entries,
        removed,
        time,
        frames,
        quiet,
        touched,
    } = state;
    let (numbers, entries) = entries.into_parts();
    let frame = Frame::new(FrameContent {
        tree,
        old: last_sheets,
        sheets,
        entries,
        time,
        generation: frames + 1,
    });
    let Restyled { frame, updated } = restyle_by(pass, alloc, frame, quiet, touched)?;
    Ok((state_of(alloc, frame, numbers, removed), updated))
}

/// What is kept of a world after a frame, whose elements have these numbers.
fn state_of(
    alloc: Global,
    frame: Frame,
    numbers: IndexSet<u32>,
    removed: Vec<Removed>,
) -> WorldState
    requires numbers { numbers.keys ≡ numbers_of frame.document.elements }
    ensures frame { frame ≡ frame_parts result.tree result.last_sheets result.sheets result.entries result.time result.frames }
    ensures removed { result.removed ≡ removed }
    ensures touched { result.touched.keys ≡ [] }
{
    let FrameContent {
        tree,
        old,
        sheets,
        entries,
        time,
        generation,
    } = frame.into_content();
    WorldState {
        tree,
        last_sheets: old,
        sheets,
        entries: Entries::with_numbers(numbers, entries),
        removed,
        time,
        frames: generation,
        quiet: true,
        touched: IndexSet::new(alloc),
    }
}
