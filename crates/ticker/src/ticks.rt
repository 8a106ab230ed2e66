//! Ticks.
ghost use Rattle.std.specs.Prelude.{◌≡◌, All, IfOk, IsSome, OnOk, [], map};
ghost use Rattle.doc_tree.specs.Element.{position_of};
ghost use Rattle.style_data.specs.Transitions.{IsMoment};
ghost use Rattle.ticker.specs.Ticks.{tick_events, ticked_entry};

use crate::cancel::push_departed;
use crate::entry::tick_entry;
use doc_tree::Tree;
use fix_num::Micros;
use std::alloc::{AllocError, Global};
use style_data::{Entry, Event, Gone};

/// A tick at time `t` (Web Animations Level 1, "update animations and send events"): the events of all entries, each with its element's
/// number, and of what the `departed` elements had when they were removed. What was told is kept as seen: a transition that has ended is
/// completed, and nothing cancelled is left. Takes memory for the events, and for the effects of an entry of which a transition ends or
/// was cancelled.
///
/// Where memory runs out the entries of a prefix are those after the tick, the entry at which it ran out may be, the others and what
/// departed are as before, and the events are lost.
pub fn tick(
    alloc: Global,
    entries: &mut Vec<(u32, Entry)>,
    departed: &mut Vec<(u32, Gone)>,
    tree: &Tree,
    t: Micros,
) -> Result<Vec<Event>, AllocError>
    requires time { IsMoment t.0 }
    requires known { All (λ e. IsSome (position_of e.0 tree.now)) entries.old.items }
    ensures events { IfOk result (λ events. events.items ≡ tick_events tree.now t.0 entries.old.items departed.old.items) }
    ensures entries { OnOk result (entries.new.items ≡ map (ticked_entry t.0) entries.old.items) }
    ensures departed { OnOk result (departed.new.items ≡ []) }
{
    let mut events = Vec::new(alloc);
    for item in entries.iter_mut() {
        tick_entry(alloc, &mut events, item, tree, t)?;
    }
    push_departed(alloc, &mut events, departed.as_slice())?;
    departed.clear();
    Ok(events)
}
