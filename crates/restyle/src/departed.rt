//! What removed elements had.

ghost use Rattle.std.specs.Prelude.{◌≡◌, ◌++◌, All, IfOk, OnOk, map, option_copied, unwrap_or};
ghost use Rattle.animation_names.specs.Continuing.{cancelled_animation};
ghost use Rattle.style_data.specs.Entries.{fresh_entry};
ghost use Rattle.style_data.specs.Transitions.{IsMoment};
ghost use Rattle.restyle.specs.States.{departed_in};
ghost use Rattle.restyle.specs.Worlds.{all_departed_of, all_gone_at};

use crate::entries::Entries;
use crate::state::Removed;
use animation_names::cancelled_animation;
use fix_num::Micros;
use std::alloc::{AllocError, Global};
use style_data::{Animation, Effects, Entry, Gone};
use transition_update::cancel_transitions;

/// What waits for the next tick of elements that were removed.
pub(crate) fn departed_items(
    alloc: Global,
    entries: &Entries,
    removed: &[Removed],
) -> Result<Vec<(u32, Gone)>, AllocError>
    requires { All (λ r. IsMoment r.time.0) removed.now }
    ensures { IfOk result (λ departed. departed.items ≡ departed_in entries.now removed.now) }
{
    let mut departed = Vec::new(alloc);
    for elements in removed {
        push_removed(alloc, &mut departed, entries, elements)?;
    }
    Ok(departed)
}

/// Appends what elements had that were removed together.
fn push_removed(
    alloc: Global,
    departed: &mut Vec<(u32, Gone)>,
    entries: &Entries,
    removed: &Removed,
) -> Result<(), AllocError>
    requires { IsMoment removed.now.time.0 }
    ensures { OnOk result (departed.new.items ≡ departed.old.items ++ all_departed_of entries.now removed.now.time removed.now.numbers.items) }
{
    for n in removed.numbers.iter() {
        push_element(alloc, departed, *n, entries.find(*n), removed.time)?;
    }
    Ok(())
}

/// Appends what the element had, whose entry this is if it has one.
fn push_element(
    alloc: Global,
    departed: &mut Vec<(u32, Gone)>,
    n: u32,
    entry: Option<&Entry>,
    t: Micros,
) -> Result<(), AllocError>
    requires { IsMoment t.0 }
    ensures { OnOk result (departed.new.items ≡ departed.old.items ++ map (λ g. (n, g)) (all_gone_at t (unwrap_or (option_copied entry.entry) fresh_entry).effects)) }
{
    let Some(entry) = entry else {
        return Ok(());
    };
    match entry.effects() {
        None => Ok(()),
        Some(effects) => push_effects(alloc, departed, n, effects, t),
    }
}

/// Appends what these effects leave where they are cancelled.
fn push_effects(
    alloc: Global,
    departed: &mut Vec<(u32, Gone)>,
    n: u32,
    effects: &Effects,
    t: Micros,
) -> Result<(), AllocError>
    requires { IsMoment t.0 }
    ensures { OnOk result (departed.new.items ≡ departed.old.items ++ map (λ g. (n, g)) (all_gone_at t effects.now)) }
{
    push_items(alloc, departed, n, effects.gone())?;
    let cancelled = cancel_transitions(alloc, effects.transitions(), t)?;
    push_items(alloc, departed, n, cancelled.as_slice())?;
    push_animations(alloc, departed, n, effects.animations(), t)
}

fn push_items(
    alloc: Global,
    departed: &mut Vec<(u32, Gone)>,
    n: u32,
    items: &[Gone],
) -> Result<(), AllocError>
    ensures { OnOk result (departed.new.items ≡ departed.old.items ++ map (λ g. (n, g)) items.now) }
{
    for item in items {
        departed.push((n, item.copy(alloc)?))?;
    }
    Ok(())
}

fn push_animations(
    alloc: Global,
    departed: &mut Vec<(u32, Gone)>,
    n: u32,
    animations: &[Animation],
    t: Micros,
) -> Result<(), AllocError>
    requires { IsMoment t.0 }
    ensures { OnOk result (departed.new.items ≡ departed.old.items ++ map (λ a. (n, cancelled_animation t a)) animations.now) }
{
    for animation in animations {
        departed.push((n, cancelled_animation(alloc, animation, t)?))?;
    }
    Ok(())
}
