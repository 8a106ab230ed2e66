//! The update of an element.

ghost use Rattle.std.specs.Prelude.{◌≡◌, ◌++◌, IfOk, IfSome, option_copied, true};
ghost use Rattle.style_data.specs.Entries.{AreAscending, effect_lists, entry_parts};
ghost use Rattle.style_data.specs.Transitions.{IsMoment};
ghost use Rattle.value_types.specs.Ranges.{IsSize};
ghost use Rattle.element_step.specs.Updates.{down_after, element_update, entry_after, unless_leaf};

use crate::rendering::is_rendered;
use crate::restyle::{Restyled, restyle};
use animation_names::Paired;
use fix_num::Fix;
use std::alloc::{AllocError, Global};
use style_data::{DeclaredSet, Down, Effects, Entry, Gone, Sampling};
use transition_update::StyleChangeEvent;

/// An element after a style change event.
#[derive(Drop)]
pub struct ElementUpdated {
    pub entry: Entry,
    /// What it hands down; `None` of a leaf.
    pub down: Option<Down>,
}

/// The update of an element at a style change event: its entry after it, and what it hands down (CSS Transitions 1,
/// section 3), from its entry of the event before, its declarations of now, what its parent hands down, what its animations of
/// then and of now give at this moment, its animations of now, and the root's font size at the event before, if there was one.
/// What a leaf hands down nobody asks for, so it isn't made.
pub fn update_entry<A: Sampling, B: Sampling>(
    alloc: Global,
    entry: &Entry,
    declared: DeclaredSet,
    parent: Option<&Down>,
    old: &A,
    new: &B,
    paired: Paired,
    root_size: Option<Fix>,
    event: StyleChangeEvent,
    leaf: bool,
) -> Result<ElementUpdated, AllocError>
    requires time { IsMoment event.time.0 }
    requires size { IfSome root_size IsSize }
    requires ascending { AreAscending paired.animations.items }
    ensures entry { IfOk result (λ u. u.entry ≡ entry_after (element_update entry.now declared (option_copied parent.entry) (A.animated_value old.now) (B.animated_value new.now) paired.animations.items root_size event) paired.gone.items) }
    ensures down { IfOk result (λ u. u.down ≡ unless_leaf leaf (down_after (element_update entry.now declared (option_copied parent.entry) (A.animated_value old.now) (B.animated_value new.now) paired.animations.items root_size event))) }
{
    let rendered = is_rendered(&declared, parent);
    let animations = paired.animations.as_slice();
    let restyled = restyle(
        alloc, entry, &declared, parent, old, new, animations, root_size, event, leaf,
    )?;
    let down = restyled.down;
    let entry = entry_of(alloc, entry.gone(), declared, rendered, restyled, paired)?;
    Ok(ElementUpdated { entry, down })
}

fn entry_of(
    alloc: Global,
    gone: &[Gone],
    declared: DeclaredSet,
    rendered: bool,
    restyled: Restyled,
    paired: Paired,
) -> Result<Entry, AllocError>
    requires { AreAscending paired.animations.items }
    ensures { IfOk result (λ e. e ≡ entry_parts true rendered restyled.settled declared restyled.now (effect_lists restyled.transitions paired.animations.items (gone.now ++ restyled.gone.items ++ paired.gone.items))) }
{
    let all = all_gone(alloc, gone, restyled.gone, paired.gone)?;
    let effects = Effects::new(restyled.transitions, paired.animations, all);
    Entry::new(
        alloc,
        true,
        rendered,
        restyled.settled,
        declared,
        restyled.now,
        effects,
    )
}

/// The cancelled items that wait for their event, and then those of this event.
fn all_gone(
    alloc: Global,
    kept: &[Gone],
    cancelled: Vec<Gone>,
    ended: Vec<Gone>,
) -> Result<Vec<Gone>, AllocError>
    ensures { IfOk result (λ all. all.items ≡ kept.now ++ cancelled.items ++ ended.items) }
{
    let mut all = copies(alloc, kept)?;
    let mut cancelled = cancelled;
    let mut ended = ended;
    all.append(&mut cancelled)?;
    all.append(&mut ended)?;
    Ok(all)
}

fn copies(alloc: Global, items: &[Gone]) -> Result<Vec<Gone>, AllocError>
    ensures { IfOk result (λ copies. copies.items ≡ items.now) }
{
    let mut copies = Vec::new(alloc);
    for item in items {
        copies.push(item.copy(alloc)?)?;
    }
    Ok(copies)
}
