//! The animations of an element at a style change event.
ghost use Rattle.std.specs.Prelude.{◌≡◌, ◌<◌, ◌++◌, IfOk, OnOk, count_by, length, option_copied, option_map};
ghost use Rattle.std.specs.Option.{option_to_list};
ghost use Rattle.style_data.specs.Entries.{AreAscending};
ghost use Rattle.style_data.specs.Transitions.{IsMoment};
ghost use Rattle.animation_names.specs.Continuing.{animation_from};
ghost use Rattle.animation_names.specs.NameLists.{animated_name, called_after, has_keyframes, is_called, names_update};
ghost use Rattle.animation_names.specs.Updates.{AreUpdated, animations_after, goes_on, gone_among, gone_from, kept_at, paired_of};

use crate::continuing::{cancelled_animation, continued_animation, started_animation};
use crate::lists::{animated_name, places_after};
use crate::paired::Paired;
use fix_num::Micros;
use sheet_types::Sheets;
use std::alloc::{AllocError, Global};
use style_data::{Animation, Gone};
use timing_types::{AnimationLists, Name};

/// What a style change event makes of the animations of an element (CSS Animations Level 1, "The animation-name property"): from the end of the list of
/// names on, each place whose name has a keyframes rule goes on with the last old animation of its name that no later place has taken, or
/// starts one. The old ones that none takes are cancelled, in the order of their list. `t` is the time of the event, in microseconds,
/// `generation` the number of its frame and `position` the tree position of the element.
pub fn match_names(
    alloc: Global,
    old: &[Animation],
    lists: &AnimationLists,
    sheets: &Sheets,
    t: Micros,
    generation: u32,
    position: u32,
) -> Result<Paired, AllocError>
    requires { IsMoment t.0 }
    ensures pairing { IfOk result (λ p. AreUpdated (names_update old.now lists.now sheets.now t generation position) p.animations.items p.gone.items) }
    ensures animations { IfOk result (λ p. p.animations.items ≡ (paired_of old.now lists.now sheets.now t generation position).animations) }
    ensures gone { IfOk result (λ p. p.gone.items ≡ (paired_of old.now lists.now sheets.now t generation position).gone) }
    ensures ascending { IfOk result (λ p. AreAscending p.animations.items) }
{
    let animations = animations_after(alloc, old, lists, sheets, t, generation, position)?;
    let gone = gone_among(alloc, old, animations.as_slice(), t)?;
    Ok(Paired { animations, gone })
}

/// The animations after the event.
fn animations_after(
    alloc: Global,
    old: &[Animation],
    lists: &AnimationLists,
    sheets: &Sheets,
    t: Micros,
    generation: u32,
    position: u32,
) -> Result<Vec<Animation>, AllocError>
    requires { IsMoment t.0 }
    ensures { IfOk result (λ v. v.items ≡ animations_after (names_update old.now lists.now sheets.now t generation position)) }
{
    let names = lists.names();
    let mut animations = Vec::new(alloc);
    for (i, item) in names.iter().enumerate() {
        let animation = animation_at(alloc, old, lists, sheets, i, item, t, generation, position)?;
        push_some(&mut animations, animation)?;
    }
    Ok(animations)
}

/// The animation at place `i`, where the item of the list stands; `None` where that is `none` or has no keyframes rule.
fn animation_at(
    alloc: Global,
    old: &[Animation],
    lists: &AnimationLists,
    sheets: &Sheets,
    i: usize,
    item: &Option<Name>,
    t: Micros,
    generation: u32,
    position: u32,
) -> Result<Option<Animation>, AllocError>
    requires place { i < length lists.now.names }
    requires time { IsMoment t.0 }
    ensures { IfOk result (λ a. a ≡ option_map (λ name. animation_from (names_update old.now lists.now sheets.now t generation position) i name (kept_at old.now lists.now.names i name)) (animated_name (has_keyframes sheets.now) item.now)) }
{
    let Some(name) = animated_name(item, sheets) else {
        return Ok(None);
    };
    match kept_at(old, lists.names(), i, name.as_bytes()) {
        Some(a) => Ok(Some(continued_animation(alloc, a, lists, i, t)?)),
        None => {
            let animation = started_animation(alloc, name, lists, i, t, generation, position)?;
            Ok(Some(animation))
        }
    }
}

/// The old animation that goes on at place `i`, which has the name: that with as many of the name after it as the place has.
fn kept_at<'a>(
    old: &'a [Animation],
    names: &[Option<Name>],
    i: usize,
    name: &[u8],
) -> Option<&'a Animation>
    requires { i < length names.now }
    ensures { option_copied result ≡ kept_at old.now names.now i name.now }
{
    old.iter()
        .rev()
        .filter(|a| is_called(name, a))
        .nth(places_after(names, i, name))
}

fn is_called(name: &[u8], a: &Animation) -> bool
    ensures { result ≡ is_called name.now a.now }
{
    a.get().name.as_bytes() == name
}

/// The old animations that don't go on among these, cancelled.
fn gone_among(
    alloc: Global,
    old: &[Animation],
    animations: &[Animation],
    t: Micros,
) -> Result<Vec<Gone>, AllocError>
    requires { IsMoment t.0 }
    ensures { IfOk result (λ gone. gone.items ≡ gone_among t old.now animations.now) }
{
    let mut gone = Vec::new(alloc);
    for (j, a) in old.iter().enumerate() {
        let cancelled = gone_from(alloc, old, animations, j, a, t)?;
        push_some(&mut gone, cancelled)?;
    }
    Ok(gone)
}

/// The animation at index `j` of the old ones, cancelled; `None` where it goes on.
fn gone_from(
    alloc: Global,
    old: &[Animation],
    animations: &[Animation],
    j: usize,
    a: &Animation,
    t: Micros,
) -> Result<Option<Gone>, AllocError>
    requires place { j < length old.now }
    requires time { IsMoment t.0 }
    ensures { IfOk result (λ gone. gone ≡ gone_from t old.now animations.now j a.now) }
{
    if goes_on(old, animations, j, a) {
        return Ok(None);
    }
    Ok(Some(cancelled_animation(alloc, a, t)?))
}

/// Whether the animation at index `j` of the old ones goes on: fewer of its name stand after it than there are now.
fn goes_on(old: &[Animation], animations: &[Animation], j: usize, a: &Animation) -> bool
    requires { j < length old.now }
    ensures { result ≡ goes_on old.now animations.now j a.now }
{
    let name = a.get().name.as_bytes();
    called_after(old, j, name) < count_called(animations, name)
}

/// How many of the animations after index `j` have the name.
fn called_after(old: &[Animation], j: usize, name: &[u8]) -> usize
    requires { j < length old.now }
    ensures { result ≡ called_after old.now j name.now }
{
    old.iter()
        .skip(j + 1)
        .filter(|a| is_called(name, a))
        .count()
}

fn count_called(animations: &[Animation], name: &[u8]) -> usize
    ensures { result ≡ count_by (is_called name.now) animations.now }
{
    animations.iter().filter(|a| is_called(name, a)).count()
}

/// Puts an item after the last, where there is one.
fn push_some<T: Drop>(items: &mut Vec<T>, item: Option<T>) -> Result<(), AllocError>
    ensures { OnOk result (items.new.items ≡ items.old.items ++ option_to_list item) }
{
    if let Some(item) = item {
        items.push(item)?;
    }
    Ok(())
}
