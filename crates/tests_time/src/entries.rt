//! Entries and their effects.
ghost use Rattle.std.specs.Prelude.{IfOk};
ghost use Rattle.style_data.specs.Entries.{AreAscending};

use crate::fading::{fade, number};
use fix_num::Micros;
use std::alloc::{AllocError, Global};
use std::test::Fail;
use style_data::{
    AnimTiming, Animation, AnimationState, AnimationTiming, Completed, DeclaredSet, Effects, Entry,
    Gone, Phase, Style, Subject, Transitions,
};
use timing_types::{Count, Direction, Easing, Fill, Name, Same};
use value_types::{PropertyId, Value};

#[test]
fn fresh_entry(rt: HostRuntime) -> Result<(), Fail> {
    let entry = Entry::fresh(rt.alloc())?;
    assert!(rt; !entry.styled() && !entry.rendered() && !entry.settled());
    assert!(rt; entry.now().value(PropertyId::Opacity) == number(1_000_000));
    assert!(rt; entry.now().value(PropertyId::Width) == Value::Auto);
    assert!(rt; entry.effects().is_none() && entry.gone().is_empty());
    Ok(())
}

pub(crate) fn transitions(alloc: Global) -> Result<Transitions, AllocError> {
    let mut transitions = Transitions::new(alloc);
    transitions.keep(PropertyId::Opacity, Some(fade(Phase::Before)), None)?;
    let done = Completed { to: Value::Auto };
    transitions.keep(PropertyId::Width, None, Some(done))?;
    Ok(transitions)
}

/// An animation named `_`.
fn animation(alloc: Global) -> Animation {
    let timing = AnimationTiming {
        duration: Micros(1_000_000),
        delay: Micros(-1),
        count: Count::Infinite,
        direction: Direction::Reverse,
        fill: Fill::Both,
        easing: Easing::Linear,
    };
    Animation::new(AnimationState {
        name: Name::underscore(alloc),
        place: 1,
        first_place: 2,
        created: Micros(3),
        start: Micros(4),
        hold: Some(Micros(5)),
        timing: AnimTiming::new(timing),
        generation: 6,
        position: 7,
        seen: Phase::Active,
        iteration: 8,
    })
}

#[tactic(auto, using(crate::proofs::Alone::alone))]
fn one_animation(alloc: Global) -> Result<Vec<Animation>, AllocError>
    ensures { IfOk result (λ list. AreAscending list.items) }
{
    let mut list = Vec::new(alloc);
    list.push(animation(alloc))?;
    Ok(list)
}

fn one_gone(alloc: Global) -> Result<Vec<Gone>, AllocError> {
    let mut list = Vec::new(alloc);
    list.push(Gone {
        subject: Subject::Animation(Name::underscore(alloc)),
        place: 2,
        cancelled: Micros(9),
        elapsed: Micros(10),
        generation: 6,
        position: 7,
        seen: Phase::Active,
    })?;
    Ok(list)
}

fn entry(alloc: Global) -> Result<Entry, AllocError> {
    let animations = one_animation(alloc)?;
    let effects = Effects::new(transitions(alloc)?, animations, one_gone(alloc)?);
    let now = Style::initial(alloc);
    Entry::new(alloc, true, true, false, DeclaredSet::empty(), now, effects)
}

#[test]
fn copies_and_compares(rt: HostRuntime) -> Result<(), Fail> {
    let first = entry(rt.alloc())?;
    let copy = first.copy(rt.alloc())?;
    assert!(rt; copy.is_same(&first));
    assert!(rt; copy.running().len() == 1 && copy.completed().len() == 1);
    assert!(rt; copy.animations().len() == 1 && copy.gone().len() == 1);
    let fresh = Entry::fresh(rt.alloc())?;
    assert!(rt; !fresh.is_same(&first) && !first.is_same(&fresh));
    Ok(())
}

#[test]
fn changes_in_place(rt: HostRuntime) -> Result<(), Fail> {
    let before = entry(rt.alloc())?;
    let mut entry = before.copy(rt.alloc())?;
    if !entry.running().is_empty() {
        entry.see_transition(0, Phase::Active);
    }
    if !entry.animations().is_empty() {
        entry.see_animation(0, Phase::After, 9);
    }
    let seen = entry.running_of(PropertyId::Opacity).ok_or("nothing runs")?;
    assert!(rt; seen.get().seen == Phase::Active);
    let animation = entry.animations().first().ok_or("no animation")?;
    assert!(rt; animation.get().seen == Phase::After && animation.get().iteration == 9);
    assert!(rt; !entry.is_same(&before));
    entry.set_effects(rt.alloc(), Effects::none(rt.alloc()))?;
    assert!(rt; entry.effects().is_none());
    Ok(())
}

#[test]
fn gives_lists_back(rt: HostRuntime) -> Result<(), Fail> {
    let alloc = rt.alloc();
    let animations = one_animation(alloc)?;
    let effects = Effects::new(transitions(alloc)?, animations, one_gone(alloc)?);
    let (transitions, animations, gone) = effects.into_lists();
    assert!(rt; transitions.running().len() == 1 && animations.len() == 1 && gone.len() == 1);
    Ok(())
}
