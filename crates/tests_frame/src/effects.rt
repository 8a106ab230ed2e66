//! Effects of one transition or one animation.
ghost use Rattle.style_data.specs.Kept.{IsKeptFor};
ghost use Rattle.style_data.specs.Transitions.{IsMoment};
ghost use Rattle.value_types.specs.declared.property.PropertyId.{PropertyId};

use fix_num::{Bill, Fix, Micros};
use std::alloc::{AllocError, Global};
use style_data::{
    AnimTiming, Animation, AnimationState, AnimationTiming, Effects, Phase, Running, Transition,
    Transitions,
};
use timing_types::{Count, Direction, Easing, Fill, Name};
use value_types::{PropertyId, Value};

pub(crate) fn millis(t: u16) -> Micros
    ensures { IsMoment result.0 }
{
    Micros(i64::from(t) * 1000)
}

fn fade(seen: Phase) -> Running
    ensures { IsKeptFor PropertyId.Opacity result }
{
    Running::new(Transition {
        from: Value::Number(Fix(0)),
        to: Value::Number(Fix(1_000_000)),
        adjusted: Value::Number(Fix(0)),
        created: Micros(0),
        start: Micros(1_000_000),
        end: Micros(2_000_000),
        easing: Easing::Linear,
        factor: Bill(1_000_000_000),
        generation: 1,
        position: 0,
        seen,
    })
}

fn spin(alloc: Global, seen: Phase, iteration: u8) -> Animation {
    let timing = AnimTiming::new(AnimationTiming {
        duration: Micros(1_000_000),
        delay: Micros(0),
        count: Count::Times(Fix(2_500_000)),
        direction: Direction::Normal,
        fill: Fill::Nothing,
        easing: Easing::Linear,
    });
    Animation::new(AnimationState {
        name: Name::underscore(alloc),
        place: 0,
        first_place: 0,
        created: Micros(0),
        start: Micros(0),
        hold: None,
        timing,
        generation: 1,
        position: 0,
        seen,
        iteration: u64::from(iteration),
    })
}

/// A fade in the second from 1 s on.
pub(crate) fn faded(alloc: Global, seen: Phase) -> Result<Effects, AllocError> {
    let mut transitions = Transitions::new(alloc);
    transitions.keep(PropertyId::Opacity, Some(fade(seen)), None)?;
    Ok(Effects::new(transitions, Vec::new(alloc), Vec::new(alloc)))
}

/// An animation of two and a half iterations of a second.
#[tactic(auto, using(crate::proofs::Alone::alone))]
pub(crate) fn spun(alloc: Global, seen: Phase, iteration: u8) -> Result<Effects, AllocError> {
    let mut animations = Vec::new(alloc);
    animations.push(spin(alloc, seen, iteration))?;
    Ok(Effects::new(Transitions::new(alloc), animations, Vec::new(alloc)))
}
