//! The events of animations.
ghost use Rattle.std.specs.Prelude.{◌≡◌, ◌≤◌, ◌*◌, ◌^◌, ◌++◌, map, pos, ◌≤ℤ◌, IfSome, OnOk, unsigned_abs};
ghost use Rattle.std.specs.Int.{int_max, int_min};
ghost use Rattle.anim_timing.specs.Durations.{no_later_than};
ghost use Rattle.std.specs.List.{flat_map};
ghost use Rattle.fix_num.specs.declared.limits.TheConstants.{MAX_TIME};
ghost use Rattle.style_data.specs.Transitions.{IsMoment};
ghost use Rattle.ticker.specs.AnimationEvents.{animation_occurrences, animationend, animationend_at_start, animationiteration, animationstart, animationstart_at_end, interval_end, interval_start, scheduled};
ghost use Rattle.ticker.specs.Events.{animation_standing, told_event};
ghost use Rattle.ticker.specs.Ticks.{animation_events};

use crate::event::{Occurrence, Standing, push_of_animation};
use anim_timing::{active_duration, local_time, phase_at, progress_at};
use fix_num::Micros;
use std::alloc::{AllocError, Global};
use style_data::{AnimTiming, Animation, Event, EventKind, Phase, Subject};

/// The longest active duration that an event tells, in microseconds.
const LONGEST: i128 = 1_000_000_000_000_000_000;

/// Where an animation of an element at this position in tree order stands.
fn animation_standing(position: u32, a: &Animation) -> Standing
    ensures { result ≡ animation_standing position a.now }
{
    Standing {
        class: 2,
        first: position,
        second: a.get().place,
        third: 0,
    }
}

/// The lesser of a time and one that may be infinite.
fn no_later_than(limit: Option<i128>, time: i64) -> i64
    requires { IfSome limit (λ l. pos 0 ≤ℤ l) }
    ensures { result ≡ no_later_than limit time }
{
    match limit {
        Some(limit) if limit < i128::from(time) => limit as i64,
        _ => time,
    }
}

/// What of the active duration a negative delay skips.
fn interval_start(timing: AnimTiming) -> i64
    ensures value { result ≡ interval_start timing }
    ensures low { pos 0 ≤ℤ result }
    ensures high { result ≤ℤ pos MAX_TIME }
{
    let skipped = 0 - timing.get().delay.0;
    no_later_than(active_duration(timing), skipped).max(0)
}

/// The active duration; in place of one that is too long to be told, the interval start.
fn interval_end(timing: AnimTiming) -> i64
    ensures value { result ≡ interval_end timing }
    ensures low { pos 0 ≤ℤ result }
    ensures high { result ≤ℤ pos (10 ^ 18) }
{
    match active_duration(timing) {
        Some(lasting) if lasting <= LONGEST => lasting as i64,
        _ => interval_start(timing),
    }
}

/// The time, at least `from` and at most `to`.
fn clamped(time: i64, from: i64, to: i64) -> i64
    ensures { result ≡ int_min (int_max time from) to }
{
    time.max(from).min(to)
}

/// When an animation came to this active time, seen from time `t`.
fn scheduled(a: &Animation, t: Micros, active: i64) -> Micros
    requires time { IsMoment t.0 }
    requires low { pos 0 ≤ℤ active }
    requires high { active ≤ℤ pos (10 ^ 18) }
    ensures { result.0 ≡ scheduled a.now t.0 active }
{
    let state = a.get();
    let began = t.0 - local_time(a, t).0 + state.timing.get().delay.0;
    Micros(clamped(began + active, state.created.0, t.0))
}

/// It starts.
fn animationstart(a: &Animation, t: Micros) -> Occurrence
    requires { IsMoment t.0 }
    ensures { result ≡ animationstart a.now t.0 }
{
    Occurrence {
        kind: EventKind::Start,
        elapsed: Micros(interval_start(a.get().timing)),
        time: scheduled(a, t, 0),
    }
}

/// It ends.
fn animationend(a: &Animation, t: Micros) -> Occurrence
    requires { IsMoment t.0 }
    ensures { result ≡ animationend a.now t.0 }
{
    let elapsed = interval_end(a.get().timing);
    Occurrence {
        kind: EventKind::End,
        elapsed: Micros(elapsed),
        time: scheduled(a, t, elapsed),
    }
}

/// The iteration of this number begins.
fn animationiteration(a: &Animation, t: Micros, iteration: u64) -> Occurrence
    requires time { IsMoment t.0 }
    requires passed { iteration * unsigned_abs a.now.timing.duration.0 ≤ 2 * MAX_TIME }
    ensures { result ≡ animationiteration a.now t.0 iteration }
{
    let duration = a.get().timing.get().duration;
    let elapsed = (i128::from(iteration) * i128::from(duration.0)) as i64;
    Occurrence {
        kind: EventKind::Iteration,
        elapsed: Micros(elapsed),
        time: scheduled(a, t, elapsed),
    }
}

/// It plays again, from its end.
fn animationstart_at_end(a: &Animation, t: Micros) -> Occurrence
    ensures { result ≡ animationstart_at_end a.now t.0 }
{
    Occurrence {
        kind: EventKind::Start,
        elapsed: Micros(interval_end(a.get().timing)),
        time: t,
    }
}

/// It is back before its start.
fn animationend_at_start(a: &Animation, t: Micros) -> Occurrence
    ensures { result ≡ animationend_at_start a.now t.0 }
{
    Occurrence {
        kind: EventKind::End,
        elapsed: Micros(interval_start(a.get().timing)),
        time: t,
    }
}

/// Appends the event of another iteration, if it is another.
fn push_iteration(
    alloc: Global,
    events: &mut Vec<Event>,
    element: u32,
    at: Standing,
    a: &Animation,
    t: Micros,
) -> Result<(), AllocError>
    requires { IsMoment t.0 }
    ensures { OnOk result (events.new.items ≡ events.old.items ++ map (told_event element (Subject.Animation a.now.name) at) (animation_occurrences a.now t.0 Phase.Active Phase.Active)) }
{
    // Its clause says that the timing is within its bounds, so that the iterations that have passed are too.
    let _ = a.get().timing.get();
    match progress_at(a, t) {
        Some(progress) if progress.iteration != a.get().iteration => {
            let occurrences = [animationiteration(a, t, progress.iteration)];
            push_of_animation(alloc, events, element, &a.get().name, at, &occurrences)
        }
        _ => Ok(()),
    }
}

/// Appends what an animation tells between the phase in which it was last seen and the one in which it is.
fn push_between(
    alloc: Global,
    events: &mut Vec<Event>,
    element: u32,
    at: Standing,
    a: &Animation,
    t: Micros,
    seen: Phase,
    now: Phase,
) -> Result<(), AllocError>
    requires { IsMoment t.0 }
    ensures { OnOk result (events.new.items ≡ events.old.items ++ map (told_event element (Subject.Animation a.now.name) at) (animation_occurrences a.now t.0 seen now)) }
{
    let name = &a.get().name;
    match (seen, now) {
        (Phase::Idle | Phase::Before, Phase::Active) => {
            push_of_animation(alloc, events, element, name, at, &[animationstart(a, t)])
        }
        (Phase::Idle | Phase::Before, Phase::After) => {
            let occurrences = [animationstart(a, t), animationend(a, t)];
            push_of_animation(alloc, events, element, name, at, &occurrences)
        }
        (Phase::Active, Phase::Active) => push_iteration(alloc, events, element, at, a, t),
        (Phase::Active, Phase::After) => {
            push_of_animation(alloc, events, element, name, at, &[animationend(a, t)])
        }
        (Phase::After, Phase::Active) => {
            let occurrences = [animationstart_at_end(a, t)];
            push_of_animation(alloc, events, element, name, at, &occurrences)
        }
        (Phase::After, Phase::Before) => {
            let occurrences = [animationstart_at_end(a, t), animationend_at_start(a, t)];
            push_of_animation(alloc, events, element, name, at, &occurrences)
        }
        (Phase::Active, Phase::Before) => {
            let occurrences = [animationend_at_start(a, t)];
            push_of_animation(alloc, events, element, name, at, &occurrences)
        }
        _ => Ok(()),
    }
}

/// Appends the events of an animation.
fn push_animation(
    alloc: Global,
    events: &mut Vec<Event>,
    element: u32,
    position: u32,
    a: &Animation,
    t: Micros,
) -> Result<(), AllocError>
    requires { IsMoment t.0 }
    ensures { OnOk result (events.new.items ≡ events.old.items ++ animation_events element position t.0 a.now) }
{
    push_between(
        alloc,
        events,
        element,
        animation_standing(position, a),
        a,
        t,
        a.get().seen,
        phase_at(a, t),
    )
}

/// Appends the events of animations.
pub(crate) fn push_animations(
    alloc: Global,
    events: &mut Vec<Event>,
    element: u32,
    position: u32,
    animations: &[Animation],
    t: Micros,
) -> Result<(), AllocError>
    requires { IsMoment t.0 }
    ensures { OnOk result (events.new.items ≡ events.old.items ++ flat_map (animation_events element position t.0) animations.now) }
{
    for a in animations {
        push_animation(alloc, events, element, position, a, t)?;
    }
    Ok(())
}
