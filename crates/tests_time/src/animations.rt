//! Phases and progress of animations: rows after the tables of Web Animations Level 1, "Interval timing" and "Fill behavior
//! and fill modes", and of CSS Animations Level 1.
ghost use Rattle.style_data.specs.Transitions.{IsMoment};

use anim_timing::{active_duration, cancel_elapsed, pause_or_run, phase_at, progress_at};
use fix_num::{Fix, Micros};
use std::alloc::Global;
use style_data::{AnimTiming, Animation, AnimationState, AnimationTiming, Phase};
use timing_types::{Count, Direction, Easing, Fill, Name};

const NORMAL: Direction = Direction::Normal;

const REVERSE: Direction = Direction::Reverse;

const TURNING: Direction = Direction::Alternate;

const TURNED: Direction = Direction::AlternateReverse;

/// Iteration counts, in millionths.
const HALF: Option<u32> = Some(500_000);

const ONCE: Option<u32> = Some(1_000_000);

const TWICE: Option<u32> = Some(2_500_000);

const ENDLESS: Option<u32> = None;

/// The timing of a row, in milliseconds and millionths.
#[derive(Clone, Copy)]
struct Row {
    duration: u32,
    delay: i32,
    count: Option<u32>,
    direction: Direction,
    fill: Fill,
}

fn timed(duration: u32, delay: i32, count: Option<u32>, direction: Direction, fill: Fill) -> Row {
    Row {
        duration,
        delay,
        count,
        direction,
        fill,
    }
}

fn millis(t: u32) -> Micros
    ensures { IsMoment result.0 }
{
    Micros(i64::from(t) * 1000)
}

fn timing(row: Row) -> AnimTiming {
    AnimTiming::new(AnimationTiming {
        duration: millis(row.duration),
        delay: Micros(i64::from(row.delay) * 1000),
        count: match row.count {
            Some(n) => Count::Times(Fix(i64::from(n))),
            None => Count::Infinite,
        },
        direction: row.direction,
        fill: row.fill,
        easing: Easing::Linear,
    })
}

/// An animation that starts at time 0, named `_`.
fn animation(alloc: Global, timing: AnimTiming) -> Animation {
    Animation::new(AnimationState {
        name: Name::underscore(alloc),
        place: 0,
        first_place: 0,
        created: Micros(0),
        start: Micros(0),
        hold: None,
        timing,
        generation: 1,
        position: 0,
        seen: Phase::Idle,
        iteration: 0,
    })
}

/// The progress in billionths and the current iteration.
fn progress(a: &Animation, t: Micros) -> Option<(i64, u64)>
    requires { IsMoment t.0 }
{
    match progress_at(a, t) {
        Some(p) => Some((p.value.0, p.iteration)),
        None => None,
    }
}

fn is_given(alloc: Global, row: Row, t: u32, given: Option<(i64, u64)>) -> bool {
    let a = animation(alloc, timing(row));
    progress(&a, millis(t)) == given
}

const END: i64 = 1_000_000_000;

/// A timing, a time, and the progress and the iteration then, while the animation is active.
const BETWEEN: [(u32, i32, Option<u32>, Direction, Fill, u32, i64, u64); 13] = [
    (1000, 0, TWICE, TURNING, Fill::Both, 1000, END, 1),
    (1000, 0, TWICE, NORMAL, Fill::Nothing, 1250, 250_000_000, 1),
    (1000, 0, TWICE, REVERSE, Fill::Nothing, 1250, 750_000_000, 1),
    (1000, 0, TWICE, TURNING, Fill::Nothing, 1250, 750_000_000, 1),
    (1000, 0, TWICE, TURNED, Fill::Nothing, 1250, 250_000_000, 1),
    (1000, 0, TWICE, TURNING, Fill::Nothing, 2250, 250_000_000, 2),
    (1000, 0, TWICE, TURNED, Fill::Nothing, 2250, 750_000_000, 2),
    (3, 0, ONCE, NORMAL, Fill::Nothing, 1, 333_333_333, 0),
    (3, 0, ONCE, NORMAL, Fill::Nothing, 2, 666_666_667, 0),
    (1000, -500, ONCE, NORMAL, Fill::Nothing, 0, 500_000_000, 0),
    (1000, 500, ONCE, NORMAL, Fill::Nothing, 500, 0, 0),
    (
        1000,
        -1500,
        ENDLESS,
        NORMAL,
        Fill::Nothing,
        0,
        500_000_000,
        1,
    ),
    (1000, 0, ENDLESS, TURNING, Fill::Nothing, 1_000_000, 0, 1000),
];

#[test]
fn progress_between_the_boundaries(rt: HostRuntime) {
    for (duration, delay, count, direction, fill, t, value, iteration) in BETWEEN {
        let row = timed(duration, delay, count, direction, fill);
        assert!(rt; is_given(rt.alloc(), row, t, Some((value, iteration))));
    }
}

/// The same before and after.
const FILLED: [(u32, i32, Option<u32>, Direction, Fill, u32, i64, u64); 24] = [
    (1000, 0, TWICE, TURNING, Fill::Both, 2500, 500_000_000, 2),
    (1000, 1000, ONCE, NORMAL, Fill::Backwards, 500, 0, 0),
    (1000, 1000, ONCE, REVERSE, Fill::Both, 500, END, 0),
    (1000, 1000, ENDLESS, TURNED, Fill::Backwards, 0, END, 0),
    (1000, 0, HALF, NORMAL, Fill::Forwards, 700, 500_000_000, 0),
    (
        1000,
        0,
        Some(250_000),
        REVERSE,
        Fill::Both,
        700,
        750_000_000,
        0,
    ),
    (1000, 0, Some(0), NORMAL, Fill::Forwards, 0, 0, 0),
    (1000, 0, Some(0), REVERSE, Fill::Both, 9, END, 0),
    (
        1000,
        0,
        Some(3_000_000),
        NORMAL,
        Fill::Forwards,
        3000,
        END,
        2,
    ),
    (
        1000,
        0,
        Some(3_000_000),
        REVERSE,
        Fill::Forwards,
        9000,
        0,
        2,
    ),
    (
        1000,
        0,
        Some(2_000_000),
        TURNING,
        Fill::Forwards,
        2000,
        0,
        1,
    ),
    (1000, 0, Some(2_000_000), TURNED, Fill::Both, 2000, END, 1),
    (1000, -500, ONCE, NORMAL, Fill::Forwards, 500, END, 0),
    (1000, -3000, ONCE, NORMAL, Fill::Both, 0, END, 0),
    (0, 0, ONCE, NORMAL, Fill::Forwards, 0, END, 0),
    (0, 0, TWICE, NORMAL, Fill::Both, 5, 500_000_000, 2),
    (0, 0, Some(2_000_000), TURNING, Fill::Forwards, 0, 0, 1),
    (0, 0, Some(0), NORMAL, Fill::Forwards, 0, 0, 0),
    (0, 1000, TWICE, NORMAL, Fill::Backwards, 0, 0, 0),
    (0, 1000, TWICE, REVERSE, Fill::Both, 999, END, 0),
    (0, 0, ENDLESS, NORMAL, Fill::Forwards, 0, END, 0),
    (0, 0, ENDLESS, REVERSE, Fill::Forwards, 0, 0, 0),
    (0, 0, ENDLESS, TURNING, Fill::Both, 7, END, 0),
    (0, 0, ENDLESS, TURNED, Fill::Both, 7, END, 0),
];

#[test]
fn progress_that_is_filled(rt: HostRuntime) {
    for (duration, delay, count, direction, fill, t, value, iteration) in FILLED {
        let row = timed(duration, delay, count, direction, fill);
        assert!(rt; is_given(rt.alloc(), row, t, Some((value, iteration))));
    }
}

/// A timing, and a time at which it gives no progress.
const UNFILLED: [(u32, i32, Option<u32>, Direction, Fill, u32); 6] = [
    (1000, 1000, Some(2_500_000), TURNING, Fill::Nothing, 0),
    (1000, 1000, ONCE, NORMAL, Fill::Forwards, 999),
    (1000, 0, ONCE, NORMAL, Fill::Nothing, 1000),
    (1000, 0, ONCE, NORMAL, Fill::Backwards, 1000),
    (1000, 0, Some(0), NORMAL, Fill::Nothing, 0),
    (0, 0, ENDLESS, NORMAL, Fill::Backwards, 0),
];

#[test]
fn no_progress_where_nothing_fills(rt: HostRuntime) {
    for (duration, delay, count, direction, fill, t) in UNFILLED {
        let row = timed(duration, delay, count, direction, fill);
        assert!(rt; is_given(rt.alloc(), row, t, None));
    }
}

/// A timing, a time, and the phase then.
const PHASES: [(u32, i32, Option<u32>, Direction, Fill, u32, Phase); 9] = [
    (1000, 500, ONCE, NORMAL, Fill::Nothing, 499, Phase::Before),
    (1000, 500, ONCE, NORMAL, Fill::Nothing, 500, Phase::Active),
    (1000, 500, ONCE, NORMAL, Fill::Nothing, 1499, Phase::Active),
    (1000, 500, ONCE, NORMAL, Fill::Nothing, 1500, Phase::After),
    (1000, -500, HALF, NORMAL, Fill::Nothing, 0, Phase::After),
    (
        1000,
        500,
        Some(0),
        NORMAL,
        Fill::Nothing,
        499,
        Phase::Before,
    ),
    (1000, 500, Some(0), NORMAL, Fill::Nothing, 500, Phase::After),
    (0, 500, ENDLESS, NORMAL, Fill::Nothing, 500, Phase::After),
    (
        1000,
        500,
        ENDLESS,
        NORMAL,
        Fill::Nothing,
        4_000_000_000,
        Phase::Active,
    ),
];

#[test]
fn phases(rt: HostRuntime) {
    for (duration, delay, count, direction, fill, t, phase) in PHASES {
        let row = timed(duration, delay, count, direction, fill);
        let a = animation(rt.alloc(), timing(row));
        assert!(rt; phase_at(&a, millis(t)) == phase);
    }
}

#[test]
fn pauses_and_runs_again(rt: HostRuntime) {
    let mut a = animation(
        rt.alloc(),
        timing(timed(1000, 0, ONCE, NORMAL, Fill::Nothing)),
    );
    pause_or_run(&mut a, true, millis(300));
    assert!(rt; progress(&a, millis(900)) == Some((300_000_000, 0)));
    pause_or_run(&mut a, true, millis(500));
    assert!(rt; progress(&a, millis(900)) == Some((300_000_000, 0)));
    pause_or_run(&mut a, false, millis(900));
    assert!(rt; progress(&a, millis(1000)) == Some((400_000_000, 0)));
    pause_or_run(&mut a, false, millis(950));
    assert!(rt; progress(&a, millis(1000)) == Some((400_000_000, 0)));
}

/// A timing, the time of a cancellation, and the elapsed time in microseconds.
const ELAPSED: [(u32, i32, Option<u32>, Direction, Fill, u32, i64); 4] = [
    (1000, 0, ONCE, NORMAL, Fill::Nothing, 200, 200_000),
    (1000, 0, ONCE, REVERSE, Fill::Nothing, 5000, 1_000_000),
    (1000, 800, ONCE, NORMAL, Fill::Nothing, 200, 0),
    (1000, -800, ENDLESS, NORMAL, Fill::Nothing, 3000, 3_800_000),
];

#[test]
fn elapsed_times_of_cancelled_ones(rt: HostRuntime) {
    for (duration, delay, count, direction, fill, t, elapsed) in ELAPSED {
        let row = timed(duration, delay, count, direction, fill);
        let a = animation(rt.alloc(), timing(row));
        assert!(rt; cancel_elapsed(&a, millis(t)).0 == elapsed);
    }
}

/// A timing and its active duration in microseconds.
const LASTING: [(u32, i32, Option<u32>, Direction, Fill, Option<i128>); 5] = [
    (
        1000,
        7,
        Some(2_500_000),
        NORMAL,
        Fill::Nothing,
        Some(2_500_000),
    ),
    (1, 7, Some(1_499), NORMAL, Fill::Nothing, Some(1)),
    (1, 7, Some(1_500), NORMAL, Fill::Nothing, Some(2)),
    (0, 7, ENDLESS, NORMAL, Fill::Nothing, Some(0)),
    (1, 7, ENDLESS, NORMAL, Fill::Nothing, None),
];

#[test]
fn active_durations(rt: HostRuntime) {
    for (duration, delay, count, direction, fill, lasting) in LASTING {
        let row = timed(duration, delay, count, direction, fill);
        assert!(rt; active_duration(timing(row)) == lasting);
    }
}
