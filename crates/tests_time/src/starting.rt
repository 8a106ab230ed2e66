//! Starting of transitions.
ghost use Rattle.std.specs.Prelude.{IfSome};
ghost use Rattle.value_types.specs.Validity.{IsValid};
ghost use Rattle.value_types.specs.declared.property.PropertyId.{PropertyId};

use crate::fading::{fade, number};
use fix_num::Micros;
use std::test::Fail;
use style_data::{Completed, Decision, Phase, Running};
use timing_types::Easing;
use transition_list::{Match, MatchedItem};
use transition_start::{decide, elapsed_at, phase_at, value_at};
use value_types::{PropertyId, Value};

const HALF: Micros = Micros(500_000);

/// The opacity, where it is one.
fn opacity(millionths: i64) -> Option<Value>
    ensures { IfSome result (IsValid PropertyId.Opacity) }
{
    if millionths < 0 || millionths > 1_000_000 {
        return None;
    }
    Some(number(millionths))
}

/// A linear match of these milliseconds.
fn lasting(duration: u16, delay: i16) -> Option<Match> {
    Some(Match::new(MatchedItem {
        duration: Micros(i64::from(duration) * 1000),
        delay: Micros(i64::from(delay) * 1000),
        easing: Easing::Linear,
    }))
}

/// What half a second after its start becomes of the fading.
fn interrupted(after: i64, matched: Option<Match>) -> Option<Decision> {
    let before = opacity(500_000)?;
    let after = opacity(after)?;
    Some(decide(
        PropertyId::Opacity,
        Some(&fade(Phase::Active)),
        None,
        before,
        after,
        matched,
        HALF,
        2,
        3,
    ))
}

/// The reversing-adjusted start value in millionths, the start and the end in milliseconds, and the factor in
/// millionths.
fn timing_of(running: Option<Running>) -> Option<(i64, i64, i64, i64)> {
    let r = running?.get();
    let Value::Number(adjusted) = r.adjusted else {
        return None;
    };
    Some((
        adjusted.0,
        r.start.0 / 1000,
        r.end.0 / 1000,
        r.factor.0 / 1000,
    ))
}

#[test]
fn interrupts(rt: HostRuntime) -> Result<(), Fail> {
    // The after-change value and the match, and what then runs.
    for (after, matched, wanted) in [
        (500_000, lasting(1000, 0), None),
        (250_000, lasting(0, 0), None),
        (0, lasting(1000, 0), Some((1_000_000, 500, 1000, 500_000))),
        (0, lasting(1000, -400), Some((1_000_000, 300, 800, 500_000))),
        (
            250_000,
            lasting(1000, 0),
            Some((500_000, 500, 1500, 1_000_000)),
        ),
        (1_000_000, None, None),
    ] {
        let decision = interrupted(after, matched).ok_or("an opacity is out of range")?;
        assert!(rt; timing_of(decision.running) == wanted);
        let gone = decision.gone.ok_or("nothing was cancelled")?;
        assert!(rt; gone.elapsed == HALF && gone.cancelled == HALF && gone.generation == 1);
    }
    Ok(())
}

#[test]
fn keeps_what_arrives(rt: HostRuntime) -> Result<(), Fail> {
    let kept = interrupted(1_000_000, lasting(0, 0)).ok_or("an opacity is out of range")?;
    assert!(rt; timing_of(kept.running) == timing_of(Some(fade(Phase::Active))));
    assert!(rt; kept.gone.is_none());
    Ok(())
}

/// What becomes of a change from 0 to 1, where the last transition ended at this opacity.
fn after_completion(completed: Option<i64>, matched: Option<Match>) -> Option<Decision> {
    let (before, after) = (opacity(0)?, opacity(1_000_000)?);
    let completed = match completed {
        None => None,
        Some(to) => Some(Completed { to: opacity(to)? }),
    };
    Some(decide(
        PropertyId::Opacity,
        None,
        completed.as_ref(),
        before,
        after,
        matched,
        Micros(1_000_000),
        2,
        0,
    ))
}

#[test]
fn starts_and_forgets(rt: HostRuntime) -> Result<(), Fail> {
    // Where the last one ended and the match; the start and the end of what runs, in milliseconds, and whether a
    // completed one is left.
    for (completed, matched, wanted, left) in [
        (None, lasting(1000, -400), Some((600, 1600)), false),
        (Some(1_000_000), lasting(1000, 0), None, true),
        (Some(0), lasting(1000, -1000), None, false),
        (Some(1_000_000), None, None, false),
    ] {
        let decision = after_completion(completed, matched).ok_or("an opacity is out of range")?;
        let times = timing_of(decision.running).map(|t| (t.1, t.2));
        assert!(rt; times == wanted);
        assert!(rt; decision.completed.is_some() == left);
    }
    Ok(())
}

#[test]
fn samples_at_any_time(rt: HostRuntime) {
    for (time, value, phase) in [
        (i64::MIN, 0, Phase::Before),
        (0, 0, Phase::Active),
        (333_333, 333_333, Phase::Active),
        (1_000_000, 1_000_000, Phase::After),
        (i64::MAX, 1_000_000, Phase::After),
    ] {
        let fade = fade(Phase::Idle);
        assert!(rt; value_at(PropertyId::Opacity, &fade, Micros(time)) == number(value));
        assert!(rt; phase_at(&fade, Micros(time)) == phase);
    }
    assert!(rt; elapsed_at(&fade(Phase::Idle), Micros(5_000_000)) == Micros(1_000_000));
}
