//! The animations of an element by its list of names, after CSS Animations Level 1, "The animation-name property", and
//! what they are sampled from.
ghost use Rattle.std.specs.Prelude.{◌≤◌, length};
ghost use Rattle.style_data.specs.Transitions.{IsMoment};

use crate::declarations::style_of;
use animation_names::{Paired, match_names, resolve, sampled};
use computed_style::Sampling;
use fix_num::{Fix, Micros};
use sheet_rules::read_sheet;
use sheet_types::Sheets;
use std::alloc::Global;
use std::test::Fail;
use style_data::{Animation, Gone, NoSampling, Style};
use value_types::{PropertyId, Value};

/// A rule for `a` and one for `b`.
const SHEET: &str = "@keyframes a { to { opacity: 0 } } @keyframes b { to { opacity: 1 } }";

fn sheets(alloc: Global) -> Result<Sheets, Fail> {
    let mut sheets = Sheets::empty();
    sheets.put(1, Some(read_sheet(alloc, SHEET)?));
    Ok(sheets)
}

/// What an event at time `t` makes of animations, where the lists of this text are given.
fn paired(
    alloc: Global,
    old: &[Animation],
    sheets: &Sheets,
    text: &str,
    t: Micros,
) -> Result<Paired, Fail>
    requires text { length text.now ≤ 200 }
    requires time { IsMoment t.0 }
{
    let style = style_of(alloc, text)?;
    let lists = style.animations().ok_or("no animation list")?;
    Ok(match_names(alloc, old, lists, sheets, t, 1, 0)?)
}

fn millis(t: u32) -> Micros
    ensures { IsMoment result.0 }
{
    Micros(i64::from(t) * 1000)
}

/// Whether the animations started at these places, and stand in this order.
fn started_at(animations: &[Animation], places: &[u32]) -> bool {
    animations
        .iter()
        .map(|a| a.get().first_place)
        .eq(places.iter().copied())
}

fn gone_from(gone: &[Gone], places: &[u32]) -> bool {
    gone.iter()
        .map(|item| item.place)
        .eq(places.iter().copied())
}

/// The names at time 0, those at 200 ms, the places at which the animations then started, and those at which the cancelled ones did.
const NAMES: [(&str, &str, &[u32], &[u32]); 5] = [
    ("animation: 1s a, 1s a", "animation: 1s a", &[1], &[0]),
    (
        "animation: 1s a, 1s a, 1s b",
        "animation: 1s b, 1s a",
        &[2, 1],
        &[0],
    ),
    (
        "animation: 1s a",
        "animation: 1s b, 1s a, 1s a",
        &[0, 1, 0],
        &[],
    ),
    (
        "animation: 1s a, 1s b",
        "animation: 1s c, none, 1s b",
        &[1],
        &[0],
    ),
    ("animation: 1s c", "animation: none", &[], &[]),
];

#[test]
fn last_of_a_name_is_kept(rt: HostRuntime) -> Result<(), Fail> {
    let alloc = rt.alloc();
    let sheets = sheets(alloc)?;
    for (before, after, kept, gone) in NAMES {
        assert!(rt; before.len() < 50 && after.len() < 50);
        let old = paired(alloc, &[], &sheets, before, Micros(0))?;
        let new = paired(
            alloc,
            old.animations.as_slice(),
            &sheets,
            after,
            millis(200),
        )?;
        assert!(rt; started_at(new.animations.as_slice(), kept));
        assert!(rt; gone_from(new.gone.as_slice(), gone));
        assert!(rt; new.gone.iter().all(|item| item.elapsed == millis(200)));
    }
    Ok(())
}

#[test]
fn pausing_moves_the_start(rt: HostRuntime) -> Result<(), Fail> {
    let alloc = rt.alloc();
    let sheets = sheets(alloc)?;
    let first = paired(alloc, &[], &sheets, "animation: 1s a", Micros(0))?;
    let paused = paired(
        alloc,
        first.animations.as_slice(),
        &sheets,
        "animation: 1s a paused",
        millis(1250),
    )?;
    let again = paired(
        alloc,
        paused.animations.as_slice(),
        &sheets,
        "animation: 1s a",
        millis(2000),
    )?;
    assert!(rt; paused.animations.len() == 1 && again.animations.len() == 1);
    assert!(rt; paused.animations[0].get().hold == Some(millis(1250)));
    assert!(rt; again.animations[0].get().hold.is_none());
    assert!(rt; again.animations[0].get().start == millis(750));
    Ok(())
}

#[test]
fn samples_of_a_list(rt: HostRuntime) -> Result<(), Fail> {
    let alloc = rt.alloc();
    let sheets = sheets(alloc)?;
    let list = paired(
        alloc,
        &[],
        &sheets,
        "animation: 1s linear a, 1s 2s b",
        Micros(0),
    )?;
    let animations = list.animations.as_slice();
    assert!(rt; animations.len() == 2);
    let frames = resolve(&sheets, &animations[0].get().name)?;
    let frames = frames.ok_or("no frames")?;
    assert!(rt; frames.get().as_slice().len() == 1);
    let samples = sampled(alloc, animations, &sheets, millis(500))?;
    let size = Style::initial(alloc).font_size();
    let one = Value::Number(Fix(1_000_000));
    let half = samples.value(PropertyId::Opacity, size, size, size, one);
    assert!(rt; half == Some(Value::Number(Fix(500_000))));
    Ok(())
}
