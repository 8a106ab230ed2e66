//! What is timed.
ghost use Rattle.std.specs.Prelude.{◌≤◌, length};
ghost use Rattle.style_data.specs.Transitions.{IsMoment};

use doc_tree::Tree;
use fix_num::Micros;
use restyle::{Frame, restyle_alone};
use sheet_rules::read_sheet;
use sheet_types::Sheets;
use std::alloc::{AllocError, Global};

/// Which events are timed.
#[derive(Clone, Copy)]
pub enum Work {
    First,
    Still,
    Running,
    Starts,
    Animated,
}

/// How many elements a document has.
const ELEMENTS: u32 = 4_096;

const PLAIN: &str = "p { opacity: 1; width: 10px; transition: opacity 1s linear, width 1s linear }";

const CHANGED: &str =
    "p { opacity: 0; width: 90px; transition: opacity 1s linear, width 1s linear }";

pub const ANIMATED: &str =
    "p { animation: fade 10s linear infinite } @keyframes fade { 0% { opacity: 0 } 14% { opacity: 1 } 28% { opacity: 0 } 42% { opacity: 1 } 57% { opacity: 0 } 71% { opacity: 1 } 85% { opacity: 0 } 100% { opacity: 1 } }";

/// So many rounds of the work; a number that stands on all that was done.
pub fn rounds_of(alloc: Global, work: Work, rounds: u64) -> u64 {
    match work {
        Work::First => first(alloc, rounds).unwrap_or(0),
        Work::Still => events(alloc, PLAIN, PLAIN, rounds).unwrap_or(0),
        Work::Running => running(alloc, rounds).unwrap_or(0),
        Work::Starts => events(alloc, PLAIN, CHANGED, rounds).unwrap_or(0),
        Work::Animated => events(alloc, ANIMATED, ANIMATED, rounds).unwrap_or(0),
    }
}

/// A root and its children.
pub fn document(alloc: Global) -> Result<Tree, AllocError> {
    let Ok(mut tree) = Tree::new(alloc) else {
        return Err(AllocError);
    };
    let Ok(()) = tree.add(1, None, "div") else {
        return Err(AllocError);
    };
    for n in 2..=ELEMENTS {
        let Ok(()) = tree.add(n, Some(1), "p") else {
            return Err(AllocError);
        };
    }
    Ok(tree)
}

/// The sheet of this text, at the first place.
pub fn sheets(alloc: Global, text: &str) -> Result<Sheets, AllocError>
    requires { length text.now ≤ 67108864 }
{
    let Ok(sheet) = read_sheet(alloc, text) else {
        return Err(AllocError);
    };
    let mut sheets = Sheets::empty();
    sheets.put(1, Some(sheet));
    Ok(sheets)
}

/// A new document, styled so many times.
fn first(alloc: Global, rounds: u64) -> Result<u64, AllocError> {
    let mut updated = 0u64;
    for _ in 0..rounds {
        let frame = Frame::first(alloc, document(alloc)?, sheets(alloc, PLAIN)?, Micros(0), 1)?;
        updated = updated.wrapping_add(u64::from(restyle_alone(alloc, frame)?.updated));
    }
    Ok(updated)
}

/// The frame at this time, with these sheets.
fn next(frame: Frame, sheets: Sheets, time: Micros) -> Frame
    requires { IsMoment time.0 }
{
    let mut content = frame.into_content();
    content.time = time;
    content.sheets = sheets;
    content.generation = content.generation.saturating_add(1);
    Frame::new(content)
}

/// Events under one sheet and the other in turn, each a millisecond after the last.
fn events(alloc: Global, one: &str, other: &str, rounds: u64) -> Result<u64, AllocError>
    requires one { length one.now ≤ 67108864 }
    requires other { length other.now ≤ 67108864 }
{
    let one = sheets(alloc, one)?;
    let other = sheets(alloc, other)?;
    let mut frame = Frame::first(alloc, document(alloc)?, one.copy()?, Micros(0), 1)?;
    let mut updated = 0u64;
    for round in 0..rounds {
        let sheets = if round % 2 == 0 {
            other.copy()?
        } else {
            one.copy()?
        };
        let restyled = restyle_alone(alloc, frame)?;
        updated = updated.wrapping_add(u64::from(restyled.updated));
        frame = next(restyled.frame, sheets, moment(round));
    }
    Ok(updated)
}

/// Events while two transitions of each element run.
fn running(alloc: Global, rounds: u64) -> Result<u64, AllocError> {
    let changed = sheets(alloc, CHANGED)?;
    let first = Frame::first(alloc, document(alloc)?, sheets(alloc, PLAIN)?, Micros(0), 1)?;
    let first = restyle_alone(alloc, first)?.frame;
    let mut frame = next(first, changed.copy()?, Micros(0));
    let mut updated = 0u64;
    for round in 0..rounds {
        let restyled = restyle_alone(alloc, frame)?;
        updated = updated.wrapping_add(u64::from(restyled.updated));
        frame = next(restyled.frame, changed.copy()?, moment(round % 900));
    }
    Ok(updated)
}

/// So many milliseconds and one, at most a million.
pub fn moment(round: u64) -> Micros
    ensures { IsMoment result.0 }
{
    Micros((round % 1_000_000) as i64 * 1000 + 1000)
}
