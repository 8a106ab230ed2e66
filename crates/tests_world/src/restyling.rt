//! Style change events of a small document.
ghost use Rattle.std.specs.Prelude.{◌≤◌, length};
ghost use Rattle.style_data.specs.Transitions.{IsMoment};

use doc_tree::Tree;
use fix_num::{Fix, Micros};
use restyle::{Frame, restyle, restyle_alone};
use sheet_rules::read_sheet;
use sheet_types::Sheets;
use std::alloc::{AllocError, Global};
use std::test::Fail;
use value_types::{PropertyId, Value};

/// A root and four elements, each below the last.
fn chain(alloc: Global) -> Result<Tree, AllocError> {
    let Ok(mut tree) = Tree::new(alloc) else {
        return Err(AllocError);
    };
    for (n, parent) in [
        (1, None),
        (2, Some(1)),
        (3, Some(2)),
        (4, Some(3)),
        (5, Some(4)),
    ] {
        let Ok(()) = tree.add(n, parent, if n == 1 { "html" } else { "p" }) else {
            return Err(AllocError);
        };
    }
    Ok(tree)
}

/// The sheet of this text, at the first place.
fn sheets(alloc: Global, text: &str) -> Result<Sheets, AllocError>
    requires { length text.now ≤ 67108864 }
{
    let Ok(sheet) = read_sheet(alloc, text) else {
        return Err(AllocError);
    };
    let mut sheets = Sheets::empty();
    sheets.put(1, Some(sheet));
    Ok(sheets)
}

/// The frame at a later time.
fn at(frame: Frame, time: Micros) -> Frame
    requires { IsMoment time.0 }
{
    let mut content = frame.into_content();
    content.time = time;
    content.generation = content.generation.saturating_add(1);
    Frame::new(content)
}

/// The frame with other sheets.
fn with_sheets(frame: Frame, sheets: Sheets) -> Frame {
    let mut content = frame.into_content();
    content.sheets = sheets;
    Frame::new(content)
}

/// Whether the font sizes of the elements are so, in tree order, in pixels.
fn has_font_sizes(frame: Frame, sizes: [i64; 5]) -> bool {
    let content = frame.into_content();
    content.entries.len() == 5
        && content.entries.iter().zip(sizes.iter()).all(|(entry, size)| {
            entry.1.now().value(PropertyId::FontSize)
                == Value::Length {
                    px: Fix(*size),
                    pct: Fix(0),
                }
        })
}

/// The font sizes of an element's ancestors move with its own.
#[test]
fn font_sizes_move_together(rt: HostRuntime) -> Result<(), Fail> {
    let small = sheets(
        rt.alloc(),
        "p { font-size: 50%; transition: font-size 1s linear } html { font-size: 32px; transition: font-size 1s linear }",
    )?;
    let large = sheets(
        rt.alloc(),
        "p { font-size: 50%; transition: font-size 1s linear } html { font-size: 64px; transition: font-size 1s linear }",
    )?;
    let frame = Frame::first(rt.alloc(), chain(rt.alloc())?, small, Micros(0), 1)?;
    let frame = restyle_alone(rt.alloc(), frame)?.frame;
    let frame = restyle_alone(rt.alloc(), at(with_sheets(frame, large), Micros(0)))?.frame;
    let restyled = restyle(&rt, rt.alloc(), at(frame, Micros(500_000)), 4)?;
    assert!(rt; restyled.updated == 5);
    assert!(rt;
        has_font_sizes(
            restyled.frame,
            [48_000_000, 24_000_000, 12_000_000, 6_000_000, 3_000_000]
        )
    );
    Ok(())
}
