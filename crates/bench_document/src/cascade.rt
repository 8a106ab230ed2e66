//! Winners of a sheet of many rules.
ghost use Rattle.std.specs.Prelude.{◌<◌};

use crate::document::draw;
use cascade_sort::declared;
use doc_tree::{Tree, TreeFault};
use sheet_rules::read_sheet;
use sheet_types::{Sheet, Sheets};
use std::alloc::{AllocError, Global};
use value_types::PropertyId;

/// How many rules the sheet has, each of one class.
const RULES: u32 = 4_096;

/// How many elements are asked, each of two of these classes.
const ASKED: u32 = 4_096;

/// So many rounds of asking for the winners of each element.
pub fn winners(alloc: Global, rounds: u64) -> u64 {
    let mut state = 7;
    let mut found = 0u64;
    let Some(sheet) = sheet(alloc) else {
        return found;
    };
    let mut sheets = Sheets::empty();
    sheets.put(1, Some(sheet));
    if let Ok(tree) = page(alloc, &mut state) {
        for _ in 0..rounds {
            found = found.wrapping_add(asked(alloc, &sheets, &tree));
        }
    }
    found
}

/// A rule for each class, which gives its `z-index`.
fn sheet(alloc: Global) -> Option<Sheet> {
    let mut text = String::new(alloc);
    for n in 0..RULES {
        let rule = format!(in alloc; ".c{n} {{ z-index: {n} }}\n").ok()?;
        text.push_str(rule.as_str()).ok()?;
    }
    if text.len() > 1_000_000 {
        return None;
    }
    read_sheet(alloc, text.as_str()).ok()
}

fn page(alloc: Global, state: &mut u64) -> Result<Tree, TreeFault> {
    let Ok(mut tree) = Tree::new(alloc) else {
        return Err(TreeFault::NoMemory);
    };
    tree.add(1, None, "div")?;
    for n in 1..ASKED {
        tree.add(n + 1, Some(1), "p")?;
        give_classes(
            alloc,
            &mut tree,
            n + 1,
            draw(state, RULES),
            draw(state, RULES),
        )?;
    }
    Ok(tree)
}

fn give_classes(alloc: Global, tree: &mut Tree, n: u32, a: u32, b: u32) -> Result<(), TreeFault> {
    let Ok(first) = format!(in alloc; "c{a}") else {
        return Err(TreeFault::NoMemory);
    };
    let Ok(second) = format!(in alloc; "c{b}") else {
        return Err(TreeFault::NoMemory);
    };
    tree.set_class(n, &[first.as_str(), second.as_str()])
}

fn asked(alloc: Global, sheets: &Sheets, tree: &Tree) -> u64 {
    let mut found = 0u64;
    for n in 0..ASKED {
        if let Ok(true) = has_winner(alloc, sheets, tree, n + 1) {
            found = found.wrapping_add(1);
        }
    }
    found
}

fn has_winner(alloc: Global, sheets: &Sheets, tree: &Tree, n: u32) -> Result<bool, AllocError> {
    if !tree.contains(n) {
        return Ok(false);
    }
    let winners = declared(alloc, sheets, tree, n)?;
    Ok(winners.winners(PropertyId::ZIndex).normal.is_some())
}
