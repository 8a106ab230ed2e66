//! What is timed.

use crate::document::{ELEMENTS, class, draw, give_classes, grown};
use css_token::tokens;
use doc_tree::Tree;
use selectors_mini::{Selector, matches, read_selectors};
use std::alloc::Global;

/// Documents made so many times.
pub fn adds(alloc: Global, rounds: u64) -> u64 {
    let mut state = 7;
    let mut found = 0u64;
    for _ in 0..rounds {
        if let Ok(tree) = grown(alloc, &mut state) {
            found = found.wrapping_add(tree.len() as u64);
        }
    }
    found
}

/// So many rounds of 30,000 removals and 30,000 insertions, each round on a document of its own.
pub fn edits(alloc: Global, rounds: u64) -> u64 {
    let mut state = 7;
    let mut found = 0u64;
    for _ in 0..rounds {
        if let Ok(mut tree) = grown(alloc, &mut state) {
            found = found.wrapping_add(edited(&mut tree, &mut state));
        }
    }
    found
}

/// Removes leaves and inserts before random elements, in turn; those that are refused cost a look-up.
fn edited(tree: &mut Tree, state: &mut u64) -> u64 {
    for n in 0..30_000u32 {
        let _ = tree.remove(ELEMENTS - n);
        let _ = tree.insert(ELEMENTS + 1 + n, draw(state, 30_000) + 1, "p");
    }
    tree.len() as u64
}

/// So many walks of one document in tree order.
pub fn walks(alloc: Global, rounds: u64) -> u64 {
    let mut state = 7;
    let mut found = 0u64;
    if let Ok(mut tree) = grown(alloc, &mut state) {
        tree.renumber();
        for _ in 0..rounds {
            found = found.wrapping_add(walked(&tree));
        }
    }
    found
}

fn walked(tree: &Tree) -> u64 {
    let mut sum = 0u64;
    for place in 0..tree.len() {
        if let Some(element) = tree.at(place) {
            sum = sum.wrapping_add(element.number() as u64);
        }
    }
    sum
}

/// So many rounds of 100 selectors tried on each element of one document.
pub fn matching(alloc: Global, rounds: u64) -> u64 {
    let mut state = 7;
    let mut found = 0u64;
    if let Ok(mut tree) = grown(alloc, &mut state) {
        if give_classes(&mut tree, &mut state).is_ok() {
            for _ in 0..rounds {
                found = found.wrapping_add(matched(alloc, &tree, &mut state));
            }
        }
    }
    found
}

fn matched(alloc: Global, tree: &Tree, state: &mut u64) -> u64 {
    let mut found = 0u64;
    for _ in 0..100u32 {
        let (a, b, c) = (draw(state, 26), draw(state, 26), draw(state, 26));
        let Ok(text) = format!(in alloc; ".{} .{} > .{}", class(a), class(b), class(c)) else {
            return found;
        };
        found = found.wrapping_add(matched_by_text(alloc, tree, text.as_str()));
    }
    found
}

fn matched_by_text(alloc: Global, tree: &Tree, text: &str) -> u64 {
    if text.len() > 64 {
        return 0;
    }
    let Ok(list) = tokens(alloc, text) else {
        return 0;
    };
    let Ok(selectors) = read_selectors(alloc, text, &list) else {
        return 0;
    };
    let mut found = 0u64;
    for selector in &selectors {
        found = found.wrapping_add(matched_by(selector, tree));
    }
    found
}

fn matched_by(selector: &Selector, tree: &Tree) -> u64 {
    let mut found = 0u64;
    for n in 0..ELEMENTS {
        if tree.contains(n + 1) && matches(selector, tree, n + 1) {
            found = found.wrapping_add(1);
        }
    }
    found
}
