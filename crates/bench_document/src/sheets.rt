//! Sheets and style attributes, and the tokens of the same texts.

ghost use Rattle.std.specs.Prelude.{◌≤◌, length};

use css_token::tokens;
use sheet_rules::{read_sheet, read_style};
use std::alloc::Global;

/// A rule of five declarations.
const RULE: &str =
    "div.item > a#n, .menu li { width: 10px; opacity: 0.5; color: rgb(1, 2, 3); transition-duration: 1s, 2s; margin: 1px 2em }\n";

const RULES: usize = 4_096;

/// Style attributes of three and of twenty declarations.
const FEW: &str = "width: 10px; opacity: 0.5; color: #102030";

const MANY: &str =
    "background-color: #102030; bottom: 1px; color: rgb(1, 2, 3); display: block; font-size: 12px; height: 10px; left: 2em; letter-spacing: 1px; margin-top: 1px; margin-left: 2px; opacity: 0.5; padding: 1px 2px; right: 3px; rotate: 45deg; top: 4px; translate: 1px 2px; visibility: hidden; width: 50%; z-index: 3; transition: opacity 1s linear";

/// How many style attributes a round reads.
const STYLES: u32 = 10_000;

/// What a round goes over.
#[derive(Clone, Copy)]
pub enum Text {
    Sheet,
    Few,
    Many,
}

fn sheets(alloc: Global, text: &str) -> u64
    requires { length text.now ≤ 67108864 }
{
    match read_sheet(alloc, text) {
        Ok(sheet) => sheet.rules().len() as u64,
        Err(_) => 0,
    }
}

fn styles(alloc: Global, text: &str) -> u64
    requires { length text.now ≤ 67108864 }
{
    let mut found = 0u64;
    for _ in 0..STYLES {
        if let Ok(declared) = read_style(alloc, text) {
            found = found.wrapping_add(declared.len() as u64);
        }
    }
    found
}

fn token_count(alloc: Global, text: &str, times: u32) -> u64
    requires { length text.now ≤ 67108864 }
{
    let mut found = 0u64;
    for _ in 0..times {
        if let Ok(tokens) = tokens(alloc, text) {
            found = found.wrapping_add(tokens.len() as u64);
        }
    }
    found
}

/// What one round finds: declarations or rules, or tokens alone.
fn one_round(alloc: Global, what: Text, text: &str, alone: bool) -> u64
    requires { length text.now ≤ 67108864 }
{
    match (what, alone) {
        (Text::Sheet, true) => token_count(alloc, text, 1),
        (Text::Sheet, false) => sheets(alloc, text),
        (_, true) => token_count(alloc, text, STYLES),
        (_, false) => styles(alloc, text),
    }
}

/// So many rounds over the text, of tokens alone where it is so; the bytes of a round in the last twelve digits.
pub fn rounds_over(alloc: Global, what: Text, alone: bool, rounds: u64) -> u64 {
    let (piece, times, reads) = match what {
        Text::Sheet => (RULE, RULES, 1),
        Text::Few => (FEW, 1, u64::from(STYLES)),
        Text::Many => (MANY, 1, u64::from(STYLES)),
    };
    let Ok(text) = piece.repeat(alloc, times) else {
        return 0;
    };
    let text = text.as_str();
    if text.len() > 67_108_864 {
        return 0;
    }
    let mut found = 0u64;
    for _ in 0..rounds {
        found = found.wrapping_add(one_round(alloc, what, text, alone));
    }
    found
        .wrapping_mul(1_000_000_000_000)
        .wrapping_add((text.len() as u64).wrapping_mul(reads))
}
