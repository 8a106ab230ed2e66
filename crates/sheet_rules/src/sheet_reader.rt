//! The reader of sheets.
ghost use Rattle.std.specs.Prelude.{◌≡◌, ◌≤◌, All, IfOk, length};
ghost use Rattle.css_token.specs.TokenLists.{IsTokenOf};
ghost use Rattle.sheet_rules.specs.Faults.{Gives};
ghost use Rattle.sheet_rules.specs.Rules.{declarations_in, first_of, item_at, prelude_fault, rule_after, rule_at, sheet_at, sheet_of, token_fault};
ghost use Rattle.sheet_types.specs.Sheets.{sheet_rules};

use crate::block::block_at;
use crate::block_kind::BlockKind;
use crate::fault::{BoundName, CssFault};
use crate::judge::bytes_of;
use crate::keyframes::{keyframes_at, wanted};
use crate::scan::{after, after_brace, after_spaces, front, prelude_len};
use css_token::{Kind, Token, TokenFault, tokens};
use selectors_mini::{SelectorFault, read_selectors};
use sheet_types::{Declaration, KeyframesRule, Rule, Sheet};
use std::alloc::Global;
use timing_types::Items;
use token_parts::is_keyword;

/// How many rules a sheet may have, those of keyframes counted.
const MOST: u32 = 4096;

fn prelude_fault(at: u32, fault: SelectorFault) -> CssFault
    ensures { result ≡ prelude_fault at fault }
{
    match fault {
        SelectorFault::Unsupported => CssFault::UnsupportedRule { at },
        SelectorFault::BoundSelectors => CssFault::Bound {
            what: BoundName::Selectors,
            at,
        },
        SelectorFault::BoundCompounds => CssFault::Bound {
            what: BoundName::Compounds,
            at,
        },
        SelectorFault::NoMemory => CssFault::NoMemory,
    }
}

/// Appends the style rule at the front of the tokens, whose first token stands at `at`: the tokens after it.
#[tactic(auto, unfolding(crate::specs::Rules::rule_at))]
fn rule_at<'a>(
    alloc: Global,
    found: &mut Vec<Rule>,
    place: u32,
    text: &str,
    at: u32,
    tokens: &'a [Token],
) -> Result<&'a [Token], CssFault>
    requires short { length text.now ≤ 67108864 }
    requires within { All (IsTokenOf text.now) tokens.now }
    ensures reading { Gives (λ rest. (found.new.items, rest.now)) result
        (rule_after found.old.items (rule_at text.now place at tokens.now)) }
    ensures within { IfOk result (λ rest. All (IsTokenOf text.now) rest.now) }
{
    let end = text.len() as u32;
    let count = wanted(end, prelude_len(tokens))?;
    let selectors = match read_selectors(alloc, text, front(tokens, count)) {
        Ok(selectors) => selectors,
        Err(fault) => return Err(prelude_fault(at, fault)),
    };
    let mut declared = Vec::new(alloc);
    let rest = block_at(
        alloc,
        &mut declared,
        BlockKind::Style,
        text,
        after_brace(tokens, count),
    )?;
    let rule = Rule {
        selectors: Items::from_vec(selectors),
        declarations: Items::from_vec(declared),
        place,
    };
    match found.push(rule) {
        Ok(()) => Ok(rest),
        Err(_) => Err(CssFault::NoMemory),
    }
}

/// Appends the rule that begins with the token: the tokens after it.
#[tactic(auto, unfolding(crate::specs::Rules::item_at))]
fn item_at<'a>(
    alloc: Global,
    rules: &mut Vec<Rule>,
    keyframes: &mut Vec<KeyframesRule>,
    place: u32,
    text: &str,
    first: Token,
    tokens: &'a [Token],
) -> Result<&'a [Token], CssFault>
    requires short { length text.now ≤ 67108864 }
    requires first { IsTokenOf text.now first }
    requires within { All (IsTokenOf text.now) tokens.now }
    ensures reading { Gives (λ rest. (sheet_rules rules.new.items keyframes.new.items, rest.now)) result
        (item_at text.now place (sheet_rules rules.old.items keyframes.old.items) first tokens.now) }
    ensures within { IfOk result (λ rest. All (IsTokenOf text.now) rest.now) }
{
    if !matches!(first.kind, Kind::AtWord) {
        return rule_at(alloc, rules, place, text, first.from, tokens);
    }
    if !is_keyword(bytes_of(text.as_bytes(), &first), b"@keyframes") {
        return Err(CssFault::UnsupportedRule { at: first.from });
    }
    keyframes_at(alloc, keyframes, place, text, first.from, after(tokens, 1))
}

fn first_of(tokens: &[Token]) -> Option<Token>
    ensures { result ≡ first_of tokens.now }
{
    tokens.first().copied()
}

/// Appends the rules of the tokens.
fn sheet_at(
    alloc: Global,
    rules: &mut Vec<Rule>,
    keyframes: &mut Vec<KeyframesRule>,
    text: &str,
    tokens: &[Token],
) -> Result<(), CssFault>
    requires short { length text.now ≤ 67108864 }
    requires within { All (IsTokenOf text.now) tokens.now }
    ensures { Gives (λ _. sheet_rules rules.new.items keyframes.new.items) result
        (sheet_at text.now 0 4096 (sheet_rules rules.old.items keyframes.old.items) tokens.now) }
{
    let mut rest = tokens;
    let mut left = MOST;
    'rules: loop {
        let next = after_spaces(rest);
        let Some(first) = first_of(next) else {
            return Ok(());
        };
        if left == 0 {
            return Err(CssFault::Bound {
                what: BoundName::Rules,
                at: first.from,
            });
        }
        match item_at(alloc, rules, keyframes, MOST - left, text, first, next) {
            Ok(others) => rest = others,
            Err(fault) => return Err(fault),
        }
        left -= 1;
    }
}

/// The rules of a text, or its first fault.
fn rules_of(alloc: Global, text: &str) -> Result<(Vec<Rule>, Vec<KeyframesRule>), CssFault>
    requires { length text.now ≤ 67108864 }
    ensures { Gives (λ sheet. sheet_rules sheet.0.items sheet.1.items) result (sheet_of text.now) }
{
    let tokens = match tokens(alloc, text) {
        Ok(tokens) => tokens,
        Err(fault) => return Err(token_fault(fault)),
    };
    let mut rules = Vec::new(alloc);
    let mut keyframes = Vec::new(alloc);
    sheet_at(alloc, &mut rules, &mut keyframes, text, &tokens)?;
    Ok((rules, keyframes))
}

fn token_fault(fault: TokenFault) -> CssFault
    ensures { result ≡ token_fault fault }
{
    match fault {
        TokenFault::BadToken { at } => CssFault::BadToken { at },
        TokenFault::NoMemory => CssFault::NoMemory,
    }
}

/// The sheet that a text is (CSS Syntax 3, "parse a stylesheet"), or its first fault.
pub fn read_sheet(alloc: Global, text: &str) -> Result<Sheet, CssFault>
    requires { length text.now ≤ 67108864 }
    ensures reading { Gives (λ sheet. sheet) result (sheet_of text.now) }
{
    match rules_of(alloc, text) {
        Ok((rules, keyframes)) => match Sheet::new(alloc, rules, keyframes) {
            Ok(sheet) => Ok(sheet),
            Err(_) => Err(CssFault::NoMemory),
        },
        Err(fault) => Err(fault),
    }
}

/// The declarations of a style attribute (CSS Style Attributes, section 3), or its first fault.
pub fn read_style(alloc: Global, text: &str) -> Result<Vec<Declaration>, CssFault>
    requires { length text.now ≤ 67108864 }
    ensures reading { Gives (λ v. v.items) result (declarations_in text.now) }
{
    let tokens = match tokens(alloc, text) {
        Ok(tokens) => tokens,
        Err(fault) => return Err(token_fault(fault)),
    };
    let mut found = Vec::new(alloc);
    let _rest = block_at(alloc, &mut found, BlockKind::Attribute, text, &tokens)?;
    Ok(found)
}
