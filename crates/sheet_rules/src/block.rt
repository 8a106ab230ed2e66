//! Blocks of declarations.
ghost use Rattle.std.specs.Prelude.{◌≡◌, ◌≤◌, ◌<◌, ◌++◌, All, IfOk, length, option_copied, option_map};
ghost use Rattle.std.specs.List.{prefix_len};
ghost use Rattle.css_token.specs.TokenLists.{IsTokenOf};
ghost use Rattle.sheet_rules.specs.Blocks.{after_separators, block_at, block_end_of, colon_at, declaration_at, is_separator, part_at, part_of, text_end_of, with_front};
ghost use Rattle.sheet_rules.specs.Faults.{Gives};

use crate::block_kind::BlockKind;
use crate::fault::{BoundName, CssFault};
use crate::judge::{bytes_of, judge};
use crate::scan::{after, after_spaces, front, value_len};
use css_token::{Kind, Token};
use sheet_types::Declaration;
use shorthand_text::name_of;
use std::alloc::Global;

/// How many declarations a block may have.
const MOST: u32 = 64;

/// The tokens after a colon, which has to come first.
fn colon_at(end: u32, tokens: &[Token]) -> Result<&[Token], CssFault>
    ensures { Gives (λ ts. ts.now) result (colon_at end tokens.now) }
{
    match tokens {
        [] => Err(CssFault::BadToken { at: end }),
        [first, rest @ ..] => match first.kind {
            Kind::Colon => Ok(rest),
            _ => Err(CssFault::BadToken { at: first.from }),
        },
    }
}

fn separators_len(tokens: &[Token]) -> usize
    ensures { result ≡ prefix_len is_separator tokens.now }
{
    tokens
        .iter()
        .take_while(|token| matches!(token.kind, Kind::Space | Kind::Semicolon))
        .count()
}

/// The tokens after the spaces and semicolons at their front.
#[tactic(auto, unfolding(crate::specs::Blocks::after_separators))]
fn after_separators(tokens: &[Token]) -> &[Token]
    ensures { result.now ≡ after_separators tokens.now }
{
    after(tokens, separators_len(tokens))
}

/// What stands next: a declaration's name and the tokens after it, or none and the tokens after the block.
fn part_at(
    block: BlockKind,
    end: u32,
    tokens: &[Token],
) -> Result<(Option<Token>, &[Token]), CssFault>
    ensures { Gives (λ part. (part.0, part.1.now)) result (part_at block end tokens.now) }
{
    match tokens {
        [] => match block {
            BlockKind::Attribute => Ok((None, &[])),
            BlockKind::Style | BlockKind::Keyframe => Err(CssFault::BadToken { at: end }),
        },
        [first, rest @ ..] => part_of(block, *first, rest),
    }
}

fn part_of(
    block: BlockKind,
    first: Token,
    rest: &[Token],
) -> Result<(Option<Token>, &[Token]), CssFault>
    ensures { Gives (λ part. (part.0, part.1.now)) result (part_of block first.kind first rest.now) }
{
    match first.kind {
        Kind::Ident => Ok((Some(first), rest)),
        Kind::CurlyClose => match block {
            BlockKind::Attribute => Err(CssFault::BadToken { at: first.from }),
            BlockKind::Style | BlockKind::Keyframe => Ok((None, rest)),
        },
        _ => Err(CssFault::BadToken { at: first.from }),
    }
}

/// Appends what the declaration of this name gives the block: the tokens from the end of its value on.
#[tactic(auto, unfolding(crate::specs::Blocks::declaration_at))]
fn declaration_at<'a>(
    alloc: Global,
    found: &mut Vec<Declaration>,
    block: BlockKind,
    text: &str,
    place: u32,
    name: Token,
    tokens: &'a [Token],
) -> Result<&'a [Token], CssFault>
    requires short { length text.now ≤ 67108864 }
    requires name { IsTokenOf text.now name }
    requires within { All (IsTokenOf text.now) tokens.now }
    ensures reading { Gives (λ rest. (found.new.items, rest.now)) result
        (with_front found.old.items (declaration_at block text.now place name tokens.now)) }
    ensures within { IfOk result (λ rest. All (IsTokenOf text.now) rest.now) }
{
    let end = text.len() as u32;
    let value = colon_at(end, after_spaces(tokens))?;
    let count = value_len(alloc, end, value)?;
    judge(
        alloc,
        found,
        block,
        place,
        name.from,
        text,
        front(value, count),
        name_of(bytes_of(text.as_bytes(), &name)),
    )?;
    Ok(after(value, count))
}

/// Appends what the tokens up to the end of the block declare: the tokens after the block.
pub(crate) fn block_at<'a>(
    alloc: Global,
    found: &mut Vec<Declaration>,
    block: BlockKind,
    text: &str,
    tokens: &'a [Token],
) -> Result<&'a [Token], CssFault>
    requires short { length text.now ≤ 67108864 }
    requires within { All (IsTokenOf text.now) tokens.now }
    ensures reading { Gives (λ rest. (found.new.items, rest.now)) result
        (with_front found.old.items (block_at block text.now 0 64 tokens.now)) }
    ensures within { IfOk result (λ rest. All (IsTokenOf text.now) rest.now) }
{
    let end = text.len() as u32;
    let mut rest = tokens;
    let mut left = MOST;
    'declarations: loop {
        let (name, after) = match part_at(block, end, after_separators(rest)) {
            Ok(part) => part,
            Err(fault) => return Err(fault),
        };
        let Some(name) = name else {
            return Ok(after);
        };
        if left == 0 {
            return Err(CssFault::Bound {
                what: BoundName::Declarations,
                at: name.from,
            });
        }
        match declaration_at(alloc, found, block, text, MOST - left, name, after) {
            Ok(others) => rest = others,
            Err(fault) => return Err(fault),
        }
        left -= 1;
    }
}
