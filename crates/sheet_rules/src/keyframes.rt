//! Keyframes rules as they are written.
ghost use Rattle.std.specs.Prelude.{◌≡◌, ◌≤◌, [], ◌∷◌, ◌++◌, All, IfOk, OnOk, length, option_map};
ghost use Rattle.css_token.specs.TokenLists.{IsTokenOf};
ghost use Rattle.token_parts.specs.Parts.{token_parts_of};
ghost use Rattle.value_types.specs.Keyframes.{IsFrames};
ghost use Rattle.sheet_rules.specs.Faults.{Gives};
ghost use Rattle.sheet_rules.specs.Frames.{IsOffset};
ghost use Rattle.sheet_rules.specs.Keyframes.{after_close, frame_at, frames_at, keyframes_after, keyframes_at, keyframes_rule, lone_word, named, offsets_in, supported, wanted};
ghost use Rattle.sheet_rules.specs.Declarations.{solid};

use crate::block::block_at;
use crate::block_kind::BlockKind;
use crate::fault::{BoundName, CssFault};
use crate::frames::{easing_of, put_blocks};
use crate::judge::{bytes_of, solid};
use crate::offsets::offsets_of;
use crate::scan::{after_brace, after_spaces, front, place_of, prelude_len};
use css_token::{Kind, Token};
use fix_num::Bill;
use sheet_types::KeyframesRule;
use std::alloc::{AllocError, Global};
use timing_types::Name;
use token_parts::parts;
use value_types::{Frame, Frames, Shared};

/// How many offsets the frames of a rule may have.
const MOST: u32 = 64;

/// The tokens after a `}` at the front; `None` where none stands there.
fn after_close(tokens: &[Token]) -> Option<&[Token]>
    ensures { option_map (λ ts. ts.now) result ≡ after_close tokens.now }
{
    match tokens {
        [first, rest @ ..] if matches!(first.kind, Kind::CurlyClose) => Some(rest),
        _ => None,
    }
}

/// How many tokens stand before the next `{`, which is wanted.
pub(crate) fn wanted(end: u32, count: Option<usize>) -> Result<usize, CssFault>
    ensures { result ≡ wanted end count }
{
    match count {
        Some(count) => Ok(count),
        None => Err(CssFault::BadToken { at: end }),
    }
}

/// The offsets that the tokens spell, no more than so many; they are told at the place.
fn offsets_in(
    alloc: Global,
    left: u32,
    at: u32,
    text: &str,
    tokens: &[Token],
) -> Result<Vec<Bill>, CssFault>
    requires { All (IsTokenOf text.now) tokens.now }
    ensures value { Gives (λ v. v.items) result (offsets_in left at (token_parts_of text.now tokens.now)) }
    ensures range { IfOk result (λ v. All IsOffset v.items) }
    ensures few { IfOk result (λ v. length v.items ≤ left) }
{
    let Ok(parts) = parts(alloc, text.as_bytes(), tokens) else {
        return Err(CssFault::NoMemory);
    };
    let Ok(found) = offsets_of(alloc, parts.as_slice()) else {
        return Err(CssFault::NoMemory);
    };
    let Some(offsets) = found else {
        return Err(CssFault::UnsupportedRule { at });
    };
    if offsets.len() > left as usize {
        return Err(CssFault::Bound {
            what: BoundName::Offsets,
            at,
        });
    }
    Ok(offsets)
}

/// Puts the block at the front of the tokens among the frames, whose offsets stand first: how many offsets may
/// follow, and the tokens after the block.
#[tactic(auto, unfolding(crate::specs::Keyframes::frame_at))]
fn frame_at<'a>(
    alloc: Global,
    frames: &mut Vec<Frame>,
    left: u32,
    text: &str,
    tokens: &'a [Token],
) -> Result<(u32, &'a [Token]), CssFault>
    requires short { length text.now ≤ 67108864 }
    requires within { All (IsTokenOf text.now) tokens.now }
    requires frames { IsFrames frames.old.items }
    ensures reading { Gives (λ next. (frames.new.items, next.0, next.1.now)) result
        (frame_at text.now left frames.old.items tokens.now) }
    ensures within { IfOk result (λ next. All (IsTokenOf text.now) next.1.now) }
    ensures frames { OnOk result (IsFrames frames.new.items) }
{
    let end = text.len() as u32;
    let count = wanted(end, prelude_len(tokens))?;
    let place = place_of(end, tokens);
    let offsets = offsets_in(alloc, left, place, text, front(tokens, count))?;
    let mut declared = Vec::new(alloc);
    let rest = block_at(
        alloc,
        &mut declared,
        BlockKind::Keyframe,
        text,
        after_brace(tokens, count),
    )?;
    let Ok(()) = put_blocks(frames, &offsets, easing_of(&declared), &declared) else {
        return Err(CssFault::NoMemory);
    };
    Ok((left - offsets.len() as u32, rest))
}

/// Puts the frames of a rule up to its `}` among the frames: the tokens after it.
fn frames_at<'a>(
    alloc: Global,
    frames: &mut Vec<Frame>,
    text: &str,
    tokens: &'a [Token],
) -> Result<&'a [Token], CssFault>
    requires short { length text.now ≤ 67108864 }
    requires within { All (IsTokenOf text.now) tokens.now }
    requires frames { IsFrames frames.old.items }
    ensures reading { Gives (λ rest. (frames.new.items, rest.now)) result
        (frames_at text.now 65 64 frames.old.items tokens.now) }
    ensures within { IfOk result (λ rest. All (IsTokenOf text.now) rest.now) }
    ensures frames { OnOk result (IsFrames frames.new.items) }
{
    let mut rest = tokens;
    let mut left = MOST;
    for done in 0..65u32 {
        let next = after_spaces(rest);
        if let Some(others) = after_close(next) {
            return Ok(others);
        }
        match frame_at(alloc, frames, left, text, next) {
            Ok(found) => {
                left = found.0;
                rest = found.1;
            }
            Err(fault) => return Err(fault),
        }
    }
    Err(CssFault::BadToken {
        at: text.len() as u32,
    })
}

/// What follows the at-word of a keyframes rule, which stands at the place: its name, its frames, and the tokens
/// after it.
#[tactic(auto, unfolding(crate::specs::Keyframes::keyframes_at))]
pub(crate) fn keyframes_at<'a>(
    alloc: Global,
    found: &mut Vec<KeyframesRule>,
    place: u32,
    text: &str,
    at: u32,
    tokens: &'a [Token],
) -> Result<&'a [Token], CssFault>
    requires short { length text.now ≤ 67108864 }
    requires within { All (IsTokenOf text.now) tokens.now }
    ensures reading { Gives (λ rest. (found.new.items, rest.now)) result
        (keyframes_after found.old.items place (keyframes_at text.now at tokens.now)) }
    ensures within { IfOk result (λ rest. All (IsTokenOf text.now) rest.now) }
{
    let end = text.len() as u32;
    let count = wanted(end, prelude_len(tokens))?;
    let name = name_in(alloc, at, text, front(tokens, count))?;
    let mut frames = Vec::new(alloc);
    let rest = frames_at(alloc, &mut frames, text, after_brace(tokens, count))?;
    match push_rule(alloc, found, name, frames, place) {
        Ok(()) => Ok(rest),
        Err(_) => Err(CssFault::NoMemory),
    }
}

/// Puts a keyframes rule after the others.
fn push_rule(
    alloc: Global,
    found: &mut Vec<KeyframesRule>,
    name: Name,
    frames: Vec<Frame>,
    place: u32,
) -> Result<(), AllocError>
    requires { IsFrames frames.items }
    ensures { OnOk result (found.new.items ≡ found.old.items ++ keyframes_rule name frames.items place ∷ []) }
{
    let frames = Shared::new(alloc, Frames::from_vec(frames))?;
    found.push(KeyframesRule {
        name,
        frames,
        place,
    })?;
    Ok(())
}

/// The name of a keyframes rule, which is one word; it is told at the place.
fn name_in(alloc: Global, at: u32, text: &str, tokens: &[Token]) -> Result<Name, CssFault>
    requires { All (IsTokenOf text.now) tokens.now }
    ensures { Gives (λ name. name) result (named text.now (supported at (lone_word (solid tokens.now)))) }
{
    let Ok(solid) = solid(alloc, tokens) else {
        return Err(CssFault::NoMemory);
    };
    let Some(word) = lone_word(solid.as_slice()) else {
        return Err(CssFault::UnsupportedRule { at });
    };
    match Name::from_bytes(alloc, bytes_of(text.as_bytes(), &word)) {
        Ok(name) => Ok(name),
        Err(_) => Err(CssFault::NoMemory),
    }
}

fn lone_word(tokens: &[Token]) -> Option<Token>
    ensures { result ≡ lone_word tokens.now }
{
    match tokens {
        [first] => word(first),
        _ => None,
    }
}

fn word(token: &Token) -> Option<Token>
    ensures { result ≡ lone_word (token.now ∷ []) }
{
    if matches!(token.kind, Kind::Ident) {
        Some(*token)
    } else {
        None
    }
}
