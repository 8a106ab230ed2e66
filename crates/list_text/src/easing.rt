//! Easing functions.
ghost use Rattle.std.specs.Prelude.{◌≡◌, map, pos, option_map, All};
ghost use Rattle.css_token.specs.TokenLists.{LiesWithin};
ghost use Rattle.token_parts.specs.Keywords.{look_up};
ghost use Rattle.token_parts.specs.Parts.{token_parts_of, token_part};
ghost use Rattle.timing_types.specs.Timing.{fewest_steps};
ghost use Rattle.list_text.specs.Easings.{IsEasingAnswer, easing_words, jump_words};
ghost use Rattle.list_text.specs.ItemReading.{Gives, easing_read};
ghost use Rattle.list_text.specs.Numbers.{clamped_nearest};
ghost use Rattle.list_text.specs.Reading.{abscissa, curve_of, easing_of, easing_within, function_of, is_close, jump_of, last_word, number_at, point_at, step_count, steps_of};

use crate::number::{clamped, natural};
use css_token::Token;
use fix_num::has_no_point;
use std::alloc::Global;
use timing_types::limits::{MAX_ORDINATE, MAX_STEPS};
use timing_types::{Easing, Jump};
use token_parts::{Part, ValueFault, after_comma, is_keyword, look_up, parts};

const MOST_STEPS: i64 = MAX_STEPS as i64;

const HIGHEST: i64 = MAX_ORDINATE as i64;

/// The easing that the tokens of the text spell (CSS Easing 1, "Easing functions"). `Unsupported`: none. `Bound`: a
/// number of steps above 1,000,000 or an ordinate outside -10 to 10.
pub fn read_easing(alloc: Global, text: &str, tokens: &[Token]) -> Result<Easing, ValueFault>
    requires { All (LiesWithin text.now) tokens.now }
    ensures answer { IsEasingAnswer (token_parts_of text.now tokens.now) result }
    ensures reading { Gives (λ e. e) result (easing_read (token_parts_of text.now tokens.now)) }
{
    let Ok(parts) = parts(alloc, text.as_bytes(), tokens) else {
        return Err(ValueFault::NoMemory);
    };
    let Some(easing) = easing_of(parts.as_slice()) else {
        return Err(ValueFault::Unsupported);
    };
    if is_within(&easing) {
        Ok(easing)
    } else {
        Err(ValueFault::Bound)
    }
}

/// Whether an easing's ordinates and its steps are within their limits.
pub(crate) fn is_within(easing: &Easing) -> bool
    ensures { result ≡ easing_within easing.now }
{
    match *easing {
        Easing::Linear => true,
        Easing::Cubic { y1, y2, .. } => {
            y1.unsigned_abs() <= MAX_ORDINATE && y2.unsigned_abs() <= MAX_ORDINATE
        }
        Easing::Steps { count, .. } => count <= MAX_STEPS,
    }
}

/// The easing that the parts spell, with its numbers clamped.
pub(crate) fn easing_of(parts: &[Part]) -> Option<Easing>
    ensures { result ≡ easing_of clamped_nearest (map token_part parts.now) }
{
    match parts {
        [Part::Ident(word)] => easing_word(word),
        [Part::Function(name), rest @ ..] => function_of(name, rest),
        _ => None,
    }
}

fn easing_word(word: &[u8]) -> Option<Easing>
    ensures { result ≡ look_up easing_words word.now }
{
    let curve = |x1, x2| Easing::Cubic {
        x1,
        y1: 0,
        x2,
        y2: 1000,
    };
    look_up(
        &[
            ("linear", Easing::Linear),
            ("ease", Easing::ease()),
            ("ease-in", curve(420, 1000)),
            ("ease-out", curve(0, 580)),
            ("ease-in-out", curve(420, 580)),
            (
                "step-start",
                Easing::Steps {
                    count: 1,
                    jump: Jump::Start,
                },
            ),
            (
                "step-end",
                Easing::Steps {
                    count: 1,
                    jump: Jump::End,
                },
            ),
        ],
        word,
    )
}

fn jump_word(word: &[u8]) -> Option<Jump>
    ensures { result ≡ look_up jump_words word.now }
{
    look_up(
        &[
            ("jump-start", Jump::Start),
            ("start", Jump::Start),
            ("jump-end", Jump::End),
            ("end", Jump::End),
            ("jump-both", Jump::Both),
            ("jump-none", Jump::Nowhere),
        ],
        word,
    )
}

#[tactic(auto, unfolding(crate::specs::Reading::function_of))]
fn function_of(name: &[u8], parts: &[Part]) -> Option<Easing>
    ensures { result ≡ function_of clamped_nearest name.now (map token_part parts.now) }
{
    if is_keyword(name, b"steps") {
        steps_of(parts)
    } else if is_keyword(name, b"cubic-bezier") {
        curve_of(parts)
    } else {
        None
    }
}

#[tactic(auto, unfolding(crate::specs::Reading::steps_of))]
fn steps_of(parts: &[Part]) -> Option<Easing>
    ensures { result ≡ steps_of clamped_nearest (map token_part parts.now) }
{
    let (number, rest) = number_at(parts)?;
    let jump = jump_of(rest)?;
    step_count(number, jump)
}

#[tactic(auto, unfolding(crate::specs::Reading::jump_of))]
fn jump_of(parts: &[Part]) -> Option<Jump>
    ensures { result ≡ jump_of (map token_part parts.now) }
{
    if is_close(parts) {
        return Some(Jump::End);
    }
    jump_word(last_word(parts)?)
}

#[tactic(auto, unfolding(crate::specs::Reading::step_count))]
fn step_count(number: &[u8], jump: Jump) -> Option<Easing>
    ensures { result ≡ step_count clamped_nearest number.now jump }
{
    if !has_no_point(number) {
        return None;
    }
    let count = natural(number, 0, MOST_STEPS)?;
    if count < u64::from(fewest_steps(jump)) {
        return None;
    }
    Some(Easing::Steps {
        count: count as u32,
        jump,
    })
}

fn fewest_steps(jump: Jump) -> u32
    ensures { result ≡ fewest_steps jump }
{
    match jump {
        Jump::Start | Jump::End | Jump::Both => 1,
        Jump::Nowhere => 2,
    }
}

#[tactic(auto, unfolding(crate::specs::Reading::curve_of))]
fn curve_of(parts: &[Part]) -> Option<Easing>
    ensures { result ≡ curve_of clamped_nearest (map token_part parts.now) }
{
    let (x1, y1, rest) = point_at(parts)?;
    let (x2, y2, rest) = point_at(after_comma(rest)?)?;
    if !is_close(rest) {
        return None;
    }
    Some(Easing::Cubic { x1, y1, x2, y2 })
}

/// A control point in thousandths, and the rest.
#[tactic(auto, unfolding(crate::specs::Reading::point_at))]
fn point_at<'a, 'b>(parts: &'b [Part<'a>]) -> Option<(i32, i32, &'b [Part<'a>])>
    ensures { option_map (λ p. (p.0, p.1, map token_part p.2.now)) result ≡ point_at clamped_nearest (map token_part parts.now) }
{
    let (x, rest) = number_at(parts)?;
    let (y, rest) = number_at(after_comma(rest)?)?;
    Some((abscissa(x)?, ordinate(y)?, rest))
}

#[tactic(auto, unfolding(crate::specs::Reading::abscissa))]
fn abscissa(number: &[u8]) -> Option<i32>
    ensures { result ≡ abscissa clamped_nearest number.now }
{
    let x = natural(number, 3, 1000)?;
    if x > 1000 {
        return None;
    }
    Some(x as i32)
}

fn ordinate(number: &[u8]) -> Option<i32>
    ensures { result ≡ clamped_nearest 3 MAX_ORDINATE number.now }
{
    Some(clamped(number, 3, HIGHEST)? as i32)
}

fn number_at<'a, 'b>(parts: &'b [Part<'a>]) -> Option<(&'a [u8], &'b [Part<'a>])>
    ensures { option_map (λ p. (p.0.now, map token_part p.1.now)) result ≡ number_at (map token_part parts.now) }
{
    match parts {
        [Part::Number(number), rest @ ..] => Some((number, rest)),
        _ => None,
    }
}

fn is_close(parts: &[Part]) -> bool
    ensures { result ≡ is_close (map token_part parts.now) }
{
    matches!(parts, [Part::Close])
}

fn last_word<'a>(parts: &[Part<'a>]) -> Option<&'a [u8]>
    ensures { option_map (λ word. word.now) result ≡ last_word (map token_part parts.now) }
{
    match parts {
        [Part::Comma, Part::Ident(word), Part::Close] => Some(word),
        _ => None,
    }
}
