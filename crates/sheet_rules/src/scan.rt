//! Where the parts of a text end.
ghost use Rattle.std.specs.Prelude.{◌≡◌, ◌+◌, [], ◌∷◌, IfOk, drop, length, reverse, take};
ghost use Rattle.std.specs.List.{prefix_len};
ghost use Rattle.sheet_rules.specs.Faults.{Gives};
ghost use Rattle.sheet_rules.specs.Scanning.{after_spaces, closed_by, is_space, is_space_kind, place_of, prelude_len, step_of, value_len};

use crate::fault::CssFault;
use css_token::{Kind, Token};
use std::alloc::{AllocError, Global};

/// A bracket that is open in a value.
#[derive(Clone, Copy)]
pub enum Bracket {
    Round,
    Square,
}

/// What a token does to a value.
#[derive(Clone, Copy)]
pub enum Step {
    /// The value ends before it.
    Stop,
    /// It may not stand there.
    Bad,
    /// It is of the value.
    Go,
}

/// The first tokens.
pub(crate) fn front(tokens: &[Token], count: usize) -> &[Token]
    ensures { result.now ≡ take count tokens.now }
{
    if count < tokens.len() {
        &tokens[..count]
    } else {
        tokens
    }
}

/// The tokens after the first.
pub(crate) fn after(tokens: &[Token], count: usize) -> &[Token]
    ensures { result.now ≡ drop count tokens.now }
{
    if count < tokens.len() {
        &tokens[count..]
    } else {
        &[]
    }
}

fn spaces_len(tokens: &[Token]) -> usize
    ensures { result ≡ prefix_len is_space tokens.now }
{
    tokens.iter().take_while(|token| is_space(token)).count()
}

pub(crate) fn is_space(token: &Token) -> bool
    ensures { result ≡ is_space token.now }
{
    matches!(token.kind, Kind::Space)
}

/// The tokens after the spaces at their front.
#[tactic(auto, unfolding(crate::specs::Scanning::after_spaces))]
pub(crate) fn after_spaces(tokens: &[Token]) -> &[Token]
    ensures { result.now ≡ after_spaces tokens.now }
{
    after(tokens, spaces_len(tokens))
}

/// Where the tokens begin; `end` where there is none.
pub(crate) fn place_of(end: u32, tokens: &[Token]) -> u32
    ensures { result ≡ place_of end tokens.now }
{
    match tokens {
        [] => end,
        [first, ..] => first.from,
    }
}

/// How many tokens stand before the next `{`; `None` where none comes.
pub(crate) fn prelude_len(tokens: &[Token]) -> Option<usize>
    ensures { result ≡ prelude_len tokens.now }
{
    tokens
        .iter()
        .position(|token| matches!(token.kind, Kind::CurlyOpen))
}

/// How many tokens the value at the front has; `end` is where the text ends.
pub(crate) fn value_len(alloc: Global, end: u32, tokens: &[Token]) -> Result<usize, CssFault>
    ensures { Gives (λ n. n) result (value_len end [] tokens.now) }
{
    let mut stack = Vec::new(alloc);
    for (i, token) in tokens.iter().enumerate() {
        let Ok(step) = take_step(&mut stack, token.kind) else {
            return Err(CssFault::NoMemory);
        };
        match step {
            Step::Stop => return Ok(i),
            Step::Bad => return Err(CssFault::BadToken { at: token.from }),
            Step::Go => {}
        }
    }
    if stack.as_slice().is_empty() {
        Ok(tokens.len())
    } else {
        Err(CssFault::BadToken { at: end })
    }
}

fn take_step(stack: &mut Vec<Bracket>, kind: Kind) -> Result<Step, AllocError>
    ensures { IfOk result (λ step. (step, reverse stack.new.items) ≡ step_of kind (reverse stack.old.items)) }
{
    match kind {
        Kind::Semicolon if stack.is_empty() => Ok(Step::Stop),
        Kind::CurlyClose if stack.is_empty() => Ok(Step::Stop),
        Kind::CurlyClose | Kind::CurlyOpen => Ok(Step::Bad),
        Kind::RoundOpen | Kind::Function => opened(stack, Bracket::Round),
        Kind::SquareOpen => opened(stack, Bracket::Square),
        Kind::RoundClose => Ok(closed(stack, Bracket::Round)),
        Kind::SquareClose => Ok(closed(stack, Bracket::Square)),
        _ => Ok(Step::Go),
    }
}

fn opened(stack: &mut Vec<Bracket>, bracket: Bracket) -> Result<Step, AllocError>
    ensures { IfOk result (λ step. (step ≡ Step.Go) × (reverse stack.new.items ≡ bracket ∷ reverse stack.old.items)) }
{
    stack.push(bracket)?;
    Ok(Step::Go)
}

/// Takes the last open bracket off, where it is this one.
fn closed(stack: &mut Vec<Bracket>, bracket: Bracket) -> Step
    ensures { (result, reverse stack.new.items) ≡ closed_by (reverse stack.old.items) bracket }
{
    match (stack.pop(), bracket) {
        (Some(Bracket::Round), Bracket::Round) => Step::Go,
        (Some(Bracket::Square), Bracket::Square) => Step::Go,
        _ => Step::Bad,
    }
}

/// The tokens after the `{` that stands after so many.
pub(crate) fn after_brace(tokens: &[Token], count: usize) -> &[Token]
    ensures { result.now ≡ drop (count + 1) tokens.now }
{
    if count < tokens.len() {
        &tokens[count + 1..]
    } else {
        &[]
    }
}
