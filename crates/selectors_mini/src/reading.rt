//! The reader of selector lists.

ghost use Rattle.std.specs.Prelude.{◌≡◌, ◌≤◌, [], ◌∷◌, ◌++◌, true, false, length, All, IfOk, map};
ghost use Rattle.std.specs.List.{slice_split};
ghost use Rattle.css_token.specs.TokenLists.{LiesWithin};
ghost use Rattle.selectors_mini.specs.Parts.{is_comma_kind, parts_of};
ghost use Rattle.selectors_mini.specs.Reading.{GivesSelectors, bounded, each_selector, is_long, selectors_of};
ghost use Rattle.selectors_mini.specs.Spelling.{IsSelectorAnswer, selectors_in};

use crate::compound::Compound;
use crate::reader::compounds_of;
use crate::selector::{MAX_COMPOUNDS, Selector};
use css_token::{Kind, Token};
use std::alloc::{AllocError, Global};
use thiserror::Error;

/// How many selectors a list has at most.
pub const MAX_SELECTORS: usize = 32;

/// Why the reader of a selector list answers none. The first three are tested in this order.
#[derive(Clone, Copy, Debug, PartialEq, Eq, Error)]
pub enum SelectorFault {
    /// No selector list of the profile has this spelling.
    #[error("unsupported selectors")]
    Unsupported,
    /// There are more than [`MAX_SELECTORS`] selectors.
    #[error("too many selectors")]
    BoundSelectors,
    /// A selector has more than [`MAX_COMPOUNDS`] compounds.
    #[error("too many compounds")]
    BoundCompounds,
    /// Memory ran out.
    #[error("out of memory")]
    NoMemory,
}

/// The selectors that the tokens of the text spell, with commas between them (Selectors Level 4, section 18).
pub fn read_selectors(
    alloc: Global,
    text: &str,
    tokens: &[Token],
) -> Result<Vec<Selector>, SelectorFault>
    requires { All (LiesWithin text.now) tokens.now }
    ensures answer { IsSelectorAnswer (parts_of text.now tokens.now) (selectors_in result) }
    // The same by the function that computes it.
    ensures reading { GivesSelectors (selectors_in result) (selectors_of (parts_of text.now tokens.now)) }
{
    let Ok(runs) = runs_of(alloc, tokens) else {
        return Err(SelectorFault::NoMemory);
    };
    each_selector(alloc, text.as_bytes(), runs.as_slice())
}

/// The tokens between commas.
fn runs_of<'a>(alloc: Global, tokens: &'a [Token]) -> Result<Vec<&'a [Token]>, AllocError>
    ensures { IfOk result (λ v. map (λ run. run.now) v.items ≡ slice_split (λ t. is_comma_kind t.kind) tokens.now) }
{
    tokens.split(|token| is_comma(token)).collect(alloc)
}

fn is_comma(token: &Token) -> bool
    ensures { result ≡ is_comma_kind token.now.kind }
{
    matches!(token.kind, Kind::Comma)
}

/// The selector of each run, if they are within the bounds.
fn each_selector(
    alloc: Global,
    text: &[u8],
    runs: &[&[Token]],
) -> Result<Vec<Selector>, SelectorFault>
    requires { All (λ run. All (LiesWithin text.now) run.now) runs.now }
    ensures { GivesSelectors (selectors_in result) (bounded (each_selector (map (λ run. parts_of text.now run.now) runs.now))) }
{
    let mut selectors = Vec::new(alloc);
    let mut has_long = false;
    for (i, run) in runs.iter().enumerate() {
        let compounds = match compounds_of(alloc, text, run) {
            Ok(compounds) => compounds,
            Err(fault) => return Err(fault),
        };
        let Ok(is_long) = keep(&mut selectors, compounds, i < MAX_SELECTORS) else {
            return Err(SelectorFault::NoMemory);
        };
        has_long |= is_long;
    }
    if runs.len() > MAX_SELECTORS {
        return Err(SelectorFault::BoundSelectors);
    }
    if has_long {
        return Err(SelectorFault::BoundCompounds);
    }
    Ok(selectors)
}

/// Whether the selector of these compounds is too long; it is kept where it isn't and there is room.
fn keep(
    selectors: &mut Vec<Selector>,
    compounds: Vec<Compound>,
    has_room: bool,
) -> Result<bool, AllocError>
    requires { 1 ≤ length compounds.items }
    ensures long { IfOk result (λ long. long ≡ is_long compounds.items) }
    ensures kept { IfOk result (λ long. has_room ≡ true → long ≡ false → selectors.new.items ≡ selectors.old.items ++ compounds.items ∷ []) }
{
    if compounds.len() > MAX_COMPOUNDS {
        return Ok(true);
    }
    if has_room {
        selectors.push(Selector::from_vec(compounds))?;
    }
    Ok(false)
}
