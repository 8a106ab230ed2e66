//! Parts: what tokens say.
ghost use Rattle.std.specs.Prelude.{◌≡◌, ◌++◌, All, List, map, IfOk, OnOk, option_map, option_to_list};
ghost use Rattle.css_token.specs.TokenLists.{LiesWithin};
ghost use Rattle.token_parts.specs.Steps.{after_comma};
ghost use Rattle.token_parts.specs.Parts.{token_part_at, token_parts_of, token_part};

use css_token::{Kind, Token};
use std::alloc::{AllocError, Global};

/// What a solid token says: any but a space.
#[derive(Clone, Copy, Debug, PartialEq, Eq)]
pub enum Part<'a> {
    /// An identifier.
    Ident(&'a [u8]),
    /// A function's name, without its `(`.
    Function(&'a [u8]),
    /// The name after a `#`.
    Hash(&'a [u8]),
    /// A number.
    Number(&'a [u8]),
    /// A percent's number, without its `%`.
    Percent(&'a [u8]),
    /// A number and its unit.
    Dimension { number: &'a [u8], unit: &'a [u8] },
    /// `,`
    Comma,
    /// `)`
    Close,
    /// Any other solid token.
    Other,
}

/// What the tokens of the text say, in order, with spaces left out.
pub fn parts<'a>(
    alloc: Global,
    text: &'a [u8],
    tokens: &[Token],
) -> Result<Vec<Part<'a>>, AllocError>
    requires { All (LiesWithin text.now) tokens.now }
    ensures { IfOk result (λ parts. map token_part parts.items ≡ token_parts_of text.now tokens.now) }
{
    let mut parts = Vec::new(alloc);
    for token in tokens {
        push_some(&mut parts, part_of(text, token))?;
    }
    Ok(parts)
}

fn push_some<'a>(parts: &mut Vec<Part<'a>>, part: Option<Part<'a>>) -> Result<(), AllocError>
    ensures { OnOk result (parts.new.items ≡ parts.old.items ++ option_to_list part.entry) }
{
    if let Some(part) = part {
        parts.push(part)?;
    }
    Ok(())
}

/// What the token says; `None` for a space.
fn part_of<'a>(text: &'a [u8], token: &Token) -> Option<Part<'a>>
    requires { LiesWithin text.now token.now }
    ensures { option_map token_part result ≡ token_part_at text.now token.now.kind token.now.from token.now.to }
{
    let from = token.from as usize;
    let to = token.to as usize;
    match token.kind {
        Kind::Space => None,
        Kind::Ident => Some(Part::Ident(&text[from..to])),
        Kind::Function => Some(Part::Function(&text[from..to - 1])),
        Kind::Hash => Some(Part::Hash(&text[from + 1..to])),
        Kind::Number => Some(Part::Number(&text[from..to])),
        Kind::Percent => Some(Part::Percent(&text[from..to - 1])),
        Kind::Dimension { unit } => Some(Part::Dimension {
            number: &text[from..unit as usize],
            unit: &text[unit as usize..to],
        }),
        Kind::Comma => Some(Part::Comma),
        Kind::RoundClose => Some(Part::Close),
        _ => Some(Part::Other),
    }
}

/// The parts after a comma, where they begin with one.
pub fn after_comma<'a, 'b>(parts: &'b [Part<'a>]) -> Option<&'b [Part<'a>]>
    ensures { option_map (λ rest. map token_part rest.now) result ≡ after_comma (map token_part parts.now) }
{
    match parts {
        [Part::Comma, rest @ ..] => Some(rest),
        _ => None,
    }
}
