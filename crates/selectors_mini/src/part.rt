//! What tokens say to a reader of selectors.

ghost use Rattle.std.specs.Prelude.{◌≡◌};
ghost use Rattle.css_token.specs.TokenLists.{LiesWithin};
ghost use Rattle.selectors_mini.specs.Parts.{delim_part, hash_part, part_at, part_of_code};

use css_token::{Kind, Token, is_identifier};

/// What a token says.
#[derive(Clone, Copy)]
pub(crate) enum Part<'a> {
    /// An identifier.
    Word(&'a [u8]),
    /// The identifier after a `#`.
    Hash(&'a [u8]),
    /// `.`
    Dot,
    /// `*`
    Star,
    /// `>`
    Greater,
    /// `,`
    Comma,
    /// Spaces.
    Space,
    /// Anything else.
    Other,
}

pub(crate) fn part_of<'a>(text: &'a [u8], token: &Token) -> Part<'a>
    requires { LiesWithin text.now token.now }
    ensures { part_of_code result ≡ part_at text.now token.now.kind token.now.from token.now.to }
{
    let from = token.from as usize;
    let to = token.to as usize;
    match token.kind {
        Kind::Ident => Part::Word(&text[from..to]),
        Kind::Hash => hash_part(&text[from + 1..to]),
        Kind::Delim => delim_part(text[from]),
        Kind::Comma => Part::Comma,
        Kind::Space => Part::Space,
        _ => Part::Other,
    }
}

fn hash_part(name: &[u8]) -> Part<'_>
    ensures { part_of_code result ≡ hash_part name.now }
{
    if is_identifier(name) {
        Part::Hash(name)
    } else {
        Part::Other
    }
}

fn delim_part(byte: u8) -> Part<'static>
    ensures { part_of_code result ≡ delim_part byte }
{
    if byte == b'.' {
        Part::Dot
    } else if byte == b'*' {
        Part::Star
    } else if byte == b'>' {
        Part::Greater
    } else {
        Part::Other
    }
}
