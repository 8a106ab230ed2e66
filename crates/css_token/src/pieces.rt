//! What stands at the front of a text: a token, a comment, or something bad (CSS Syntax Level 3, 4.3.1).
ghost use Rattle.std.specs.Prelude.{◌≡◌, ◌+◌, ◌^◌, ◌<◌, ◌≤◌, length, slice_index};
ghost use Rattle.css_token.specs.Fronts.{closed_piece, lone_piece, mark_piece, name_piece, numeric_piece, piece_at};
ghost use Rattle.css_token.specs.Productions.{begins_identifier};

use crate::classes::{is_delim, is_name, is_quote, names_len, spaces_len};
use crate::lengths::{
    after, begins_comment, begins_identifier, begins_url, byte_at, comment_len, identifier_len,
    number_len, text_len, url_len,
};
use crate::token::Kind;

#[derive(Clone, Copy, Debug)]
pub(crate) enum Piece {
    Token { kind: Kind, len: usize },
    Comment { len: usize },
    Bad,
}

/// A token whose rest after its opening has this length, or a bad one where that is 0.
#[tactic(auto, unfolding(crate::specs::Fronts::closed_piece))]
fn closed_piece(kind: Kind, opening: usize, len: usize) -> Piece
    requires { opening + len < 2 ^ 64 }
    ensures { result ≡ closed_piece kind opening len }
{
    if len == 0 {
        Piece::Bad
    } else {
        Piece::Token {
            kind,
            len: opening + len,
        }
    }
}

/// A character that stands alone.
#[tactic(auto, unfolding(crate::specs::Fronts::lone_piece))]
fn lone_piece(byte: u8) -> Piece
    ensures { result ≡ lone_piece byte }
{
    let kind = match byte {
        b':' => Kind::Colon,
        b';' => Kind::Semicolon,
        b',' => Kind::Comma,
        b'(' => Kind::RoundOpen,
        b')' => Kind::RoundClose,
        b'[' => Kind::SquareOpen,
        b']' => Kind::SquareClose,
        b'{' => Kind::CurlyOpen,
        b'}' => Kind::CurlyClose,
        _ if is_delim(byte) => Kind::Delim,
        _ => return Piece::Bad,
    };
    Piece::Token { kind, len: 1 }
}

/// A number of this length, a percent or a dimension.
#[tactic(auto, unfolding(crate::specs::Fronts::numeric_piece))]
fn numeric_piece(at: u32, len: usize, bytes: &[u8]) -> Piece
    requires within { len ≤ length bytes.now }
    requires most { at + length bytes.now ≤ 67108864 }
    ensures { result ≡ numeric_piece at len bytes.now }
{
    if byte_at(bytes, len) == b'%' {
        return Piece::Token {
            kind: Kind::Percent,
            len: len + 1,
        };
    }
    let name = identifier_len(after(bytes, len));
    if name == 0 {
        return Piece::Token {
            kind: Kind::Number,
            len,
        };
    }
    Piece::Token {
        kind: Kind::Dimension {
            unit: at + len as u32,
        },
        len: len + name,
    }
}

/// An identifier, a function or a url.
#[tactic(auto, unfolding(crate::specs::Fronts::name_piece))]
fn name_piece(bytes: &[u8]) -> Piece
    ensures { result ≡ name_piece bytes.now }
{
    if begins_url(bytes) {
        return closed_piece(Kind::Url, 4, url_len(after(bytes, 4)));
    }
    let len = identifier_len(bytes);
    if byte_at(bytes, len) == b'(' {
        return Piece::Token {
            kind: Kind::Function,
            len: len + 1,
        };
    }
    Piece::Token {
        kind: Kind::Ident,
        len,
    }
}

/// A hash, an at-word or a character that stands alone.
#[tactic(auto, unfolding(crate::specs::Fronts::mark_piece))]
fn mark_piece(bytes: &[u8]) -> Piece
    ensures { result ≡ mark_piece bytes.now }
{
    let first = byte_at(bytes, 0);
    if first == b'#' && is_name(byte_at(bytes, 1)) {
        return Piece::Token {
            kind: Kind::Hash,
            len: 1 + names_len(after(bytes, 1)),
        };
    }
    if first == b'@' && begins_identifier(after(bytes, 1)) {
        return Piece::Token {
            kind: Kind::AtWord,
            len: 1 + identifier_len(after(bytes, 1)),
        };
    }
    lone_piece(first)
}

/// The piece at the front of a text that begins at `at`.
#[tactic(auto, unfolding(crate::specs::Fronts::piece_at))]
pub(crate) fn piece_at(at: u32, bytes: &[u8]) -> Piece
    requires { at + length bytes.now ≤ 67108864 }
    ensures { result ≡ piece_at at bytes.now }
{
    let first = byte_at(bytes, 0);
    if first.is_ascii_whitespace() {
        return Piece::Token {
            kind: Kind::Space,
            len: spaces_len(bytes),
        };
    }
    if is_quote(first) {
        return closed_piece(Kind::Text, 1, text_len(first, after(bytes, 1)));
    }
    if begins_comment(bytes) {
        let len = comment_len(after(bytes, 2));
        return if len == 0 {
            Piece::Bad
        } else {
            Piece::Comment { len: 2 + len }
        };
    }
    let len = number_len(bytes);
    if len > 0 {
        return numeric_piece(at, len, bytes);
    }
    if begins_identifier(bytes) {
        name_piece(bytes)
    } else {
        mark_piece(bytes)
    }
}
