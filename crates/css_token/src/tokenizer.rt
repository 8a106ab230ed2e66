//! The tokens of a text.
ghost use Rattle.std.specs.List.{All, AllPairs};
ghost use Rattle.std.specs.Prelude.{◌≡◌, ◌≤◌, IfOk, length};
ghost use Rattle.css_token.specs.Reading.{IsReading};
ghost use Rattle.css_token.specs.TokenLists.{IsAnswer, IsTokenOf};

use crate::lengths::after;
use crate::pieces::{Piece, piece_at};
use crate::token::Token;
use std::alloc::Global;
use thiserror::Error;

/// Why a text has no tokens.
#[derive(Clone, Copy, Debug, PartialEq, Eq, Error)]
pub enum TokenFault {
    /// A bad token begins at this byte: a backslash or a control character, an open comment, text or url, or a
    /// text or url with what may not stand in it.
    #[error("a bad token at {at}")]
    BadToken { at: u32 },
    /// Memory ran out.
    #[error("out of memory")]
    NoMemory,
}

/// The tokens of a text of at most 67,108,864 bytes, in order, each the longest that may stand in its place (CSS
/// Syntax Level 3, 4.3.1). Comments between them are left out. `BadToken` has the place where the first bad token
/// begins.
pub fn tokens(alloc: Global, text: &str) -> Result<Vec<Token>, TokenFault>
    requires { length text.now ≤ 67108864 }
    ensures answer { IsAnswer text.now result }
    // The same by the function that computes it.
    ensures reading { IsReading text.now result }
    // Each lies within the text, and its bytes are what its kind says.
    ensures each { IfOk result (λ v. All (IsTokenOf text.now) v.items) }
    ensures ordered { IfOk result (λ v. AllPairs (λ t u. t.to ≤ u.from) v.items) }
{
    let bytes = text.as_bytes();
    let mut tokens = Vec::new(alloc);
    let mut at: usize = 0;
    while at < bytes.len() {
        let from = at as u32;
        match piece_at(from, after(bytes, at)) {
            Piece::Comment { len } => at += len,
            Piece::Token { kind, len } => {
                at += len;
                let to = at as u32;
                tokens
                    .push(Token { kind, from, to })
                    .map_err(|_| TokenFault::NoMemory)?;
            }
            Piece::Bad => return Err(TokenFault::BadToken { at: from }),
        }
    }
    Ok(tokens)
}
