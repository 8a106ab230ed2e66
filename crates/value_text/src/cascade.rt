//! The keywords of the cascade.
ghost use Rattle.std.specs.Prelude.{◌≡◌, map};
ghost use Rattle.token_parts.specs.Keywords.{look_up};
ghost use Rattle.token_parts.specs.Parts.{token_part};
ghost use Rattle.value_text.specs.Spelling.{cascade_keyword, cascade_words, declared_by};

use token_parts::{Part, look_up};
use value_types::Declared;

/// A keyword of the cascade, as it is written (CSS Cascade 5, "Explicit Defaulting").
#[derive(Clone, Copy)]
pub enum Keyword {
    Initial,
    Inherit,
    Unset,
}

/// The keyword of the cascade that the parts are; `None` where they are none.
pub fn cascade_keyword(parts: &[Part]) -> Option<Keyword>
    ensures { result ≡ cascade_keyword (map token_part parts.now) }
{
    match parts {
        [Part::Ident(word)] => keyword_named(word),
        _ => None,
    }
}

fn keyword_named(word: &[u8]) -> Option<Keyword>
    ensures { result ≡ look_up cascade_words word.now }
{
    look_up(
        &[
            ("initial", Keyword::Initial),
            ("inherit", Keyword::Inherit),
            ("unset", Keyword::Unset),
        ],
        word,
    )
}

/// What the keyword declares of a property that is inherited or isn't; `None`: such a property doesn't take it.
pub fn declared_by(inherited: bool, keyword: Keyword) -> Option<Declared>
    ensures { result ≡ declared_by inherited keyword }
{
    match keyword {
        Keyword::Initial => Some(Declared::Initial),
        Keyword::Inherit => {
            if inherited {
                Some(Declared::Inherit)
            } else {
                None
            }
        }
        Keyword::Unset => {
            if inherited {
                Some(Declared::Inherit)
            } else {
                Some(Declared::Initial)
            }
        }
    }
}
