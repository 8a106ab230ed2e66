//! Tokens of short texts, by kind and place (CSS Syntax 3, "tokenization").
use css_token::Kind::{self, *};
use css_token::{Token, TokenFault, tokens};
use std::test::Fail;

// Each text has these tokens and no others.
const TEXTS: [(&str, &[(Kind, u32, u32)]); 27] = [
    ("", &[]),
    (
        "a:1px",
        &[(Ident, 0, 1), (Colon, 1, 2), (Dimension { unit: 3 }, 2, 5)],
    ),
    (
        "a/**/b /*;*/",
        &[(Ident, 0, 1), (Ident, 5, 6), (Space, 6, 7)],
    ),
    ("/***/,", &[(Comma, 5, 6)]),
    (" \t\n\r\u{c}", &[(Space, 0, 5)]),
    (
        "+a -a --1",
        &[
            (Delim, 0, 1),
            (Ident, 1, 2),
            (Space, 2, 3),
            (Ident, 3, 5),
            (Space, 5, 6),
            (Ident, 6, 9),
        ],
    ),
    ("_\u{e9}-9", &[(Ident, 0, 5)]),
    (
        "1. .5 -.5",
        &[
            (Number, 0, 1),
            (Delim, 1, 2),
            (Space, 2, 3),
            (Number, 3, 5),
            (Space, 5, 6),
            (Number, 6, 9),
        ],
    ),
    ("1.5.5", &[(Number, 0, 3), (Number, 3, 5)]),
    ("+1-2", &[(Number, 0, 2), (Number, 2, 4)]),
    (
        "1e3 1--a",
        &[
            (Dimension { unit: 1 }, 0, 3),
            (Space, 3, 4),
            (Dimension { unit: 5 }, 4, 8),
        ],
    ),
    ("50%%", &[(Percent, 0, 3), (Delim, 3, 4)]),
    ("10%/**/20%", &[(Percent, 0, 3), (Percent, 7, 10)]),
    (
        "# #1a #\u{e9}",
        &[
            (Delim, 0, 1),
            (Space, 1, 2),
            (Hash, 2, 5),
            (Space, 5, 6),
            (Hash, 6, 9),
        ],
    ),
    (
        "@ @a @1",
        &[
            (Delim, 0, 1),
            (Space, 1, 2),
            (AtWord, 2, 4),
            (Space, 4, 5),
            (Delim, 5, 6),
            (Number, 6, 7),
        ],
    ),
    (
        "rgb( 1url(",
        &[
            (Function, 0, 4),
            (Space, 4, 5),
            (Dimension { unit: 6 }, 5, 9),
            (RoundOpen, 9, 10),
        ],
    ),
    ("\"it's\t\"''", &[(Text, 0, 7), (Text, 7, 9)]),
    ("\"/*\"", &[(Text, 0, 4)]),
    ("uRL( a/*b )", &[(Url, 0, 11)]),
    (
        "url() url(\u{e9})",
        &[(Url, 0, 5), (Space, 5, 6), (Url, 6, 13)],
    ),
    (
        "url( 'a')",
        &[
            (Function, 0, 4),
            (Space, 4, 5),
            (Text, 5, 8),
            (RoundClose, 8, 9),
        ],
    ),
    (
        "url urls(",
        &[(Ident, 0, 3), (Space, 3, 4), (Function, 4, 9)],
    ),
    (
        ";()[]{}/",
        &[
            (Semicolon, 0, 1),
            (RoundOpen, 1, 2),
            (RoundClose, 2, 3),
            (SquareOpen, 3, 4),
            (SquareClose, 4, 5),
            (CurlyOpen, 5, 6),
            (CurlyClose, 6, 7),
            (Delim, 7, 8),
        ],
    ),
    ("url( a )", &[(Url, 0, 8)]),
    (
        "url('a')",
        &[(Function, 0, 4), (Text, 4, 7), (RoundClose, 7, 8)],
    ),
    ("#-0", &[(Hash, 0, 3)]),
    ("--a", &[(Ident, 0, 3)]),
];

// The first bad token of each text begins there.
const BAD: [(&str, u32); 16] = [
    ("a \\", 2),
    ("a\\62", 1),
    ("a \u{1}", 2),
    ("1\u{7f}", 1),
    ("a/*", 1),
    ("/*/", 0),
    ("b 'a", 2),
    ("b \"a\nb\"", 2),
    ("b 'a\\'", 2),
    ("b 'a\u{0}'", 2),
    ("c url(a", 2),
    ("c url(a b)", 2),
    ("c url(a\"b)", 2),
    ("c url(\\)", 2),
    ("a \u{7f}", 2),
    ("b 'c", 2),
];

#[test]
fn kinds_and_places(rt: HostRuntime) -> Result<(), Fail> {
    for (text, spans) in TEXTS.iter() {
        assert!(rt; text.len() < 100);
        let found = tokens(rt.alloc(), text)?;
        assert!(rt; found.len() == spans.len());
        for (token, span) in found.iter().zip(spans.iter()) {
            let (kind, from, to) = *span;
            assert!(rt; *token == Token { kind, from, to });
        }
    }
    Ok(())
}

#[test]
fn bad_tokens(rt: HostRuntime) {
    for (text, place) in BAD.iter() {
        assert!(rt; text.len() < 100);
        let answer = tokens(rt.alloc(), text);
        assert!(rt; matches!(&answer, Err(TokenFault::BadToken { at }) if *at == *place));
    }
}
