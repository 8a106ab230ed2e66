//! Tokens: a kind and a span.
ghost use Rattle.css_token.specs.TokenLists.{LiesWithin, bytes_of};
ghost use Rattle.std.specs.Prelude.{◌≡◌};

/// What a token is (CSS Syntax Level 3, 4).
#[derive(Clone, Copy, Debug, PartialEq, Eq)]
pub enum Kind {
    /// A run of spaces: space, tab, line feed, carriage return, form feed.
    Space,
    /// An identifier.
    Ident,
    /// An identifier and `(`.
    Function,
    /// `@` and an identifier.
    AtWord,
    /// `#` and name characters.
    Hash,
    /// A string, with its quotes.
    Text,
    /// `url(` in any case, a url without quotes, and `)`.
    Url,
    /// A number, without an exponent.
    Number,
    /// A number and `%`.
    Percent,
    /// A number and an identifier, which begins at the byte `unit` of the text.
    Dimension { unit: u32 },
    /// `:`
    Colon,
    /// `;`
    Semicolon,
    /// `,`
    Comma,
    /// `(`
    RoundOpen,
    /// `)`
    RoundClose,
    /// `[`
    SquareOpen,
    /// `]`
    SquareClose,
    /// `{`
    CurlyOpen,
    /// `}`
    CurlyClose,
    /// Any other single ASCII character.
    Delim,
}

/// A token of a text, by the place of its bytes there.
#[derive(Clone, Copy, Debug, PartialEq, Eq)]
pub struct Token {
    pub kind: Kind,
    /// The index of its first byte.
    pub from: u32,
    /// The index after its last byte.
    pub to: u32,
}

impl Token {
    /// The token's bytes in its text.
    pub fn bytes<'a>(&self, text: &'a [u8]) -> &'a [u8]
        requires { LiesWithin text.now self.now }
        ensures { result.now ≡ bytes_of text.now self.now }
    {
        &text[self.from as usize..self.to as usize]
    }
}
