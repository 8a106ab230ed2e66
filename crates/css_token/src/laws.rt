//! Laws of tokens: what is proved of the definitions alone.
ghost use Rattle.std.specs.Prelude.{◌≡◌, ◌↔◌, List, Ok, Err, slice_range, ℕ};
ghost use Rattle.css_token.specs.Productions.{IsIdentifier, IsNumber};
ghost use Rattle.css_token.specs.Reading.{tokens_of};
ghost use Rattle.css_token.specs.TokenLists.{AreTokens, IsFirstBad, IsTokenOf};
ghost use Rattle.css_token.specs.declared.token.Kind.TheVariants.{Dimension};
ghost use Rattle.css_token.specs.declared.token.Token.{Token};

/// A text has at most one list of tokens.
pub fn one_list()
    ensures { (text : List ℕ) (ts us : List Token) → AreTokens text ts → AreTokens text us → ts ≡ us }
{}

/// No text has both tokens and a bad one.
pub fn never_both()
    ensures { (text : List ℕ) (ts : List Token) (at : ℕ) → AreTokens text ts → IsFirstBad text at → ⊥ }
{}

/// The first bad token of a text has one place.
pub fn one_place()
    ensures { (text : List ℕ) (at place : ℕ) → IsFirstBad text at → IsFirstBad text place → at ≡ place }
{}

/// Every text has tokens or a first bad one, and the function `tokens_of` computes which.
pub fn one_reading()
    ensures tokens { (text : List ℕ) (ts : List Token) → (tokens_of text ≡ Ok ts) ↔ AreTokens text ts }
    ensures bad { (text : List ℕ) (at : ℕ) → (tokens_of text ≡ Err at) ↔ IsFirstBad text at }
{}

/// A dimension's bytes before its unit are a number, and those from there on an identifier.
pub fn dimension_parts()
    ensures { (text : List ℕ) (t : Token) (unit : ℕ) → IsTokenOf text t → t.kind ≡ Dimension unit
        → IsNumber (slice_range text t.from unit) × IsIdentifier (slice_range text unit t.to) }
{}
