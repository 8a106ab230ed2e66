//! Colours.
ghost use Rattle.std.specs.Prelude.{if◌then◌else◌, ◌≡◌, ◌<◌, pos, map, option_map, IsTrue};
ghost use Rattle.std.specs.List.{list_all};
ghost use Rattle.token_parts.specs.Keywords.{look_up};
ghost use Rattle.std.specs.Char.{is_ascii_hexdigit};
ghost use Rattle.token_parts.specs.Parts.{token_part};
ghost use Rattle.value_text.specs.Colors.{alpha_of, color_named, color_words, digit_of, double_of, hex_color, hex_digits, is_color_function, pair_of};
ghost use Rattle.value_text.specs.ColorReading.{alpha_at, arguments_of, channel_at, color_of};

use crate::number::{channel, number};
use fix_num::{Fix, rnd};
use token_parts::{Part, after_comma, is_keyword, look_up};
use value_types::ValueRange;

/// A colour: channels from 0 to 255 and an alpha in millionths.
#[derive(Clone, Copy)]
pub(crate) struct Rgba {
    pub r: u8,
    pub g: u8,
    pub b: u8,
    pub a: Fix,
}

/// The colour that the parts spell.
pub(crate) fn color(parts: &[Part]) -> Option<Rgba>
    ensures { result ≡ color_of (map token_part parts.now) }
{
    match parts {
        [Part::Ident(word)] => color_named(word),
        [Part::Hash(digits)] => hex_color(digits),
        [Part::Function(name), rest @ ..] => function_color(name, rest),
        _ => None,
    }
}

fn function_color(name: &[u8], parts: &[Part]) -> Option<Rgba>
    ensures { result ≡ (if is_color_function name.now then arguments_of (map token_part parts.now) else None) }
{
    if is_keyword(name, b"rgb") || is_keyword(name, b"rgba") {
        arguments(parts)
    } else {
        None
    }
}

#[tactic(auto, unfolding(crate::specs::ColorReading::arguments_of))]
fn arguments(parts: &[Part]) -> Option<Rgba>
    ensures { result ≡ arguments_of (map token_part parts.now) }
{
    let (r, rest) = channel_at(parts)?;
    let (g, rest) = channel_at(after_comma(rest)?)?;
    let (b, rest) = channel_at(after_comma(rest)?)?;
    let a = alpha_at(rest)?;
    Some(Rgba { r, g, b, a })
}

fn channel_at<'a, 'b>(parts: &'b [Part<'a>]) -> Option<(u8, &'b [Part<'a>])>
    ensures { option_map (λ c. (c.0, map token_part c.1.now)) result ≡ channel_at (map token_part parts.now) }
{
    match parts {
        [Part::Number(text), rest @ ..] => Some((channel(text)?, rest)),
        _ => None,
    }
}

fn alpha_at(parts: &[Part]) -> Option<Fix>
    ensures { result ≡ alpha_at (map token_part parts.now) }
{
    match parts {
        [Part::Close] => Some(Fix::ONE),
        [Part::Comma, Part::Number(text), Part::Close] => match number(
            ValueRange::ZeroToOne,
            text,
        ) {
            Ok(a) => Some(a),
            Err(_) => None,
        },
        _ => None,
    }
}

#[tactic(auto, unfolding(crate::specs::Colors::color_named))]
fn color_named(word: &[u8]) -> Option<Rgba>
    ensures { result ≡ color_named word.now }
{
    if is_keyword(word, b"transparent") {
        return Some(Rgba {
            r: 0,
            g: 0,
            b: 0,
            a: Fix(0),
        });
    }
    let (r, g, b) = channels_named(word)?;
    Some(Rgba {
        r,
        g,
        b,
        a: Fix::ONE,
    })
}

fn channels_named(word: &[u8]) -> Option<(u8, u8, u8)>
    ensures { result ≡ look_up color_words word.now }
{
    look_up(
        &[
            ("black", (0, 0, 0)),
            ("silver", (192, 192, 192)),
            ("gray", (128, 128, 128)),
            ("white", (255, 255, 255)),
            ("maroon", (128, 0, 0)),
            ("red", (255, 0, 0)),
            ("purple", (128, 0, 128)),
            ("fuchsia", (255, 0, 255)),
            ("green", (0, 128, 0)),
            ("lime", (0, 255, 0)),
            ("olive", (128, 128, 0)),
            ("yellow", (255, 255, 0)),
            ("navy", (0, 0, 128)),
            ("blue", (0, 0, 255)),
            ("teal", (0, 128, 128)),
            ("aqua", (0, 255, 255)),
            ("orange", (255, 165, 0)),
        ],
        word,
    )
}

#[tactic(auto, unfolding(crate::specs::Colors::hex_color))]
fn hex_color(text: &[u8]) -> Option<Rgba>
    ensures { result ≡ hex_color text.now }
{
    if !are_hex_digits(text) {
        return None;
    }
    hex_digits(text)
}

fn are_hex_digits(text: &[u8]) -> bool
    ensures { result ≡ list_all is_ascii_hexdigit text.now }
{
    text.iter().all(|c| c.is_ascii_hexdigit())
}

fn hex_digits(text: &[u8]) -> Option<Rgba>
    requires { IsTrue (list_all is_ascii_hexdigit text.now) }
    ensures { result ≡ hex_digits text.now }
{
    match *text {
        [r, g, b] => Some(short(r, g, b, Fix::ONE)),
        [r, g, b, a] => Some(short(r, g, b, hex_alpha(pair(a, a)))),
        [r, r2, g, g2, b, b2] => Some(Rgba {
            r: pair(r, r2),
            g: pair(g, g2),
            b: pair(b, b2),
            a: Fix::ONE,
        }),
        [r, r2, g, g2, b, b2, a, a2] => Some(Rgba {
            r: pair(r, r2),
            g: pair(g, g2),
            b: pair(b, b2),
            a: hex_alpha(pair(a, a2)),
        }),
        _ => None,
    }
}

fn short(r: u8, g: u8, b: u8, a: Fix) -> Rgba
    requires r { IsTrue (is_ascii_hexdigit r) }
    requires g { IsTrue (is_ascii_hexdigit g) }
    requires b { IsTrue (is_ascii_hexdigit b) }
    ensures { result ≡ record { r = double_of r; g = double_of g; b = double_of b; a = a } }
{
    Rgba {
        r: pair(r, r),
        g: pair(g, g),
        b: pair(b, b),
        a,
    }
}

fn pair(c: u8, d: u8) -> u8
    requires first { IsTrue (is_ascii_hexdigit c) }
    requires second { IsTrue (is_ascii_hexdigit d) }
    ensures { result ≡ pair_of c d }
{
    digit(c) * 16 + digit(d)
}

fn digit(c: u8) -> u8
    requires { IsTrue (is_ascii_hexdigit c) }
    ensures value { result ≡ digit_of c }
    ensures bound { result < 16 }
{
    if c < b':' {
        c - b'0'
    } else if c < b'[' {
        c - b'A' + 10
    } else {
        c - b'a' + 10
    }
}

/// The alpha of `h` parts of 255.
fn hex_alpha(h: u8) -> Fix
    ensures { result ≡ record { 0 = alpha_of h } }
{
    Fix(rnd(i128::from(h) * i128::from(Fix::ONE.0), 255) as i64)
}
