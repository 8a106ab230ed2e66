//! How many bytes each construct has at the front of a text, 0 where it does not stand there.
ghost use Rattle.std.specs.Prelude.{◌≡◌, ◌≢◌, ◌+◌, ◌<◌, ◌≤◌, drop, length, slice_index};
ghost use Rattle.css_token.specs.Fronts.{comment_len, fraction_len, identifier_len, number_len, text_len, unclosed_len, unsigned_len, url_len, url_rest_len};
ghost use Rattle.css_token.specs.Productions.{begins_comment, begins_identifier, begins_url, is_quoted};

use crate::classes::{
    digits_len, inside_text_len, inside_url_len, is_name_start, is_quote, is_sign, names_len,
    spaces_len,
};

/// The byte at a place, or 0 past the end, which begins nothing.
pub(crate) fn byte_at(bytes: &[u8], place: usize) -> u8
    ensures value { result ≡ slice_index bytes.now place }
    ensures inside { result ≢ 0 → place < length bytes.now }
{
    if place < bytes.len() { bytes[place] } else { 0 }
}

/// The bytes from a place on.
pub(crate) fn after(bytes: &[u8], place: usize) -> &[u8]
    ensures value { result.now ≡ drop place bytes.now }
    ensures len { place ≤ length bytes.now → length result.now + place ≡ length bytes.now }
{
    if place < bytes.len() {
        &bytes[place..]
    } else {
        &[]
    }
}

pub(crate) fn begins_identifier(bytes: &[u8]) -> bool
    ensures { result ≡ begins_identifier bytes.now }
{
    let first = byte_at(bytes, 0);
    let second = byte_at(bytes, 1);
    is_name_start(first) || (first == b'-' && (second == b'-' || is_name_start(second)))
}

#[tactic(auto, unfolding(crate::specs::Fronts::identifier_len))]
pub(crate) fn identifier_len(bytes: &[u8]) -> usize
    ensures value { result ≡ identifier_len bytes.now }
    ensures within { result ≤ length bytes.now }
{
    if begins_identifier(bytes) {
        names_len(bytes)
    } else {
        0
    }
}

#[tactic(auto, unfolding(crate::specs::Fronts::fraction_len))]
fn fraction_len(bytes: &[u8]) -> usize
    ensures value { result ≡ fraction_len bytes.now }
    ensures within { result ≤ length bytes.now }
{
    if byte_at(bytes, 0) == b'.' && byte_at(bytes, 1).is_ascii_digit() {
        1 + digits_len(after(bytes, 1))
    } else {
        0
    }
}

#[tactic(auto, unfolding(crate::specs::Fronts::unsigned_len))]
fn unsigned_len(bytes: &[u8]) -> usize
    ensures value { result ≡ unsigned_len bytes.now }
    ensures within { result ≤ length bytes.now }
{
    let whole = digits_len(bytes);
    whole + fraction_len(after(bytes, whole))
}

#[tactic(auto, unfolding(crate::specs::Fronts::number_len))]
pub(crate) fn number_len(bytes: &[u8]) -> usize
    ensures value { result ≡ number_len bytes.now }
    ensures within { result ≤ length bytes.now }
{
    if is_sign(byte_at(bytes, 0)) {
        let len = unsigned_len(after(bytes, 1));
        if len == 0 { 0 } else { 1 + len }
    } else {
        unsigned_len(bytes)
    }
}

#[tactic(auto, unfolding(crate::specs::Fronts::text_len))]
pub(crate) fn text_len(quote: u8, bytes: &[u8]) -> usize
    requires { quote ≢ 0 }
    ensures value { result ≡ text_len quote bytes.now }
    ensures within { result ≤ length bytes.now }
{
    let inside = inside_text_len(quote, bytes);
    if byte_at(bytes, inside) == quote {
        inside + 1
    } else {
        0
    }
}

#[tactic(auto, unfolding(crate::specs::Fronts::url_rest_len))]
fn url_rest_len(bytes: &[u8]) -> usize
    ensures value { result ≡ url_rest_len bytes.now }
    ensures within { result ≤ length bytes.now }
{
    let inside = inside_url_len(bytes);
    let spaces = spaces_len(after(bytes, inside));
    if byte_at(bytes, inside + spaces) == b')' {
        inside + spaces + 1
    } else {
        0
    }
}

#[tactic(auto, unfolding(crate::specs::Fronts::url_len))]
pub(crate) fn url_len(bytes: &[u8]) -> usize
    ensures value { result ≡ url_len bytes.now }
    ensures within { result ≤ length bytes.now }
{
    let spaces = spaces_len(bytes);
    let len = url_rest_len(after(bytes, spaces));
    if len == 0 { 0 } else { spaces + len }
}

/// How many bytes stand before the first `*/`: all of them where there is none.
#[tactic(auto, using(crate::proofs::Comments::unclosed_more))]
fn unclosed_len(bytes: &[u8]) -> usize
    ensures value { result ≡ unclosed_len bytes.now }
    ensures within { result ≤ length bytes.now }
    ensures room { result < length bytes.now → result + 2 ≤ length bytes.now }
{
    for (place, byte) in bytes.iter().enumerate() {
        if *byte == b'*' && byte_at(bytes, place + 1) == b'/' {
            return place;
        }
    }
    bytes.len()
}

#[tactic(auto, unfolding(crate::specs::Fronts::comment_len))]
pub(crate) fn comment_len(bytes: &[u8]) -> usize
    ensures value { result ≡ comment_len bytes.now }
    ensures within { result ≤ length bytes.now }
{
    let unclosed = unclosed_len(bytes);
    if unclosed < bytes.len() {
        unclosed + 2
    } else {
        0
    }
}

pub(crate) fn begins_comment(bytes: &[u8]) -> bool
    ensures { result ≡ begins_comment bytes.now }
{
    byte_at(bytes, 0) == b'/' && byte_at(bytes, 1) == b'*'
}

/// Whether the byte after the spaces is a quote.
fn is_quoted(bytes: &[u8]) -> bool
    ensures { result ≡ is_quoted bytes.now }
{
    is_quote(byte_at(bytes, spaces_len(bytes)))
}

pub(crate) fn begins_url(bytes: &[u8]) -> bool
    ensures { result ≡ begins_url bytes.now }
{
    byte_at(bytes, 0).to_ascii_lowercase() == b'u'
        && byte_at(bytes, 1).to_ascii_lowercase() == b'r'
        && byte_at(bytes, 2).to_ascii_lowercase() == b'l'
        && byte_at(bytes, 3) == b'('
        && !is_quoted(after(bytes, 4))
}
