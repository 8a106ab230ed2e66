//! Classes of bytes (CSS Syntax Level 3, 4.2), and how many bytes of a class a text begins with.
ghost use Rattle.std.specs.Char.{is_ascii_digit, is_ascii_whitespace};
ghost use Rattle.std.specs.List.{prefix_len};
ghost use Rattle.std.specs.Prelude.{◌≡◌, ◌≤◌, length};
ghost use Rattle.css_token.specs.Characters.{is_delim, is_name, is_name_start, is_quote, is_sign, is_text, is_url};

pub(crate) fn is_name_start(byte: u8) -> bool
    ensures { result ≡ is_name_start byte }
{
    byte.is_ascii_alphabetic() || byte == b'_' || byte >= 0x80
}

pub(crate) fn is_name(byte: u8) -> bool
    ensures { result ≡ is_name byte }
{
    is_name_start(byte) || byte.is_ascii_digit() || byte == b'-'
}

pub(crate) fn is_sign(byte: u8) -> bool
    ensures { result ≡ is_sign byte }
{
    byte == b'+' || byte == b'-'
}

pub(crate) fn is_quote(byte: u8) -> bool
    ensures { result ≡ is_quote byte }
{
    byte == b'"' || byte == b'\''
}

fn is_text(quote: u8, byte: u8) -> bool
    ensures { result ≡ is_text quote byte }
{
    byte != quote && byte != b'\\' && (!byte.is_ascii_control() || byte == b'\t')
}

fn is_url(byte: u8) -> bool
    ensures { result ≡ is_url byte }
{
    (byte.is_ascii_graphic() || byte >= 0x80)
        && !is_quote(byte)
        && byte != b'('
        && byte != b')'
        && byte != b'\\'
}

pub(crate) fn is_delim(byte: u8) -> bool
    ensures { result ≡ is_delim byte }
{
    b"!#$%&*+-./<=>?@^`|~".contains(&byte)
}

pub(crate) fn spaces_len(bytes: &[u8]) -> usize
    ensures value { result ≡ prefix_len is_ascii_whitespace bytes.now }
    ensures within { result ≤ length bytes.now }
{
    bytes
        .iter()
        .take_while(|byte| byte.is_ascii_whitespace())
        .count()
}

pub(crate) fn digits_len(bytes: &[u8]) -> usize
    ensures value { result ≡ prefix_len is_ascii_digit bytes.now }
    ensures within { result ≤ length bytes.now }
{
    bytes
        .iter()
        .take_while(|byte| byte.is_ascii_digit())
        .count()
}

pub(crate) fn names_len(bytes: &[u8]) -> usize
    ensures value { result ≡ prefix_len is_name bytes.now }
    ensures within { result ≤ length bytes.now }
{
    bytes.iter().take_while(|byte| is_name(**byte)).count()
}

pub(crate) fn inside_text_len(quote: u8, bytes: &[u8]) -> usize
    ensures value { result ≡ prefix_len (is_text quote) bytes.now }
    ensures within { result ≤ length bytes.now }
{
    bytes
        .iter()
        .take_while(|byte| is_text(quote, **byte))
        .count()
}

pub(crate) fn inside_url_len(bytes: &[u8]) -> usize
    ensures value { result ≡ prefix_len is_url bytes.now }
    ensures within { result ≤ length bytes.now }
{
    bytes.iter().take_while(|byte| is_url(**byte)).count()
}
