//! What a word may be.
ghost use Rattle.std.specs.Prelude.{◌≡◌, IsTrue};
ghost use Rattle.std.specs.List.{list_all};
ghost use Rattle.fix_num.specs.Digits.{are_digits};
ghost use Rattle.script_text.specs.Forms.{is_numeral, is_parent_word, is_script_name, may_begin_name, may_stand_in_name};

/// Whether the word is a tag, an id or a class.
pub(crate) fn is_script_name(word: &[u8]) -> bool
    ensures { result ≡ is_script_name word.now }
{
    if word.is_empty() {
        return false;
    }
    may_begin_name(word[0]) && may_stand_in_a_name(word)
}

fn may_stand_in_a_name(word: &[u8]) -> bool
    ensures { result ≡ list_all may_stand_in_name word.now }
{
    word.iter().all(|b| may_stand_in_name(*b))
}

fn may_stand_in_name(b: u8) -> bool
    ensures { result ≡ may_stand_in_name b }
{
    may_begin_name(b) || b.is_ascii_digit() || b == b'-'
}

fn may_begin_name(b: u8) -> bool
    ensures { result ≡ may_begin_name b }
{
    b.is_ascii_alphabetic() || b == b'_'
}

/// Whether the word is one ASCII digit or more, and nothing else.
pub(crate) fn is_numeral(word: &[u8]) -> bool
    ensures { result ≡ is_numeral word.now }
{
    !word.is_empty() && are_digits(word)
}

fn are_digits(word: &[u8]) -> bool
    ensures { result ≡ are_digits word.now }
{
    word.iter().all(|b| b.is_ascii_digit())
}

/// Whether the word is a number or `-`.
pub(crate) fn is_parent_word(word: &[u8]) -> bool
    ensures { result ≡ is_parent_word word.now }
{
    word == b"-".as_slice() || is_numeral(word)
}

/// The bytes of a name as a text.
#[tactic(auto, using(crate::proofs::FormLemmas::name_is_utf8))]
pub(crate) fn name_text(bytes: &[u8]) -> &str
    requires { IsTrue (is_script_name bytes.now) }
    ensures { result.now ≡ bytes.now }
{
    match str::from_utf8(bytes) {
        Ok(text) => text,
        Err(_) => unreachable!(),
    }
}
