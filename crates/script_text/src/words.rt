//! The words of a script's line.
ghost use Rattle.std.specs.Prelude.{◌≡◌, ◌≤◌, ◌<◌, false, length, reverse, take_while};
ghost use Rattle.script_text.specs.Words.{after_word, begins_with_space, first_word, is_space_byte, is_word_byte, trimmed, without_back, without_front};

/// The line without the spaces at its ends.
#[tactic(auto, unfolding(crate::specs::Words::trimmed))]
pub(crate) fn trimmed(line: &[u8]) -> &[u8]
    ensures { result.now ≡ trimmed line.now }
{
    without_back(without_front(line))
}

fn without_front(bytes: &[u8]) -> &[u8]
    ensures value { result.now ≡ without_front bytes.now }
    ensures shorter { length result.now ≤ length bytes.now }
{
    bytes.split_at(space_count(bytes)).1
}

fn without_back(bytes: &[u8]) -> &[u8]
    ensures { result.now ≡ without_back bytes.now }
{
    let spaces = back_space_count(bytes);
    bytes.split_at(bytes.len() - spaces).0
}

/// How many spaces the bytes begin with.
fn space_count(bytes: &[u8]) -> usize
    ensures count { result ≡ length (take_while is_space_byte bytes.now) }
    ensures bound { result ≤ length bytes.now }
{
    bytes.iter().take_while(|b| **b == b' ').count()
}

/// How many spaces the bytes end with.
fn back_space_count(bytes: &[u8]) -> usize
    ensures count { result ≡ length (take_while is_space_byte (reverse bytes.now)) }
    ensures bound { result ≤ length bytes.now }
{
    bytes.iter().rev().take_while(|b| **b == b' ').count()
}

/// How many bytes the first word has.
fn word_length(bytes: &[u8]) -> usize
    ensures count { result ≡ length (take_while is_word_byte bytes.now) }
    ensures bound { result ≤ length bytes.now }
{
    bytes.iter().take_while(|b| !(**b == b' ')).count()
}

/// The first word of a text that begins with no space, and what follows it without the spaces between.
pub(crate) fn split_word(bytes: &[u8]) -> (&[u8], &[u8])
    ensures word { result.0.now ≡ first_word bytes.now }
    ensures after { result.1.now ≡ after_word bytes.now }
    ensures solid { begins_with_space result.1.now ≡ false }
    ensures shorter { 0 < length result.0.now → length result.1.now < length bytes.now }
{
    let (word, after) = bytes.split_at(word_length(bytes));
    (word, without_front(after))
}
