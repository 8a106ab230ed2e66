//! Keywords, whose ASCII case doesn't count (CSS Values 4, "Pre-defined Keywords").
ghost use Rattle.std.specs.Prelude.{◌≡◌, map};
ghost use Rattle.token_parts.specs.Keywords.{look_up, is_keyword};

/// Whether the word is this keyword, whatever the ASCII case of either.
pub fn is_keyword(word: &[u8], keyword: &[u8]) -> bool
    ensures { result ≡ is_keyword word.now keyword.now }
{
    word.eq_ignore_ascii_case(keyword)
}

/// The value of the first row that has this word as its name, whatever the ASCII case of either.
pub fn look_up<V: Copy>(rows: &[(&str, V)], word: &[u8]) -> Option<V>
    ensures { result ≡ look_up (map (λ row. (row.0.now, row.1)) rows.now) word.now }
{
    for row in rows {
        if is_keyword(word, row.0.as_bytes()) {
            return Some(row.1);
        }
    }
    None
}
