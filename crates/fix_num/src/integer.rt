//! Integers as text.
ghost use Rattle.std.specs.Prelude.{◌≡◌, ◌==◌, not};
ghost use Rattle.std.specs.List.{list_all};
ghost use Rattle.fix_num.specs.Integer.{has_no_point};

/// Whether no point stands in the text. A decimal without a point is an integer (CSS Values and Units Level 3,
/// "Integers: the <integer> type").
pub fn has_no_point(text: &[u8]) -> bool
    ensures { result ≡ has_no_point text.now }
{
    text.iter().all(|byte| *byte != b'.')
}
