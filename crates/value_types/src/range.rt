//! Ranges of numbers.

ghost use Rattle.std.specs.Prelude.{◌≡◌};

use fix_num::Fix;
use fix_num::limits::MAX_NUMBER;

/// The range of a property's numbers; `Nothing` where none is named.
#[derive(Clone, Copy, Debug, PartialEq, Eq)]
pub enum ValueRange {
    All,
    NotNegative,
    ZeroToOne,
    Nothing,
}

impl ValueRange {
    ghost use Rattle.value_types.specs.Ranges.{highest_of, is_in_range, lowest_of};

    /// Whether the number lies in the range.
    pub fn contains(self, n: Fix) -> bool
        ensures { result ≡ is_in_range self n.0 }
    {
        match self {
            ValueRange::All | ValueRange::Nothing => true,
            ValueRange::NotNegative => n.0 >= 0,
            ValueRange::ZeroToOne => n.0 >= 0 && n.0 <= Fix::ONE.0,
        }
    }

    /// The least number of the range within the limit, in millionths.
    pub fn lowest(self) -> i64
        ensures { result ≡ lowest_of self }
    {
        match self {
            ValueRange::NotNegative | ValueRange::ZeroToOne => 0,
            ValueRange::All | ValueRange::Nothing => -(MAX_NUMBER as i64),
        }
    }

    /// The greatest number of the range within the limit, in millionths.
    pub fn highest(self) -> i64
        ensures { result ≡ highest_of self }
    {
        match self {
            ValueRange::ZeroToOne => Fix::ONE.0,
            ValueRange::All | ValueRange::NotNegative | ValueRange::Nothing => MAX_NUMBER as i64,
        }
    }
}
