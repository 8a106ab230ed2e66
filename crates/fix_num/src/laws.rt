//! What holds of decimals, of their printing and of rounding, by the definitions alone.
ghost use Rattle.std.specs.Prelude.{◌≡◌, ◌↔◌, ℕ, ◌+◌, ◌*◌, ◌^◌, ◌<◌, ◌≤◌, ℤ, pos, ◌<ℤ◌, unsigned_abs, List, ◌++◌, length, IsTrue, false};
ghost use Rattle.std.specs.Str.Parse.{digits_value};
ghost use Rattle.fix_num.specs.Decimal.{Decimal, IsDecimal, Stands, decimal_of, is_exact, reading_of, units_of};
ghost use Rattle.fix_num.specs.Print.{IsShortest, decimal_text};
ghost use Rattle.fix_num.specs.Rounded.{StandsNear, rounded_reading_of};
ghost use Rattle.fix_num.specs.Rounding.{IsNearest, rounded_quotient};

use crate::decimal::NumFault;

/// What spells a decimal is read as that decimal, and nothing else is: a text is at most one.
pub fn one_number()
    ensures { (text : List ℕ) (d : Decimal) → IsDecimal text d ↔ (decimal_of text ≡ Some d) }
{}

/// A reading gives the number that the text stands for where the limit holds it, and each fault has its one cause.
pub fn reading_is_exact()
    ensures number { (places limit : ℕ) (text : List ℕ) (v : ℤ)
        → (reading_of places limit text ≡ Ok v) ↔ (Stands places text v × (unsigned_abs v ≤ limit)) }
    ensures syntax { (places limit : ℕ) (text : List ℕ)
        → (reading_of places limit text ≡ Err NumFault.Syntax) ↔ ((d : Decimal) → IsDecimal text d → ⊥) }
    ensures too_fine { (places limit : ℕ) (text : List ℕ)
        → (reading_of places limit text ≡ Err NumFault.TooFine) ↔ ((d : Decimal) × IsDecimal text d × (is_exact places d ≡ false)) }
    ensures too_large { (places limit : ℕ) (text : List ℕ)
        → (reading_of places limit text ≡ Err NumFault.TooLarge) ↔ ((v : ℤ) × Stands places text v × (limit < unsigned_abs v)) }
{}

/// Where only zeros stand after the last place, the units are the value of all digits, with nothing lost.
pub fn exact_value()
    ensures { (places : ℕ) (d : Decimal) → IsTrue (is_exact places d)
        → units_of places d * 10 ^ length d.fraction ≡ digits_value 10 (d.whole ++ d.fraction) * 10 ^ places }
{}

/// A printed number reads back as itself.
pub fn printed_reads_back()
    ensures { (places limit : ℕ) (v : ℤ) → unsigned_abs v ≤ limit → unsigned_abs v < 2 ^ 64
        → reading_of places limit (decimal_text places v) ≡ Ok v }
{}

/// The printed text is the shortest that CSS serializes: a `-` exactly where the number is negative, no `+`, no zero
/// before another digit and none at the end.
pub fn printed_is_shortest()
    ensures { (places : ℕ) (v : ℤ) → unsigned_abs v < 2 ^ 64
        → (d : Decimal) × IsDecimal (decimal_text places v) d × IsShortest (decimal_text places v) d × (IsTrue d.negative ↔ (v <ℤ pos 0)) }
{}

/// The rounding gives the nearest number, the greater one of two that are as near, and no other number is so.
pub fn rounds_to_nearest()
    ensures nearest { (a b : ℤ) → pos 0 <ℤ b → IsNearest a b (rounded_quotient a b) }
    ensures only { (a b r : ℤ) → pos 0 <ℤ b → IsNearest a b r → r ≡ rounded_quotient a b }
{}

/// A rounded reading gives the number nearest to what the text stands for, halves towards plus infinity, where the limit
/// holds it, and each fault has its one cause.
pub fn rounded_reading_is_exact()
    ensures number { (places limit : ℕ) (text : List ℕ) (v : ℤ)
        → (rounded_reading_of places limit text ≡ Ok v) ↔ (StandsNear places text v × (unsigned_abs v ≤ limit)) }
    ensures syntax { (places limit : ℕ) (text : List ℕ)
        → (rounded_reading_of places limit text ≡ Err NumFault.Syntax) ↔ ((d : Decimal) → IsDecimal text d → ⊥) }
    ensures too_large { (places limit : ℕ) (text : List ℕ)
        → (rounded_reading_of places limit text ≡ Err NumFault.TooLarge) ↔ ((v : ℤ) × StandsNear places text v × (limit < unsigned_abs v)) }
    ensures never_too_fine { (places limit : ℕ) (text : List ℕ) → rounded_reading_of places limit text ≡ Err NumFault.TooFine → ⊥ }
{}

/// What is read exactly is read as the same number when it is rounded.
pub fn rounded_reading_is()
    ensures { (places limit : ℕ) (text : List ℕ) (v : ℤ) → reading_of places limit text ≡ Ok v → rounded_reading_of places limit text ≡ Ok v }
{}
