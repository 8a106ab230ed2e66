//! What the definitions say of reversals, as laws over every value.
ghost use Rattle.std.specs.Prelude.{◌≡◌, ℤ, pos, ◌-ℤ◌, ◌+ℤ◌, ◌≤ℤ◌};
ghost use Rattle.reversing.specs.Reversal.{IsFactor, part_of, reversed_delay, reversed_end, reversed_start, shortened};

use fix_num::Bill;

/// A reversing transition lasts no longer than its duration, and doesn't end before it starts.
pub fn never_lasts_longer()
    ensures ordered { (t delay duration factor : ℤ) → IsFactor factor → pos 0 ≤ℤ duration
        → reversed_start t delay factor ≤ℤ reversed_end t delay duration factor }
    ensures shorter { (t delay duration factor : ℤ) → IsFactor factor → pos 0 ≤ℤ duration
        → reversed_end t delay duration factor ≤ℤ (reversed_start t delay factor +ℤ duration) }
{}

/// A reversal at the output 0 leaves what the old factor leaves of 1, and one at the output 1 leaves 1.
pub fn factor_at_the_ends()
    ensures start { (factor : ℤ) → IsFactor factor → shortened factor (pos 0) ≡ Bill.ONE.0 -ℤ factor }
    ensures end { (factor : ℤ) → shortened factor Bill.ONE.0 ≡ Bill.ONE.0 }
{}

/// The factor 1 leaves the delay and the duration as they are.
pub fn full_factor_changes_nothing()
    ensures part { (v : ℤ) → part_of Bill.ONE.0 v ≡ v }
    ensures delay { (delay : ℤ) → reversed_delay Bill.ONE.0 delay ≡ delay }
{}
