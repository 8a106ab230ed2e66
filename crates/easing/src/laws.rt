//! What the definitions say of outputs, as laws over every value.
ghost use Rattle.std.specs.Prelude.{◌≡◌, ◌↔◌, ℕ, ◌^◌, ◌≤◌, ℤ, pos, ◌*ℤ◌, ◌≤ℤ◌, ◌<ℤ◌, Bool, false};
ghost use Rattle.timing_types.specs.Timing.{IsEasing, fewest_steps};
ghost use Rattle.timing_types.specs.declared.easing.Easing.{Easing};
ghost use Rattle.timing_types.specs.declared.easing.Jump.{Jump};
ghost use Rattle.easing.specs.Bezier.{coordinate, input_billionths, ordinate_output, parameter_of, parts, IsParameter, IsUnitCoordinate};
ghost use Rattle.fix_num.specs.Fractions.{IsFraction};
ghost use Rattle.easing.specs.Easings.{output_of, KeepsUnit};

use fix_num::Bill;
use timing_types::Easing;

/// Linear easings and curves give 0 at the input 0.
pub fn starts_at_0()
    ensures linear { (den : ℤ) (before : Bool) → pos 0 <ℤ den → output_of Easing.Linear (pos 0) den before ≡ pos 0 }
    ensures cubic { (x1 y1 x2 y2 den : ℤ) (before : Bool) → IsEasing (Easing.Cubic x1 y1 x2 y2) → pos 0 <ℤ den
        → output_of (Easing.Cubic x1 y1 x2 y2) (pos 0) den before ≡ pos 0 }
{}

/// Each easing gives 1 at the input 1, steps where the before flag isn't set.
pub fn ends_at_1()
    ensures linear { (den : ℤ) (before : Bool) → pos 0 <ℤ den → output_of Easing.Linear den den before ≡ Bill.ONE.0 }
    ensures cubic { (x1 y1 x2 y2 den : ℤ) (before : Bool) → pos 0 <ℤ den
        → output_of (Easing.Cubic x1 y1 x2 y2) den den before ≡ Bill.ONE.0 }
    ensures steps { (count : ℕ) (jump : Jump) (den : ℤ) → fewest_steps jump ≤ count → pos 0 <ℤ den
        → output_of (Easing.Steps count jump) den den false ≡ Bill.ONE.0 }
{}

/// The outputs of linear easings, of steps and of curves with both ordinates from 0 to 1 are from 0 to 1.
pub fn keeps_unit()
    ensures { (e : Easing) (num den : ℤ) (before : Bool) → IsEasing e → KeepsUnit e → pos 0 ≤ℤ num → num ≤ℤ den → pos 0 <ℤ den
        → IsFraction (output_of e num den before) }
{}

/// Such an output never falls as the input rises.
pub fn never_falls()
    ensures { (e : Easing) (num more den : ℤ) (before : Bool) → IsEasing e → KeepsUnit e → pos 0 ≤ℤ num → num ≤ℤ more → pos 0 <ℤ den
        → output_of e num den before ≤ℤ output_of e more den before }
{}

/// A linear output that is a whole number of billionths is exact.
pub fn linear_is_exact()
    ensures { (num den q : ℤ) (before : Bool) → pos 0 <ℤ den → num *ℤ Bill.ONE.0 ≡ q *ℤ den → output_of Easing.Linear num den before ≡ q }
{}

/// An input has exactly one parameter, which the function gives, and a curve's output is the ordinate there.
pub fn one_parameter()
    ensures one { (x1 x2 x : ℤ) (k : ℕ) → pos 0 ≤ℤ x → IsParameter x1 x2 x k ↔ (k ≡ parameter_of x1 x2 x) }
    ensures output { (x1 y1 x2 y2 num den : ℤ) (before : Bool) (k : ℕ) → pos 0 ≤ℤ input_billionths num den → IsParameter x1 x2 (input_billionths num den) k
        → output_of (Easing.Cubic x1 y1 x2 y2) num den before ≡ ordinate_output y1 y2 k }
{}

/// Where the inner control points' coordinates are from 0 to 1, the curve's coordinate never falls along it.
pub fn coordinates_rise()
    ensures { (first second : ℤ) (k m : ℕ) → IsUnitCoordinate first → IsUnitCoordinate second → k ≤ m → m ≤ parts
        → coordinate first second k ≤ℤ coordinate first second m }
{}
