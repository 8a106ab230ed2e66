//! The direction of an iteration.
ghost use Rattle.std.specs.Prelude.{◌≡◌, ◌≤◌, ◌*◌, pos, ◌+ℤ◌, IfSome, option_map, unsigned_abs};
ghost use Rattle.fix_num.specs.declared.limits.TheConstants.{MAX_TIME};
ghost use Rattle.anim_timing.specs.Directions.{directed_progress, is_even, is_forwards};
ghost use Rattle.anim_timing.specs.Ratios.{IsPart};

use crate::iterations::Ratio;
use timing_types::Direction;

/// The directed progress in an iteration, of which `None` is infinite (Web Animations Level 1, "Calculating the directed
/// progress").
pub(crate) fn directed_progress(
    direction: Direction,
    iteration: Option<i128>,
    simple: Ratio,
) -> Ratio
    requires iteration { IfSome iteration (λ i. unsigned_abs i ≤ 2 * MAX_TIME) }
    requires simple { IsPart simple }
    ensures value { result ≡ directed_progress direction iteration simple }
    ensures bounds { IsPart result }
{
    if is_forwards(direction, iteration) {
        return simple;
    }
    Ratio {
        num: simple.den - simple.num,
        den: simple.den,
    }
}

fn is_forwards(direction: Direction, iteration: Option<i128>) -> bool
    requires { IfSome iteration (λ i. unsigned_abs i ≤ 2 * MAX_TIME) }
    ensures { result ≡ is_forwards direction iteration }
{
    match direction {
        Direction::Normal => true,
        Direction::Reverse => false,
        Direction::Alternate => is_even(iteration),
        Direction::AlternateReverse => is_even(following(iteration)),
    }
}

/// The iteration after this one.
fn following(iteration: Option<i128>) -> Option<i128>
    requires { IfSome iteration (λ i. unsigned_abs i ≤ 2 * MAX_TIME) }
    ensures { result ≡ option_map (λ i. i +ℤ pos 1) iteration }
{
    match iteration {
        Some(i) => Some(i + 1),
        None => None,
    }
}

/// Whether an iteration is even; an infinite one counts as even.
fn is_even(iteration: Option<i128>) -> bool
    ensures { result ≡ is_even iteration }
{
    match iteration {
        Some(i) => i.rem_euclid(2) == 0,
        None => true,
    }
}
