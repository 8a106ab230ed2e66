//! Single calls that are timed.
ghost use Rattle.std.specs.Prelude.{◌≤◌, length};
ghost use Rattle.style_data.specs.Transitions.{IsMoment};

use crate::frames::{ANIMATED, document, moment, sheets};
use anim_timing::progress_at;
use animation_names::{match_names, sampled};
use cascade_sort::declared;
use computed_style::Sampling;
use fix_num::{Fix, Micros};
use keyframes::Sampled;
use std::alloc::{AllocError, Global};
use style_data::Animation;
use value_types::{PropertyId, Value};

/// Which call is timed.
#[derive(Clone, Copy)]
pub enum Call {
    /// The progress of an animation.
    Progress,
    /// The value of a property under a rule of eight keyframes.
    Sample,
    /// The pairing of a list with itself.
    Pairing,
}

/// So many calls.
pub fn calls_of(alloc: Global, call: Call, rounds: u64) -> Result<u64, AllocError> {
    let sheets = sheets(alloc, ANIMATED)?;
    let tree = document(alloc)?;
    if !tree.contains(2) {
        return Ok(0);
    }
    let d = declared(alloc, &sheets, &tree, 2)?;
    let Some(lists) = d.animation_lists()? else {
        return Ok(0);
    };
    let first = match_names(alloc, &[], lists.get(), &sheets, Micros(0), 1, 1)?;
    let mut sum = 0u64;
    for round in 0..rounds {
        let t = moment(round);
        let found = match call {
            Call::Progress => progresses(first.animations.as_slice(), t),
            Call::Sample => values(&sampled(alloc, first.animations.as_slice(), &sheets, t)?),
            Call::Pairing => {
                let again = match_names(
                    alloc,
                    first.animations.as_slice(),
                    lists.get(),
                    &sheets,
                    t,
                    1,
                    1,
                )?;
                again.animations.len() as u64
            }
        };
        sum = sum.wrapping_add(found);
    }
    Ok(sum)
}

fn progresses(animations: &[Animation], t: Micros) -> u64
    requires { IsMoment t.0 }
{
    let mut sum = 0u64;
    for animation in animations {
        if let Some(progress) = progress_at(animation, t) {
            sum = sum.wrapping_add(progress.iteration);
        }
    }
    sum
}

/// A hundred values of one property.
fn values(samples: &Sampled) -> u64 {
    let size = Fix(16_000_000);
    let mut sum = 0u64;
    for _ in 0..100 {
        if let Some(Value::Number(n)) = samples.value(
            PropertyId::Opacity,
            size,
            size,
            size,
            Value::Number(Fix(1_000_000)),
        ) {
            sum = sum.wrapping_add(n.0.unsigned_abs());
        }
    }
    sum
}
