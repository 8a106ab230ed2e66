//! The loops.
ghost use Rattle.std.specs.Prelude.{◌≤◌, ◌^◌, pos, ◌≤ℤ◌};
ghost use Rattle.style_data.specs.Transitions.{IsMoment};
ghost use Rattle.timing_types.specs.Timing.{IsEasing};
ghost use Rattle.value_types.specs.declared.property.PropertyId.{PropertyId};

use crate::entries::fade;
use css_token::tokens;
use easing::output;
use fix_num::{Bill, Fix, Micros};
use list_text::read_list;
use std::alloc::Global;
use timing_types::Easing;
use transition_list::{Match, MatchedItem};
use transition_start::decide;
use value_types::{ListName, PropertyId, Value};

/// A list of thirty-two easings, of 910 bytes.
const EASINGS: &str =
    "cubic-bezier(0.25, 0.1, 0.25, 1.0), cubic-bezier(0.25, 0.1, 0.25, 1.0), cubic-bezier(0.25, 0.1, 0.25, 1.0), cubic-bezier(0.25, 0.1, 0.25, 1.0), cubic-bezier(0.25, 0.1, 0.25, 1.0), cubic-bezier(0.25, 0.1, 0.25, 1.0), cubic-bezier(0.25, 0.1, 0.25, 1.0), cubic-bezier(0.25, 0.1, 0.25, 1.0), cubic-bezier(0.25, 0.1, 0.25, 1.0), cubic-bezier(0.25, 0.1, 0.25, 1.0), cubic-bezier(0.25, 0.1, 0.25, 1.0), cubic-bezier(0.25, 0.1, 0.25, 1.0), cubic-bezier(0.25, 0.1, 0.25, 1.0), cubic-bezier(0.25, 0.1, 0.25, 1.0), cubic-bezier(0.25, 0.1, 0.25, 1.0), cubic-bezier(0.25, 0.1, 0.25, 1.0), steps(4, jump-both), steps(4, jump-both), steps(4, jump-both), steps(4, jump-both), steps(4, jump-both), steps(4, jump-both), steps(4, jump-both), steps(4, jump-both), steps(4, jump-both), steps(4, jump-both), steps(4, jump-both), steps(4, jump-both), steps(4, jump-both), steps(4, jump-both), steps(4, jump-both), steps(4, jump-both)";

/// Reads the list so many times; answers how often it was one.
pub(crate) fn easings(alloc: Global, count: u64) -> u64 {
    let mut found: u64 = 0;
    for _ in 0..count {
        if is_list(alloc, EASINGS) {
            found = found.saturating_add(1);
        }
    }
    found
}

fn is_list(alloc: Global, text: &str) -> bool {
    if text.len() > 10_000 {
        return false;
    }
    match tokens(alloc, text) {
        Ok(tokens) => read_list(alloc, ListName::TransitionEasing, text, tokens.as_slice()).is_ok(),
        Err(_) => false,
    }
}

/// The outputs of `ease` at so many inputs, exclusive-or'ed.
pub(crate) fn outputs(count: u64) -> u64 {
    let mut sum: u64 = 0;
    for i in 0..count {
        let Bill(q) = output(Easing::ease(), i128::from(i % 1_000_000), 1_000_000, false);
        sum ^= q.unsigned_abs();
    }
    sum
}

/// Decides at so many times on a change back to 0; answers how often the transition was reversed.
pub(crate) fn decisions(count: u64) -> u64 {
    let mut reversed: u64 = 0;
    for i in 0..count {
        if reverses_at((i % 1_000_000) as u32) {
            reversed = reversed.saturating_add(1);
        }
    }
    reversed
}

fn reverses_at(t: u32) -> bool {
    let item = Match::new(MatchedItem {
        duration: Micros(1_000_000),
        delay: Micros(0),
        easing: Easing::Linear,
    });
    let decision = decide(
        PropertyId::Opacity,
        Some(&fade()),
        None,
        Value::Number(Fix(0)),
        Value::Number(Fix(0)),
        Some(item),
        Micros(i64::from(t)),
        2,
        0,
    );
    decision.running.is_some()
}
