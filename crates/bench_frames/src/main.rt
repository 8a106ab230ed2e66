//! Floor: programs. Nothing is claimed of it but that it is safe.
//!
//! Style change events of a document of 4,096 elements, to be timed from outside: `first N` styles N new documents, `still N` has N
//! events at which nothing changes, `running N` N events while two transitions of each element run, `starts N` N events at which
//! each element starts two, and `animated N` N events while an animation of eight keyframes runs on each. `progress N`, `sample N`
//! (a hundred values at a time) and `pairing N` are single calls of that animation.
#![tactic(auto)]

mod frames;
mod samples;

use fix_num::read_decimal;
use frames::{Work, rounds_of};
use samples::{Call, calls_of};
use std::{env, io};

const MOST: i64 = 1_000_000;

fn main(rt: HostRuntime) -> io::Result<()> {
    let mut words = env::args(&rt)?.skip(1);
    let (Some(name), Some(count)) = (words.next(), words.next()) else {
        return println!(rt;
            "first, still, running, starts, animated, progress, sample or pairing, and how often"
        );
    };
    let Ok(count) = read_decimal(count.as_str(), 0, MOST) else {
        return println!(rt; "no number of rounds");
    };
    let rounds = count.unsigned_abs();
    let found = match name.as_str() {
        "first" => rounds_of(rt.alloc(), Work::First, rounds),
        "still" => rounds_of(rt.alloc(), Work::Still, rounds),
        "running" => rounds_of(rt.alloc(), Work::Running, rounds),
        "starts" => rounds_of(rt.alloc(), Work::Starts, rounds),
        "progress" => calls_of(rt.alloc(), Call::Progress, rounds).unwrap_or(0),
        "sample" => calls_of(rt.alloc(), Call::Sample, rounds).unwrap_or(0),
        "pairing" => calls_of(rt.alloc(), Call::Pairing, rounds).unwrap_or(0),
        _ => rounds_of(rt.alloc(), Work::Animated, rounds),
    };
    println!(rt; "{found}")
}
