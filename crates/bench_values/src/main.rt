//! Floor: programs. Nothing is claimed of it but that it is safe.
//!
//! Calls of the crates of values and of transitions in long loops, to be timed from outside: `easings N`
//! reads a list of easings so many times, `outputs N` asks for a curve's output, `decisions N` for a decision
//! on a transition that runs; `fresh N`, `styles N`, `declarations N`, `resting N` and `running N` make so many entries,
//! copies of a style and of declarations, entries at rest and entries in which two transitions run, and `bytes128 N`,
//! `bytes256 N` and `bytes1024 N` so many lists of bytes, whose allocations are to be counted from outside. Without words it
//! prints how many bytes a value, a style and an entry have.
#![tactic(auto)]

mod calls;
mod entries;

use calls::{decisions, easings, outputs};
use fix_num::read_decimal;
use std::alloc::{AllocError, Global};
use std::mem::size_of;
use std::{env, io};
use style_data::{DeclaredSet, Effects, Entry, Style};
use value_types::Value;

const MOST: i64 = 1_000_000_000;

fn main(rt: HostRuntime) -> io::Result<()> {
    let mut words = env::args(&rt)?.skip(1);
    let (Some(name), Some(count)) = (words.next(), words.next()) else {
        return println!(rt;
            "value {} style {} declarations {} effects {} entry {}",
            size_of::<Value>(),
            size_of::<Style>(),
            size_of::<DeclaredSet>(),
            size_of::<Effects>(),
            size_of::<Entry>()
        );
    };
    let Ok(count) = read_decimal(count.as_str(), 0, MOST) else {
        return println!(rt; "no number of calls");
    };
    let count = count.unsigned_abs();
    let found = match name.as_str() {
        "easings" => easings(rt.alloc(), count),
        "outputs" => outputs(count),
        "decisions" => decisions(count),
        name => made(rt.alloc(), name, count)? as u64,
    };
    println!(rt; "{found}")
}

/// Makes so many of what is named, and drops them; answers how many there were.
fn made(alloc: Global, name: &str, count: u64) -> Result<usize, AllocError> {
    match name {
        "fresh" => entries::fresh(alloc, count),
        "styles" => entries::styles(alloc, count),
        "declarations" => entries::declarations(alloc, count),
        "resting" => entries::resting(alloc, count),
        "running" => entries::running(alloc, count),
        "bytes128" => entries::bytes(alloc, 128, count),
        "bytes256" => entries::bytes(alloc, 256, count),
        _ => entries::bytes(alloc, 1024, count),
    }
}
