//! Floor: programs. Nothing is claimed of it but that it is safe.
//!
//! Documents of 65,536 elements, to be timed from outside: `adds N` makes one below random parents N times, `edits N`
//! removes and inserts 30,000 elements of it, `walks N` goes over it in tree order, and `matches N` tries 100 selectors of three
//! compounds on each of its elements. `winners N` asks N times for the winners of 4,096 elements under a sheet of 4,096 rules.
//! `sheet N` reads a sheet of 4,096 rules, `few N` and `many N` style attributes of three and of twenty declarations;
//! `sheet_tokens N` and its like go over the tokens of the same texts and do nothing else.
#![tactic(auto)]

mod cascade;
mod document;
mod sheets;
mod works;

use cascade::winners;
use fix_num::read_decimal;
use sheets::{Text, rounds_over};
use std::{env, io};
use works::{adds, edits, matching, walks};

const MOST: i64 = 1_000_000;

fn main(rt: HostRuntime) -> io::Result<()> {
    let mut words = env::args(&rt)?.skip(1);
    let (Some(name), Some(count)) = (words.next(), words.next()) else {
        return println!(rt;
            "adds, edits, walks, matches, winners, sheet, few or many, and how often"
        );
    };
    let Ok(count) = read_decimal(count.as_str(), 0, MOST) else {
        return println!(rt; "no number of rounds");
    };
    let rounds = count.unsigned_abs();
    let found = match name.as_str() {
        "adds" => adds(rt.alloc(), rounds),
        "edits" => edits(rt.alloc(), rounds),
        "few" => rounds_over(rt.alloc(), Text::Few, false, rounds),
        "few_tokens" => rounds_over(rt.alloc(), Text::Few, true, rounds),
        "many" => rounds_over(rt.alloc(), Text::Many, false, rounds),
        "many_tokens" => rounds_over(rt.alloc(), Text::Many, true, rounds),
        "sheet" => rounds_over(rt.alloc(), Text::Sheet, false, rounds),
        "sheet_tokens" => rounds_over(rt.alloc(), Text::Sheet, true, rounds),
        "walks" => walks(rt.alloc(), rounds),
        "winners" => winners(rt.alloc(), rounds),
        _ => matching(rt.alloc(), rounds),
    };
    println!(rt; "{found}")
}
