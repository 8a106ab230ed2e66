//! The script of a seed.
ghost use Rattle.std.specs.Prelude.{◌≡◌, ◌+◌, ◌-◌, ◌*◌, ◌<◌, ◌≤◌, ◌++◌, ◌∷◌, [], IfOk, OnOk, map};
ghost use Rattle.std.specs.List.{range_with_len};
ghost use Rattle.std.specs.String.{string_bytes};
ghost use Rattle.script_gen.specs.Draws.{sequence_number};
ghost use Rattle.script_gen.specs.Lines.{add_lines, change_line, class_word, rounds_lines, script_bytes, bytes_of_lines};

use crate::draws::Draws;
use std::alloc::{AllocError, Global};

const SHEET: &str =
    "sheet 1 p { opacity: 1; width: 10px; color: rgb(0, 0, 0); transition: all 1s linear } .a { opacity: 0 } .b { width: 90px } .c { color: rgb(200, 100, 50) }";

/// Of the root too, which is element 1.
const ELEMENTS: u64 = 2_000;
/// Elements after these have no children.
const PARENTS: u64 = 40;

const ROUNDS: u64 = 60;
/// In each round.
const CHANGES: u64 = 50;

const ROUND_MILLIS: u64 = 200;
/// Every transition has ended by then.
const END_MILLIS: u64 = 20_000;

/// The script of a seed: a sheet, a tree of 2,000 elements, 60 rounds of 50 changes of class and a frame, and a last frame.
pub fn script_of(alloc: Global, seed: u64) -> Result<Vec<u8>, AllocError>
    ensures { IfOk result (λ script. script.items ≡ script_bytes seed) }
{
    let mut script = String::new(alloc);
    let mut draws = Draws { number: seed };
    writeln!(script, "{SHEET}")?;
    writeln!(script, "add 1 - div")?;
    write_adds(&mut script, &mut draws)?;
    writeln!(script, "frame")?;
    write_rounds(&mut script, &mut draws)?;
    writeln!(script, "at {END_MILLIS}")?;
    writeln!(script, "frame")?;
    Ok(script.into_bytes())
}

/// Every element but the root, each below one of those before it.
fn write_adds(script: &mut String, draws: &mut Draws) -> Result<(), AllocError>
    ensures lines { OnOk result (string_bytes script.new ≡ string_bytes script.old ++ bytes_of_lines (add_lines draws.old.number)) }
    ensures number { OnOk result (draws.new.number ≡ sequence_number draws.old.number 1999) }
{
    for node in 2..=ELEMENTS {
        let parent = 1 + draws.draw((node - 1).min(PARENTS));
        writeln!(script, "add {node} {parent} p")?;
    }
    Ok(())
}

/// All rounds.
fn write_rounds(script: &mut String, draws: &mut Draws) -> Result<(), AllocError>
    ensures { OnOk result (string_bytes script.new ≡ string_bytes script.old ++ bytes_of_lines (rounds_lines draws.old.number)) }
{
    for round in 1..=ROUNDS {
        write_changes(script, draws)?;
        let millis = ROUND_MILLIS * round;
        writeln!(script, "at {millis}")?;
        writeln!(script, "frame")?;
    }
    Ok(())
}

/// The changes of one round.
fn write_changes(script: &mut String, draws: &mut Draws) -> Result<(), AllocError>
    ensures lines { OnOk result (string_bytes script.new ≡ string_bytes script.old ++ bytes_of_lines (map (change_line draws.old.number) (range_with_len 0 50))) }
    ensures number { OnOk result (draws.new.number ≡ sequence_number draws.old.number 100) }
{
    for _change in 0..CHANGES {
        let node = 2 + draws.draw(ELEMENTS - 1);
        let word = class_word(draws.draw(4));
        writeln!(script, "class {node}{word}")?;
    }
    Ok(())
}

/// One of three classes after a space, or nothing for none.
fn class_word(choice: u64) -> &'static str
    ensures { result.now ≡ class_word choice }
{
    match choice {
        0 => " a",
        1 => " b",
        2 => " c",
        _ => "",
    }
}
