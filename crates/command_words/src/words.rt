//! The words of a command line.
ghost use Rattle.std.specs.Prelude.{◌≤◌, IfOk, map};
ghost use Rattle.std.specs.String.{string_bytes};
ghost use Rattle.command_words.specs.CommandLine.{IsReadingOf};
ghost use Rattle.command_words.specs.declared.limits.TheConstants.{MAX_WORKERS};

use crate::number::settings;
use crate::parse::{has_delimiter, parse};
use std::alloc::Global;
use thiserror::Error;

/// What the words of a command line ask for.
#[derive(Clone, Copy, Debug, PartialEq, Eq)]
pub struct Words {
    /// Into how many pieces work is cut: 1 to [`MAX_WORKERS`](crate::MAX_WORKERS).
    pub workers: u32,
    /// The number of the demo that is played in place of a script.
    pub demo: Option<u64>,
}

/// Why words can't be read.
#[derive(Clone, Copy, Debug, PartialEq, Eq, Error)]
pub enum WordsFault {
    /// The words are of no form that the program takes.
    #[error("unknown words on the command line")]
    Usage,
    /// Memory is wanting.
    #[error("out of memory")]
    NoMemory,
}

/// Reads the words behind the program's own name. A delimiter `--` is refused, as are words that ask for help.
pub fn read_words(alloc: Global, words: &[String]) -> Result<Words, WordsFault>
    ensures reading { IsReadingOf (map string_bytes words.now) result }
    ensures workers { IfOk result (λ w. (1 ≤ w.workers) × (w.workers ≤ MAX_WORKERS)) }
{
    if has_delimiter(words) {
        return Err(WordsFault::Usage);
    }
    let matches = parse(alloc, words)?;
    match settings(matches.get_str("workers"), matches.get_str("demo")) {
        Some(words) => Ok(words),
        None => Err(WordsFault::Usage),
    }
}
