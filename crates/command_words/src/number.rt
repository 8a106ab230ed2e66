//! Arguments as numbers.
ghost use Rattle.std.specs.Prelude.{◌≡◌, option_map};
ghost use Rattle.command_words.specs.Arguments.{IsSetting, IsSettingsOf};
ghost use Rattle.command_words.specs.CommandLine.{Demo, Workers};

use crate::limits::{MAX_DIGITS, MAX_WORKERS};
use crate::words::Words;

/// What the arguments of the options ask for, where they are numbers in their bounds.
pub(crate) fn settings(workers: Option<&str>, demo: Option<&str>) -> Option<Words>
    ensures { IsSettingsOf (option_map (λ s. s.now) workers.entry) (option_map (λ s. s.now) demo.entry) result }
{
    let workers = match workers {
        Some(text) => worker_count(text)?,
        None => 1,
    };
    let demo = match demo {
        Some(text) => Some(number(text)?),
        None => None,
    };
    Some(Words { workers, demo })
}

/// The number of workers that a text writes.
fn worker_count(text: &str) -> Option<u32>
    ensures { IsSetting Workers text.now result }
{
    let count = number(text)?;
    if count < 1 || count > MAX_WORKERS as u64 {
        return None;
    }
    Some(count as u32)
}

/// The number that the digits of a text write; a sign isn't one.
fn number(text: &str) -> Option<u64>
    ensures { IsSetting Demo text.now result }
{
    if text.len() > MAX_DIGITS || text.as_bytes().first() == Some(&b'+') {
        return None;
    }
    match text.parse::<u64>() {
        Ok(number) => Some(number),
        Err(_) => None,
    }
}
