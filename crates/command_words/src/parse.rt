//! The command line as `clap` reads it.
ghost use Rattle.std.specs.Prelude.{◌≡◌, ◌≢◌, map, IfOk};
ghost use Rattle.std.specs.List.{list_any};
ghost use Rattle.std.specs.String.{string_bytes};
ghost use Rattle.clap.specs.Words.{app_of, kind_of};
ghost use Rattle.clap.specs.declared.error.kind.ErrorKind.{ErrorKind};
ghost use Rattle.command_words.specs.Parse.{IsParseOf, app, is_dashes};
ghost use Rattle.command_words.specs.declared.words.WordsFault.{WordsFault};

use crate::words::WordsFault;
use clap::error::ErrorKind;
use clap::{Arg, ArgMatches, Command, Error};
use std::alloc::{AllocError, Global};

/// Whether a word is the delimiter of options, which the parser would take.
pub(crate) fn has_delimiter(words: &[String]) -> bool
    ensures { result ≡ list_any (λ w. is_dashes (string_bytes w)) words.now }
{
    words.iter().any(|word| word.as_str() == "--")
}

/// The options of the words, with their arguments as text.
pub(crate) fn parse<'a>(alloc: Global, words: &'a [String]) -> Result<ArgMatches<'a>, WordsFault>
    ensures { IsParseOf (map string_bytes words.now) result }
{
    let Ok(command) = command(alloc) else {
        return Err(WordsFault::NoMemory);
    };
    match command.try_get_matches_from(words) {
        Ok(matches) => Ok(matches),
        Err(error) => Err(fault(&error)),
    }
}

/// What a refused parse comes to.
fn fault(error: &Error) -> WordsFault
    ensures { result ≡ WordsFault.Usage → kind_of error.now ≢ ErrorKind.OutOfMemory }
{
    match error.kind() {
        ErrorKind::OutOfMemory => WordsFault::NoMemory,
        _ => WordsFault::Usage,
    }
}

/// The command: no word is the program's name, and none asks for help.
fn command<'a>(alloc: Global) -> Result<Command<'a>, AllocError>
    ensures { IfOk result (λ c. app_of c ≡ app) }
{
    Command::new(alloc, "transcript_cli")
        .no_binary_name(true)
        .disable_help_flag(true)
        .arg(Arg::new(alloc, "workers").long("workers"))?
        .arg(Arg::new(alloc, "demo").long("demo"))
}
