//! The words of the command line.
ghost use Rattle.std.specs.Prelude.{◌≡◌, ◌⊎◌, IfErr};
ghost use Rattle.transcript_cli.specs.declared.status.Status.{Status};

use crate::status::Status;
use std::alloc::Global;
use std::rt::Env;
use std::{env, io};

/// The words behind the program's own name. Words that can't be had as text are of no form that the program takes.
pub(crate) fn words<R: Env + AllocGlobal>(rt: &R, alloc: Global) -> Result<Vec<String>, Status>
    ensures { IfErr result (λ status. (status ≡ Status.NoMemory) ⊎ (status ≡ Status.Usage)) }
{
    let args = match env::args(rt) {
        Ok(args) => args,
        Err(error) => return Err(status_of(error.kind())),
    };
    let mut words = Vec::new(alloc);
    for word in args.skip(1) {
        if words.push(word).is_err() {
            return Err(Status::NoMemory);
        }
    }
    Ok(words)
}

fn status_of(kind: io::ErrorKind) -> Status
    ensures { (result ≡ Status.NoMemory) ⊎ (result ≡ Status.Usage) }
{
    match kind {
        io::ErrorKind::OutOfMemory => Status::NoMemory,
        _ => Status::Usage,
    }
}
