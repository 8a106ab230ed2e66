//! Floor: programs. Knows of threads in `restyling` alone, and in the top call, which hands them on.
//!
//! Reads a script of edits and frames, restyles, and writes events and computed values.
#![tactic(auto)]

mod answer;
mod arguments;
mod demo;
mod gate;
mod growing;
mod laws;
mod listing;
mod replay;
mod restyling;
mod run;
mod status;
mod tally;
#[cfg(test)]
mod tests;
mod unfailing;

use crate::arguments::words;
use crate::gate::IdleGate;
use crate::run::run;
use crate::status::Status;
use std::process::ExitCode;
use std::{env, io};
use text_io::{StdSink, StdSource};

fn main(rt: HostRuntime) -> ExitCode {
    let alloc = rt.alloc();
    let status = match words(&rt, alloc) {
        Ok(words) => run(
            &rt,
            alloc,
            &words,
            &mut StdSource::new(rt.stdin()),
            &mut StdSink::new(rt.stdout()),
            &IdleGate,
        ),
        Err(status) => status,
    };
    ExitCode::from(status.number())
}
