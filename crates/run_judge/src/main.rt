//! Judges a run by its trace and its text with history, from standard input, and writes to standard output
//! whether the pool can have made it. It takes no words.
#![tactic(auto)]

use std::env;
use std::io::{ErrorKind, Write};
use std::process::ExitCode;
use text_ends::{StdSink, StdSource};

mod answer;
mod breach;
mod run;
mod text;

use answer::{Outcome, Status, line_for};
use run::run_judge;

fn main(rt: HostRuntime) -> ExitCode {
    let outcome = match words(&rt) {
        Err(status) => Outcome {
            status,
            fault: None,
        },
        Ok(words) => {
            let mut source = StdSource::new(rt.stdin());
            let mut sink = StdSink::new(rt.stdout());
            run_judge(rt.alloc(), &words, &mut source, &mut sink)
        }
    };
    tell(&rt, &outcome);
    ExitCode::from(outcome.status as u8)
}

// Writes what went wrong to standard error.
fn tell(rt: &HostRuntime, outcome: &Outcome) {
    match outcome.fault {
        None => {
            let line = line_for(outcome.status);
            let _ = rt.stderr().write_all(line.as_bytes());
        }
        Some(fault) => {
            let _ = eprintln!(rt; "{fault}");
        }
    }
}

// The words after the program's name. Words that aren't UTF-8 are words.
fn words(rt: &HostRuntime) -> Result<Vec<String>, Status> {
    match env::args(rt) {
        Ok(words) => words
            .skip(1)
            .collect(rt.alloc())
            .map_err(|_| Status::Memory),
        Err(error) if error.kind() == ErrorKind::OutOfMemory => Err(Status::Memory),
        Err(_) => Err(Status::Words),
    }
}
