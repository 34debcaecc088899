//! Draws a run, read with its trace and its text with history from standard input, as one SVG on standard
//! output. The words `--root P.G` ask for a track of that root.
#![tactic(auto)]

use std::env;
use std::io::{ErrorKind, Write};
use std::process::ExitCode;
use text_ends::{StdSink, StdSource};

mod answer;
mod roots;
mod run;

use answer::{Outcome, Status, line_for};
use run::run_view;

fn main(rt: HostRuntime) -> ExitCode {
    let outcome = match words(&rt) {
        Err(status) => Outcome {
            status,
            fault: None,
        },
        Ok(words) => {
            let mut source = StdSource::new(rt.stdin());
            let mut sink = StdSink::new(rt.stdout());
            run_view(rt.alloc(), &words, &mut source, &mut sink)
        }
    };
    tell(&rt, &outcome);
    ExitCode::from(outcome.status as u8)
}

// Writes what went wrong to standard error.
fn tell(rt: &HostRuntime, outcome: &Outcome) {
    match outcome.fault {
        None => {
            let line = line_for(outcome.status);
            let _ = rt.stderr().write_all(line.as_bytes());
        }
        Some(fault) => {
            let _ = eprintln!(rt; "{fault}");
        }
    }
}

// The words after the program's name. Words that aren't UTF-8 have no form.
fn words(rt: &HostRuntime) -> Result<Vec<String>, Status> {
    match env::args(rt) {
        Ok(words) => words
            .skip(1)
            .collect(rt.alloc())
            .map_err(|_| Status::Memory),
        Err(error) if error.kind() == ErrorKind::OutOfMemory => Err(Status::Memory),
        Err(_) => Err(Status::Words),
    }
}
