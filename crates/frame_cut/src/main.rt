//! A stream of frames from standard input is cut in pooled blocks, and workers hash the frames where
//! they lie. What is told of them is written to standard output. The words are `--workers` and
//! `--block`.
#![tactic(auto)]

use std::alloc::AllocError;
use std::env;
use std::io::{ErrorKind, Write};
use std::process::ExitCode;
use text_ends::{StdSink, StdSource};

mod answer;
mod closing;
mod hashing;
mod line;
mod openings;
mod pages;
mod run;
mod starting;
mod text;

use answer::{Outcome, Status};
use line::line_of;
use run::cut_run;

fn main(rt: HostRuntime) -> ExitCode {
    let outcome = match words(&rt) {
        Err(status) => Outcome::failed(status),
        Ok(words) => {
            let mut source = StdSource::new(rt.stdin());
            let mut sink = StdSink::new(rt.stdout());
            cut_run(&rt, rt.alloc(), &words, &mut source, &mut sink)
        }
    };
    match line_of(rt.alloc(), &outcome) {
        Ok(line) => {
            let _ = rt.stderr().write_all(line.items());
        }
        Err(AllocError) => {}
    }
    ExitCode::from(outcome.status as u8)
}

// The words after the program's name. Words that aren't UTF-8 have no form.
fn words(rt: &HostRuntime) -> Result<Vec<String>, Status> {
    match env::args(rt) {
        Ok(words) => words
            .skip(1)
            .collect(rt.alloc())
            .map_err(|_| Status::Memory),
        Err(error) if error.kind() == ErrorKind::OutOfMemory => Err(Status::Memory),
        Err(_) => Err(Status::Words),
    }
}
