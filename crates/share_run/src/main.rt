//! Readers on threads of their own read composites of a pool that they share, as a text from
//! standard input asks, and what they saw is written to standard output. It takes no words.
#![tactic(auto)]

use std::env;
use std::io::{ErrorKind, Write};
use std::process::ExitCode;
use text_ends::{StdSink, StdSource};

mod answer;
mod closing;
mod cores;
mod dealing;
mod openings;
mod parts;
mod play;
mod readers;
mod reading;
mod run;
mod wholes;

use answer::Status;
use run::share_run;

fn main(rt: HostRuntime) -> ExitCode {
    let status = match words(&rt) {
        Err(status) => status,
        Ok(words) => {
            let mut source = StdSource::new(rt.stdin());
            let mut sink = StdSink::new(rt.stdout());
            share_run(&rt, rt.alloc(), &words, &mut source, &mut sink).status
        }
    };
    let _ = rt.stderr().write_all(status.line().as_bytes());
    ExitCode::from(status as u8)
}

// The words after the program's name. Words that aren't UTF-8 are words.
fn words(rt: &HostRuntime) -> Result<Vec<String>, Status> {
    match env::args(rt) {
        Ok(words) => words
            .skip(1)
            .collect(rt.alloc())
            .map_err(|_| Status::Memory),
        Err(error) if error.kind() == ErrorKind::OutOfMemory => Err(Status::Memory),
        Err(_) => Err(Status::Words),
    }
}
