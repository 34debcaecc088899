//! Runs a trace from standard input over the pool, and writes the text of the run to standard
//! output; or runs a generated trace, and writes the summary of the run. The words of the command
//! line say which, and how large the pool is.
#![tactic(auto)]

ghost use Rattle.std.specs.Prelude.{◌≡◌, None};

use std::env;
use std::io::{ErrorKind, Write};
use std::process::ExitCode;
use trace_top::{OpenGate, Outcome, Status, StdSink, StdSource, line_of, run};

fn main(rt: HostRuntime) -> ExitCode {
    let outcome = match words(&rt) {
        Err(status) => without_run(status),
        Ok(words) => {
            let mut source = StdSource::new(rt.stdin());
            let mut sink = StdSink::new(rt.stdout());
            run(&rt, rt.alloc(), &words, &mut source, &mut sink, &OpenGate)
        }
    };
    // Where there is no memory for the line, the status alone tells.
    if let Ok(line) = line_of(rt.alloc(), &outcome) {
        let _ = rt.stderr().write_all(line.items());
    }
    ExitCode::from(outcome.status as u8)
}

// The words after the program's name. Words that aren't UTF-8 have no form.
fn words(rt: &HostRuntime) -> Result<Vec<String>, Status> {
    match env::args(rt) {
        Ok(words) => words
            .skip(1)
            .collect(rt.alloc())
            .map_err(|_| Status::Memory),
        Err(error) if error.kind() == ErrorKind::OutOfMemory => Err(Status::Memory),
        Err(_) => Err(Status::Words),
    }
}

// The outcome where no trace could be asked for.
fn without_run(status: Status) -> Outcome
    ensures { result ≡ record { status = status; run = None; refusal = None } }
{
    Outcome {
        status,
        run: None,
        refusal: None,
    }
}
