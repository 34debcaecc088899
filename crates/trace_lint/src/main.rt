//! Reads a trace from standard input, and says whether it is accepted; where it is refused, at
//! which place of the text, and why. It takes no words.
#![tactic(auto)]

use std::env;
use std::io::{ErrorKind, Write};
use std::process::ExitCode;

mod commands;
mod forms;
mod items;
mod keys;
mod lanes;
mod limits;
mod line;
mod lint;
mod options;
mod place;
mod run;
mod scan;
mod shape;
mod stuck;
mod syntax;

use run::{Status, run as lint_all};

fn main(rt: HostRuntime) -> ExitCode {
    let status = match asked(&rt) {
        Ok(()) => lint_all(rt.alloc(), &mut rt.stdin(), &mut rt.stdout()),
        Err(status) => status,
    };
    let _ = rt.stderr().write_all(status.line().as_bytes());
    ExitCode::from(status as u8)
}

/// There are no words after the program's name.
fn asked(rt: &HostRuntime) -> Result<(), Status> {
    match env::args(rt) {
        Ok(words) => {
            if words.count() > 1 {
                Err(Status::Words)
            } else {
                Ok(())
            }
        }
        Err(error) if error.kind() == ErrorKind::OutOfMemory => Err(Status::Memory),
        Err(_) => Err(Status::Words),
    }
}
