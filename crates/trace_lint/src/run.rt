//! A run of the program: from a reader to a writer.

use crate::line::line_of;
use crate::lint::lint;
use std::alloc::Global;
use std::io::{Read, Write};
use trace_text::TEXT_LIMIT;

/// The bytes that one read may give.
const PIECE: usize = 4096;

/// How a run of the program ended. The number is the program's exit status.
#[derive(Clone, Copy, Debug, PartialEq, Eq)]
pub enum Status {
    /// The text is a trace.
    Accepted = 0,
    /// The program was given words.
    Words = 2,
    /// The text is no trace.
    Refused = 3,
    /// A read failed.
    ReadFault = 4,
    /// A write failed.
    WriteFault = 5,
    /// There was no memory.
    Memory = 6,
}

impl Status {
    /// The line for standard error.
    pub fn line(self) -> &'static str {
        match self {
            Status::Accepted | Status::Refused => "",
            Status::Words => "refused words\n",
            Status::ReadFault => "read fault\n",
            Status::WriteFault => "write fault\n",
            Status::Memory => "out of memory\n",
        }
    }
}

/// Reads a text, and writes where and why it is refused.
pub fn run<R: Read, W: Write>(alloc: Global, source: &mut R, sink: &mut W) -> Status {
    let text = match read_text(alloc, source) {
        Ok(text) => text,
        Err(status) => return status,
    };
    let Ok(found) = lint(alloc, &text) else {
        return Status::Memory;
    };
    let Ok(line) = line_of(alloc, &found) else {
        return Status::Memory;
    };
    if sink.write_all(line.as_str().as_bytes()).is_err() || sink.flush().is_err() {
        return Status::WriteFault;
    }
    match found {
        None => Status::Accepted,
        Some(_) => Status::Refused,
    }
}

/// All that the source gives, or the first bytes of it where that is longer than a text may be.
fn read_text<R: Read>(alloc: Global, source: &mut R) -> Result<Vec<u8>, Status> {
    let mut text = Vec::new(alloc);
    let mut piece = [0u8; PIECE];
    for _ in 0..=TEXT_LIMIT {
        let room = PIECE.min((TEXT_LIMIT + 1).saturating_sub(text.len()));
        if room == 0 {
            return Ok(text);
        }
        match source.read(&mut piece[..room]) {
            Ok(0) => return Ok(text),
            Ok(count) => {
                if text.extend_from_slice(&piece[..count]).is_err() {
                    return Err(Status::Memory);
                }
            }
            Err(_) => return Err(Status::ReadFault),
        }
    }
    Ok(text)
}
