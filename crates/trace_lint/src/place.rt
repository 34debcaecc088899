//! Where a fault lies, and how a part of the text is shown.

use crate::scan::{byte_at, part_of, value_end};
use std::alloc::{AllocError, Global};

/// The most bytes that are shown of a part.
const SHOWN: usize = 60;

/// A line and a column of a text, both from 1. A line ends at a line feed, a column is a byte.
#[derive(Clone, Copy, Debug, PartialEq, Eq)]
pub struct Place {
    pub line: u32,
    pub column: u32,
}

/// What is at fault in a text.
#[derive(Drop)]
pub struct Fault {
    /// Where it is.
    pub place: Place,
    /// The command, or what else the text has there; empty where nothing is to be shown.
    pub shown: String,
    /// What is wrong with it.
    pub reason: String,
}

/// The place of a byte of a text, or the one behind its last.
pub fn place_of(text: &[u8], at: usize) -> Place {
    let mut place = Place { line: 1, column: 1 };
    for byte in part_of(text, 0, at.min(text.len())) {
        place = if *byte == b'\n' {
            Place {
                line: place.line.saturating_add(1),
                column: 1,
            }
        } else {
            Place {
                column: place.column.saturating_add(1),
                ..place
            }
        };
    }
    place
}

/// The value that begins here, as it stands in the text, in one line.
pub fn shown_at(alloc: Global, text: &[u8], at: usize) -> Result<String, AllocError> {
    shown(alloc, part_of(text, at, value_end(text, at)))
}

/// A part of a text: 60 bytes of it, or fewer where a character would be cut, with each line end
/// and tab as a space; dots stand for what was cut.
pub fn shown(alloc: Global, part: &[u8]) -> Result<String, AllocError> {
    let end = cut(part);
    let mut bytes = Vec::new(alloc);
    for byte in part_of(part, 0, end) {
        bytes.push(if *byte < b' ' { b' ' } else { *byte })?;
    }
    let mut line = match str::from_utf8(&bytes) {
        Ok(line) => String::from_str(alloc, line)?,
        Err(_) => String::new(alloc),
    };
    if end < part.len() {
        line.push_str("...")?;
    }
    Ok(line)
}

/// Where a part is cut: at most 60 bytes from its front, between two characters.
fn cut(part: &[u8]) -> usize {
    if part.len() <= SHOWN {
        return part.len();
    }
    for less in 0..4 {
        if byte_at(part, SHOWN - less) & 0xc0 != 0x80 {
            return SHOWN - less;
        }
    }
    SHOWN
}
