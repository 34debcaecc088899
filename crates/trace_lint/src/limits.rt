//! Faults of a trace that passes a limit. The place is that of the first that is too much, by
//! lanes and lines.

use crate::lanes::{Lanes, items_of, word_text};
use crate::place::Fault;
use crate::shape::{bare_fault, plain_fault};
use serde_json::Value;
use std::alloc::{AllocError, Global};
use trace_text::{
    BYTE_LIMIT, COMMAND_LIMIT, LANE_LIMIT, Limit, TEXT_LIMIT, Word, number_of, word_from,
};

const TEXT_REASON: &str = "a text has at most 16,777,216 bytes, and this is one more";

const LANES_REASON: &str = "a trace has at most 16 lanes, and this is one more";

const COMMANDS_REASON: &str = "a trace has at most 65,536 commands, and this is one more";

const BYTES_REASON: &str = "get, tryget and read ask for at most 67,108,864 bytes together, \
    and with this they ask for more";

/// What passes the limit of a text.
pub fn text_fault(alloc: Global, text: &[u8]) -> Result<Fault, AllocError> {
    bare_fault(alloc, text, TEXT_LIMIT, TEXT_REASON)
}

/// What passes a limit in these lanes.
pub fn limit_fault(alloc: Global, lanes: Lanes<'_>, limit: Limit) -> Result<Fault, AllocError> {
    match limit {
        Limit::Text => text_fault(alloc, lanes.text),
        Limit::Lanes => plain_fault(
            alloc,
            lanes.text,
            lanes.lane_place(LANE_LIMIT),
            LANES_REASON,
        ),
        Limit::Commands => {
            let (lane, line) = command_past(lanes);
            let at = lanes.row_place(lane, line);
            plain_fault(alloc, lanes.text, at, COMMANDS_REASON)
        }
        Limit::Bytes => {
            let (lane, line) = byte_past(lanes);
            let at = lanes.row_place(lane, line);
            plain_fault(alloc, lanes.text, at, BYTES_REASON)
        }
    }
}

/// The lane and the line of the first command past their limit.
fn command_past(lanes: Lanes<'_>) -> (usize, usize) {
    let mut left = COMMAND_LIMIT;
    for (lane, value) in lanes.values().iter().enumerate() {
        let count = items_of(value).len();
        if count > left {
            return (lane, left);
        }
        left -= count;
    }
    (0, 0)
}

/// The lane and the line of the first command with which the bytes pass their limit.
fn byte_past(lanes: Lanes<'_>) -> (usize, usize) {
    let mut left = BYTE_LIMIT;
    for (lane, value) in lanes.values().iter().enumerate() {
        match left_behind(items_of(value), left) {
            Ok(bytes) => left = bytes,
            Err(line) => return (lane, line),
        }
    }
    (0, 0)
}

/// What these rows leave of so many bytes, or the line of the first that asks for more.
fn left_behind(rows: &[Value], most: u64) -> Result<u64, usize> {
    let mut left = most;
    for (line, row) in rows.iter().enumerate() {
        let asked = bytes_asked(row);
        if asked > left {
            return Err(line);
        }
        left -= asked;
    }
    Ok(left)
}

/// The bytes that a row asks to see: its last item, where it is a `get`, a `tryget` or a `read`.
fn bytes_asked(row: &Value) -> u64 {
    match word_from(word_text(row)) {
        Some(Word::Get | Word::TryGet | Word::Read) => {
            let count = items_of(row).last().and_then(|count| number_of(count));
            count.map_or(0, u64::from)
        }
        _ => 0,
    }
}
