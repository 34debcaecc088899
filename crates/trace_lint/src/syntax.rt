//! Where a text stops being JSON.

use crate::place::{Fault, Place};
use crate::scan::depth_before;
use serde_json::{Error, Value};
use std::alloc::{AllocError, Global};

/// How deep arrays and objects may stand in one another.
const MOST_DEEP: usize = 127;

/// Why a text is no JSON, and where: at the place that `serde_json` names.
pub fn syntax_fault(alloc: Global, text: &[u8]) -> Result<Fault, AllocError> {
    match Value::from_slice(alloc, text) {
        Ok(_) => fault(alloc, 1, 1, "this is no JSON"),
        Err(error) if error.is_memory() => Err(AllocError),
        Err(error) => {
            let told = format!(in alloc; "{error}")?;
            let reason = reason(text, &error, told.as_str());
            fault(alloc, error.line(), error.column(), reason)
        }
    }
}

fn fault(alloc: Global, line: usize, column: usize, reason: &str) -> Result<Fault, AllocError> {
    Ok(Fault {
        place: Place {
            line: counted(line),
            column: counted(column),
        },
        shown: String::new(alloc),
        reason: String::from_str(alloc, reason)?,
    })
}

/// A line or a column that counts from 1.
fn counted(number: usize) -> u32 {
    u32::try_from(number.max(1)).unwrap_or(u32::MAX)
}

fn reason(text: &[u8], error: &Error, told: &str) -> &'static str {
    if str::from_utf8(text).is_err() {
        "from here on the text is no UTF-8"
    } else if error.is_eof() {
        "the text ends before its JSON does"
    } else if told.starts_with("number") {
        "the number before this is too large for JSON"
    } else if depth_before(text, error.line(), error.column()) > MOST_DEEP {
        "more than 127 arrays and objects stand in one another"
    } else {
        "what begins here is no JSON"
    }
}
