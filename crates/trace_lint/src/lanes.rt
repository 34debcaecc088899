//! The lanes of a text, with their places in it.

use crate::keys::member_place;
use crate::scan::{after_space, item_place};
use serde_json::Value;
use std::alloc::{AllocError, Global};
use trace_text::array_of;

/// A text that is JSON, and what stands in it for the lanes.
#[derive(Clone, Copy)]
pub struct Lanes<'a> {
    /// The text.
    pub text: &'a [u8],
    /// The value that stands for the lanes.
    pub value: &'a Value,
    /// Where that value begins.
    pub at: usize,
}

impl<'a> Lanes<'a> {
    /// The lanes of a text with this value.
    pub fn of(alloc: Global, text: &'a [u8], top: &'a Value) -> Result<Lanes<'a>, AllocError> {
        let at = after_space(text, 0);
        match top.get("lanes") {
            None => Ok(Lanes {
                text,
                value: top,
                at,
            }),
            Some(value) => Ok(Lanes {
                text,
                value,
                at: member_place(alloc, text, at, "lanes")?,
            }),
        }
    }

    /// The values of the lanes, and none where that is no array.
    pub fn values(self) -> &'a [Value] {
        array_of(self.value).unwrap_or(&[])
    }

    /// The rows of a lane, and none where it has none.
    pub fn rows(self, lane: usize) -> &'a [Value] {
        match self.values().get(lane) {
            Some(value) => items_of(value),
            None => &[],
        }
    }

    /// The place of a lane.
    pub fn lane_place(self, lane: usize) -> usize {
        item_place(self.text, self.at, lane)
    }

    /// The place of a row of a lane.
    pub fn row_place(self, lane: usize, line: usize) -> usize {
        item_place(self.text, self.lane_place(lane), line)
    }
}

/// The items of a row, and none where it is no array.
pub fn items_of(row: &Value) -> &[Value] {
    array_of(row).unwrap_or(&[])
}

/// The text of the first item of a row, and the empty one where it has none.
pub fn word_text(row: &Value) -> &str {
    items_of(row).first().and_then(Value::as_str).unwrap_or("")
}
