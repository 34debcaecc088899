//! Faults of the shape of a trace: the whole, a lane, a command.

use crate::commands::row_fault;
use crate::lanes::Lanes;
use crate::place::{Fault, place_of, shown_at};
use crate::scan::item_place;
use std::alloc::{AllocError, Global};
use trace_text::array_of;

/// What is wrong with the shape of a trace, by the lane and the line that are at fault.
pub fn shape_fault(
    alloc: Global,
    lanes: Lanes<'_>,
    lane: usize,
    line: usize,
) -> Result<Fault, AllocError> {
    let Some(values) = array_of(lanes.value) else {
        return plain_fault(
            alloc,
            lanes.text,
            lanes.at,
            "a trace is an array of lanes, and this is none",
        );
    };
    let Some(value) = values.get(lane) else {
        return plain_fault(alloc, lanes.text, lanes.at, "the trace has no lane");
    };
    let lane_at = lanes.lane_place(lane);
    let Some(rows) = array_of(value) else {
        return plain_fault(
            alloc,
            lanes.text,
            lane_at,
            "a lane is an array of commands, and this is none",
        );
    };
    let row_at = item_place(lanes.text, lane_at, line);
    let Some(row) = rows.get(line) else {
        return plain_fault(alloc, lanes.text, row_at, "this is no command");
    };
    let earlier = rows.get(..line).unwrap_or(&[]);
    let fault = row_fault(alloc, values.len(), earlier, row)?;
    let at = match fault.item {
        None => row_at,
        Some(item) => item_place(lanes.text, row_at, item),
    };
    Ok(Fault {
        place: place_of(lanes.text, at),
        shown: shown_at(alloc, lanes.text, row_at)?,
        reason: fault.reason,
    })
}

/// A fault of the value that begins at a place.
pub fn plain_fault(
    alloc: Global,
    text: &[u8],
    at: usize,
    reason: &str,
) -> Result<Fault, AllocError> {
    Ok(Fault {
        place: place_of(text, at),
        shown: shown_at(alloc, text, at)?,
        reason: String::from_str(alloc, reason)?,
    })
}

/// A fault of which nothing is shown.
pub fn bare_fault(
    alloc: Global,
    text: &[u8],
    at: usize,
    reason: &str,
) -> Result<Fault, AllocError> {
    Ok(Fault {
        place: place_of(text, at),
        shown: String::new(alloc),
        reason: String::from_str(alloc, reason)?,
    })
}
