//! Why a lane waits for ever.

use crate::lanes::{Lanes, items_of, word_text};
use crate::place::{Fault, place_of, shown_at};
use serde_json::Value;
use std::alloc::{AllocError, Global};
use trace_text::number_of;

/// Why a lane waits for ever at the `recv` of this line.
pub fn stuck_fault(
    alloc: Global,
    lanes: Lanes<'_>,
    lane: usize,
    line: usize,
) -> Result<Fault, AllocError> {
    let at = lanes.row_place(lane, line);
    Ok(Fault {
        place: place_of(lanes.text, at),
        shown: shown_at(alloc, lanes.text, at)?,
        reason: reason(alloc, lanes, lane, line)?,
    })
}

fn reason(alloc: Global, lanes: Lanes<'_>, lane: usize, line: usize) -> Result<String, AllocError> {
    let rows = lanes.rows(lane);
    let Some(from) = rows.get(line).and_then(lane_named) else {
        return format!(in alloc; "lane {lane} waits here for ever");
    };
    let wanted = how_many(rows.get(..=line).unwrap_or(rows), "recv", from);
    let sent = how_many(
        lanes.rows(from as usize),
        "send",
        u32::try_from(lane).unwrap_or(0),
    );
    let mut reason = format!(in alloc;
        "lane {lane} waits here for ever: it is its recv number {wanted} from lane {from}, "
    )?;
    if sent >= wanted && from as usize == lane {
        reason.push_str("and the send that it waits for stands behind it")?;
    } else if sent >= wanted {
        reason.push_str("which waits for ever itself before that send")?;
    } else if sent == 0 {
        write!(reason, "which sends nothing to lane {lane}")?;
    } else if sent == 1 {
        write!(reason, "which sends to lane {lane} once")?;
    } else {
        write!(reason, "which sends to lane {lane} {sent} times")?;
    }
    Ok(reason)
}

/// The lane that a `send` or a `recv` names.
fn lane_named(row: &Value) -> Option<u32> {
    items_of(row).get(2).and_then(|lane| number_of(lane))
}

/// How many of the rows have this word and name this lane.
fn how_many(rows: &[Value], word: &str, lane: u32) -> usize {
    let mut count = 0usize;
    for row in rows {
        if word_text(row) == word && lane_named(row) == Some(lane) {
            count = count.saturating_add(1);
        }
    }
    count
}
