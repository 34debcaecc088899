//! The tracks of the lanes.

use crate::chart::LEFT;
use crate::lanes::{Track, moments_of};
use crate::marks::Style;
use crate::order::Order;
use crate::pen::Pen;
use pool_law::{Command, Run};
use std::alloc::{AllocError, Global};

// The most commands of which each is drawn.
const COMMAND_LIMIT: usize = 4000;

// How far apart commands are drawn, in tenths of a pixel, where there are more.
const APART: u32 = 60;

// How high a lane's track is, with the space below it.
const LANE: u32 = 330;

// How many commands there are.
fn commands_in(run: &Run) -> usize {
    let mut count: usize = 0;
    for lane in run.trace.lanes.items() {
        count = count.saturating_add(lane.items().len());
    }
    count
}

/// How far apart the commands of a run are drawn at least, in tenths of a pixel: 0 where all are drawn.
pub fn apart_of(run: &Run) -> u32 {
    if commands_in(run) > COMMAND_LIMIT {
        APART
    } else {
        0
    }
}

// The lines of a text, without their ends.
fn lines_in(alloc: Global, text: &[u8]) -> Result<Vec<&[u8]>, AllocError> {
    text.split(|byte| *byte == b'\n').collect(alloc)
}

/// The tracks of the lanes from this height down, and where they end.
pub fn lane_tracks(
    pen: &mut Pen,
    alloc: Global,
    run: &Run,
    order: &Order,
    top: u32,
) -> Result<u32, AllocError> {
    let mut replies = run_report::Writer::new(alloc);
    replies.all_replies(run.trace.lanes.items(), run.logs.items())?;
    let text = replies.into_bytes();
    let lines = lines_in(alloc, text.items())?;
    let lanes = run.trace.lanes.items();
    let logs = run.logs.items();
    let apart = apart_of(run);
    let mut y = top;
    let mut line: usize = 0;
    for lane in 0..lanes.len().min(logs.len()) {
        let moments = moments_of(alloc, order, u32::try_from(lane).unwrap_or(u32::MAX))?;
        let commands: &[Command] = lanes[lane].items();
        let track = Track {
            commands,
            log: &logs[lane],
            moments: &moments,
            last: order.moments,
            y,
            apart,
        };
        let count = commands.len().min(logs[lane].replies.items().len());
        let begin = line.min(lines.len());
        let behind = begin.saturating_add(count).min(lines.len());
        let first = track.commands(pen, &lines[begin..behind])?;
        line = behind;
        track.closing(pen, first)?;
        track.marks(pen)?;
        let mut label = pen.writer();
        label.named("lane ", lane as u64)?;
        pen.text(Style::Label, LEFT - 100, y.saturating_add(140), label)?;
        y = y.saturating_add(LANE);
    }
    Ok(y)
}
