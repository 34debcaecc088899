//! The track of a root: its life, what was set and got of it, its growth, and its count.

use crate::acts::{Act, Moment, acts_of};
use crate::chart::{LEFT, WIDTH};
use crate::marks::{Area, Style};
use crate::order::Order;
use crate::pen::Pen;
use crate::placing::share;
use pool_law::LaneLog;
use std::alloc::{AllocError, Global};

// Heights in tenths of a pixel.
const TRACK: u32 = 420;

const TICK: u32 = 90;

/// A root by its place and generation, as `P.G` names it.
#[derive(Clone, Copy, Drop)]
pub struct RootName {
    pub place: u32,
    pub generation: u32,
}

// The greatest count.
fn most_of(acts: &[Moment]) -> u32 {
    let mut most = 1;
    for one in acts {
        if let Act::Counted(count) = one.act {
            most = most.max(count);
        }
    }
    most
}

// Where a moment is drawn.
fn x_of(moment: u64, last: u64) -> u32 {
    LEFT + share(moment, last, WIDTH)
}

// Draws when the root lived.
fn draw_life(pen: &mut Pen, acts: &[Moment], last: u64, y: u32) -> Result<(), AllocError> {
    let mut from = last;
    let mut until = last;
    for one in acts {
        match one.act {
            Act::Begins => from = one.moment,
            Act::Ends => until = one.moment,
            _ => {}
        }
    }
    let x = x_of(from, last);
    let area = Area {
        x,
        y,
        width: x_of(until, last).saturating_sub(x),
        height: TRACK,
    };
    pen.plain(Style::Life, area)
}

// Draws a set, a get or a growth.
fn draw_act(pen: &mut Pen, one: &Moment, last: u64, y: u32) -> Result<(), AllocError> {
    let mut title = pen.writer();
    let (style, down, height) = match one.act {
        Act::Sets { offset, len } => {
            title.named("set ", u64::from(offset))?;
            title.named("+", u64::from(len))?;
            (Style::Writes, 0, TICK)
        }
        Act::Gets { offset, len } => {
            title.named("get ", u64::from(offset))?;
            title.named("+", u64::from(len))?;
            (Style::Reads, TICK, TICK)
        }
        Act::Grows(capacity) => {
            title.named("capacity ", u64::from(capacity))?;
            (Style::Allocates, 0, 2 * TICK)
        }
        Act::Begins | Act::Touches | Act::Ends | Act::Counted(_) => return Ok(()),
    };
    title.named(" by lane ", u64::from(one.lane))?;
    let area = Area {
        x: x_of(one.moment, last),
        y: y.saturating_add(down).saturating_add(10),
        width: 50,
        height,
    };
    pen.rect(style, area, title)
}

// Draws the count from one act to the next, as a line at its height.
fn draw_counts(pen: &mut Pen, acts: &[Moment], last: u64, y: u32) -> Result<(), AllocError> {
    let most = most_of(acts);
    let mut count = 0;
    let mut from = last;
    for one in acts {
        if let Act::Counted(next) = one.act {
            draw_count(
                pen,
                count,
                most,
                x_of(from, last),
                x_of(one.moment, last),
                y,
            )?;
            count = next;
            from = one.moment;
        }
    }
    draw_count(pen, count, most, x_of(from, last), x_of(last, last), y)?;
    pen.number(
        Style::Number,
        LEFT - 40,
        y.saturating_add(230),
        u64::from(most),
    )?;
    pen.number(Style::Number, LEFT - 40, y.saturating_add(TRACK), 0)
}

// Draws a count from a place to another.
fn draw_count(
    pen: &mut Pen,
    count: u32,
    most: u32,
    x: u32,
    right: u32,
    y: u32,
) -> Result<(), AllocError> {
    let up = share(u64::from(count), u64::from(most), TRACK - 2 * TICK - 40);
    let mut title = pen.writer();
    title.named("count ", u64::from(count))?;
    let area = Area {
        x,
        y: y.saturating_add(TRACK).saturating_sub(up),
        width: right.saturating_sub(x),
        height: 24,
    };
    pen.rect(Style::Count, area, title)
}

/// Draws the track of a root from this height down, and answers where it ends.
pub fn track(
    pen: &mut Pen,
    alloc: Global,
    logs: &[LaneLog],
    order: &Order,
    name: RootName,
    y: u32,
) -> Result<u32, AllocError> {
    let acts = acts_of(alloc, logs, order, name)?;
    let mut label = pen.writer();
    label.named("root ", u64::from(name.place))?;
    label.named(".", u64::from(name.generation))?;
    pen.text(Style::Label, LEFT - 220, y.saturating_add(150), label)?;
    draw_life(pen, &acts, order.moments, y)?;
    for one in &acts {
        draw_act(pen, one, order.moments, y)?;
    }
    draw_counts(pen, &acts, order.moments, y)?;
    Ok(y.saturating_add(TRACK))
}
