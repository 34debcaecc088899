//! Numbers along an axis.

use crate::chart::{LEFT, WIDTH};
use crate::marks::{Area, Style};
use crate::pen::Pen;
use crate::placing::share;
use std::alloc::AllocError;

// How many labels an axis has at most.
const LABELS: u64 = 20;

// So many digits a number of 64 bits has at most.
const DIGITS: u32 = 20;

// The first of 1, 2 and 5 times a power that leaves at most so many labels, if one does.
fn step_from(power: u64, count: u64, most: u64) -> Option<u64> {
    for times in [1, 2, 5] {
        let step = power.saturating_mul(times);
        if step != 0 && count / step <= most {
            return Some(step);
        }
    }
    None
}

/// A step between labels that leaves at most so many: 1, 2 or 5 times a power of 10.
pub fn step_of(count: u64, most: u64) -> u64 {
    let mut power: u64 = 1;
    for _digit in 0..DIGITS {
        if let Some(step) = step_from(power, count, most) {
            return step;
        }
        power = power.saturating_mul(10);
    }
    u64::MAX
}

/// The axis of the moments, with a line of the grid at each label from there down to the bottom.
pub fn moments(pen: &mut Pen, last: u64, y: u32, bottom: u32) -> Result<(), AllocError> {
    let step = step_of(last, LABELS);
    for tick in 0..LABELS + 1 {
        let moment = tick.saturating_mul(step);
        if moment > last {
            break;
        }
        let x = LEFT + share(moment, last, WIDTH);
        let area = Area {
            x,
            y,
            width: 4,
            height: bottom.saturating_sub(y),
        };
        pen.plain(Style::Grid, area)?;
        pen.number(Style::Middle, x, y.saturating_sub(30), moment)?;
    }
    Ok(())
}

/// The numbers of an arena's notes, each at its moment, below this height.
pub fn notes(pen: &mut Pen, moments: &[u64], last: u64, y: u32) -> Result<(), AllocError> {
    let mut free = LEFT;
    for at in 0..moments.len() {
        let x = LEFT + share(moments[at], last, WIDTH);
        if x < free {
            continue;
        }
        let area = Area {
            x,
            y,
            width: 6,
            height: 40,
        };
        pen.plain(Style::Axis, area)?;
        let number = (at as u64).saturating_add(1);
        pen.number(Style::Middle, x, y.saturating_add(140), number)?;
        free = x.saturating_add(450);
    }
    Ok(())
}
