//! The picture of a run.

ghost use Rattle.std.specs.Prelude.{◌≡◌, ◌++◌, ◌≤◌, ◌↔◌, IsTrue, IfOk, OnOk};
ghost use Rattle.pool_law.specs.Limits.{IsShape};
ghost use Rattle.run_picture.specs.Pictures.{Shows};
ghost use Rattle.run_picture.specs.Plotting.{kept_marks, plot_marks, taking_count, HasBlocks};

use crate::blocks::Block;
use crate::chart::{Chart, LEFT, WIDTH};
use crate::marks::{Drawing, Mark, Marks};
use crate::order::order_of;
use crate::pen::Pen;
use crate::plots::{Plot, plots_of};
use crate::roots::RootName;
use crate::strips;
use crate::surroundings::surroundings_of;
use crate::svg::svg_of;
use crate::thinning::{BLOCK_LIMIT, least_for_blocks, least_for_spans};
use crate::uses::{Span, spans_of};
use object_steps::Sizes;
use pool_law::{Bytes, Run, is_shape};
use std::alloc::{AllocError, Global};

// The space below all.
const FOOT: u32 = 200;

// The width of a picture: the axis, the names beside it, and what is out at the end.
const ALL: u32 = LEFT + WIDTH + 1900;

// Puts those takings of an arena that are kept behind other marks.
fn add_blocks(
    alloc: Global,
    chart: &Chart,
    blocks: &[Block],
    least: u64,
    marks: &mut Vec<Mark>,
) -> Result<(), AllocError>
    ensures { OnOk result
        (marks.new.items ≡ marks.old.items ++ kept_marks least chart.now blocks.now) }
{
    for block in blocks {
        if chart.is_kept(least, block) {
            let mark = chart.block_mark(alloc, block)?;
            marks.push(mark)?;
        }
    }
    Ok(())
}

// The takings of the arenas, as marks.
fn block_layer(alloc: Global, plots: &[Plot], least: u64) -> Result<Marks, AllocError>
    ensures { IfOk result (λ marks. marks ≡ plot_marks least plots.now) }
{
    let mut marks = Vec::new(alloc);
    for plot in plots {
        add_blocks(alloc, &plot.chart, &plot.blocks, least, &mut marks)?;
    }
    Ok(Marks::of(marks))
}

// Whether there are so few takings that each is drawn.
fn are_few(plots: &[Plot]) -> bool
    ensures { IsTrue result ↔ taking_count plots.now ≤ BLOCK_LIMIT }
{
    let mut room = BLOCK_LIMIT;
    for plot in plots {
        let Some(rest) = room.checked_sub(plot.blocks.len()) else {
            return false;
        };
        room = rest;
    }
    true
}

// For how many moments a taking must have been out to be drawn: 0 where all are.
fn least_of(alloc: Global, plots: &[Plot]) -> Result<u64, AllocError>
    ensures { IfOk result (λ least. taking_count plots.now ≤ BLOCK_LIMIT → least ≡ 0) }
{
    if are_few(plots) {
        return Ok(0);
    }
    least_for_blocks(alloc, plots)
}

// What lies under the takings.
fn ground_layer(
    alloc: Global,
    plots: &[Plot],
    spans: &[Span],
    page: u32,
    least: u64,
) -> Result<Marks, AllocError> {
    let mut pen = Pen::new(alloc);
    for plot in plots {
        strips::chunks(&mut pen, &plot.chart, &plot.ground, page)?;
        strips::spans(&mut pen, &plot.chart, spans, least)?;
    }
    Ok(pen.into_marks())
}

// The picture of a run with legal measures.
fn drawing_of(alloc: Global, run: &Run, roots: &[RootName]) -> Result<Drawing, AllocError>
    requires { IsShape run.now.shape }
    ensures { IfOk result (λ drawing. HasBlocks run.now drawing) }
{
    let sizes = Sizes::new(alloc, run.shape.order, run.shape.page)?;
    let logs = run.logs.items();
    let order = order_of(alloc, logs)?;
    let spans = spans_of(alloc, logs, &order)?;
    let plots = plots_of(alloc, run, &sizes, &order)?;
    let least = least_of(alloc, &plots)?;
    let least_span = least_for_spans(alloc, &spans)?;
    let around = surroundings_of(alloc, run, roots, &order, &plots, least.max(least_span))?;
    let ground = ground_layer(alloc, &plots, &spans, run.shape.page, least_span)?;
    let blocks = block_layer(alloc, &plots, least)?;
    Ok(Drawing {
        width: ALL,
        height: around.bottom.saturating_add(FOOT),
        grid: around.grid,
        ground,
        blocks,
        frame: around.frame,
    })
}

/// The picture of a run, legal or not, as the text of an SVG; with a track for each of these roots.
/// None where the measures of its pool are not within their limits: then it has no pages to draw.
pub fn picture_of(alloc: Global, run: &Run, roots: &[RootName]) -> Result<Option<Bytes>, AllocError>
    ensures { IfOk result (λ picture. Shows run.now picture) }
{
    if !is_shape(&run.shape) {
        return Ok(None);
    }
    let drawing = drawing_of(alloc, run, roots)?;
    let text = svg_of(alloc, &drawing)?;
    Ok(Some(text))
}
