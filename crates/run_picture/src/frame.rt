//! What stands around the strips: the heading, the legend and the names.

use crate::axis;
use crate::chart::{Cut, LEFT, WIDTH};
use crate::marks::{Area, Style};
use crate::pen::Pen;
use crate::plots::Plot;
use crate::strips::{list_names, list_word};
use crate::tracks::apart_of;
use crate::writer::Writer;
use pool_law::{ChunkEnd, Run};
use std::alloc::AllocError;

// Where names beside the strips end.
const NAME: u32 = LEFT - 330;

// How many roots were taken, and so on, as a line of the heading.
fn measures(text: &mut Writer, run: &Run) -> Result<(), AllocError> {
    let shape = &run.shape;
    text.named("lanes: ", u64::from(shape.lanes))?;
    text.named(" · arenas: ", u64::from(shape.arenas))?;
    text.named(" · bytes of a page: ", u64::from(shape.page))?;
    text.named(" · pages of a chunk: 2^", u64::from(shape.order))?;
    text.named(" · most chunks of an arena: ", u64::from(shape.chunks))
}

// What is left out: what lasted fewer moments than these, and commands that lie too close.
fn warnings(pen: &mut Pen, run: &Run, least: u64) -> Result<(), AllocError> {
    if least > 0 {
        let mut text = pen.writer();
        text.named("Thinned: what lasted fewer moments than ", least)?;
        text.words(" is left out")?;
        pen.text(Style::Warning, 7000, 300, text)?;
    }
    let apart = apart_of(run);
    if apart > 0 {
        let mut text = pen.writer();
        text.named(
            "Thinned: commands are left out within so many pixels of another: ",
            u64::from(apart / 10),
        )?;
        pen.text(Style::Warning, 7000, 450, text)?;
    }
    Ok(())
}

/// The heading, and what was left out, where those were left out that last fewer moments.
pub fn heading(pen: &mut Pen, run: &Run, least: u64) -> Result<(), AllocError> {
    pen.words(Style::Heading, 200, 300, "Who had which bytes, and when")?;
    let mut text = pen.writer();
    measures(&mut text, run)?;
    pen.text(Style::Small, 200, 480, text)?;
    warnings(pen, run, least)?;
    pen.words(Style::Small, LEFT + WIDTH + 160, 1010, "at the end")
}

// A sample of a style, and what it means, from a place on; where it ends.
fn sample(pen: &mut Pen, style: Style, x: u32, y: u32, words: &str) -> Result<u32, AllocError> {
    let area = Area {
        x,
        y: y.saturating_sub(110),
        width: 220,
        height: 130,
    };
    pen.plain(style, area)?;
    pen.words(Style::Small, x.saturating_add(270), y, words)?;
    let letters = u32::try_from(words.len()).unwrap_or(u32::MAX);
    Ok(
        x.saturating_add(430)
            .saturating_add(letters.saturating_mul(58)),
    )
}

// What the colours of the chunks mean.
fn chunk_legend(pen: &mut Pen) -> Result<(), AllocError> {
    let mut x = 200;
    let chunks = [
        (Style::Rooted, "taken, a root lives on it"),
        (Style::Cached, "taken, waits in a cache"),
        (Style::InHand, "taken, in a lane's hands"),
        (Style::Subpage, "subpage, element free"),
        (Style::Open, "free pages of a chunk"),
    ];
    for (style, words) in chunks {
        x = sample(pen, style, x, 660, words)?;
    }
    Ok(())
}

// What the colours of the lanes mean; where their samples end.
fn lane_legend(pen: &mut Pen) -> Result<u32, AllocError> {
    let mut x = 200;
    let lanes = [
        (Style::Allocates, "alloc"),
        (Style::Accesses, "set, get, write, read"),
        (Style::Counts, "retain, release, refcnt"),
        (Style::HandsOver, "send, recv"),
        (Style::Names, "names, touch, capacity, composites"),
        (Style::Refused, "refused"),
        (Style::Closing, "closing"),
        (Style::Busy, "busy mark"),
    ];
    for (style, words) in lanes {
        x = sample(pen, style, x, 840, words)?;
    }
    Ok(x)
}

/// What the colours mean.
pub fn legend(pen: &mut Pen, roots: bool) -> Result<(), AllocError> {
    chunk_legend(pen)?;
    let x = lane_legend(pen)?;
    if roots {
        let x = sample(pen, Style::Writes, x, 840, "bytes set")?;
        let _end = sample(pen, Style::Reads, x, 840, "bytes got")?;
    }
    Ok(())
}

// The line of a chunk at the end, if there is one.
fn end_line(run: &Run, arena: u32, chunk: u32) -> Option<ChunkEnd> {
    for end in run.chunks.items() {
        if end.arena == arena && end.chunk == chunk {
            return Some(*end);
        }
    }
    None
}

// What a chunk has out at the end.
fn end_label(pen: &mut Pen, run: &Run, arena: u32, chunk: u32, y: u32) -> Result<(), AllocError> {
    let x = LEFT + WIDTH + 160;
    match end_line(run, arena, chunk) {
        Some(end) => {
            pen.words(Style::Small, x, y.saturating_add(390), list_word(end.list))?;
            let mut text = pen.writer();
            text.named("used ", u64::from(end.used))?;
            pen.text(Style::Small, x, y.saturating_add(130), text)?;
            let mut text = pen.writer();
            text.named("free ", u64::from(end.free))?;
            pen.text(Style::Small, x, y.saturating_add(260), text)
        }
        None => pen.words(Style::Small, x, y.saturating_add(130), "no chunk"),
    }
}

// The pages at which a strip has a cut, as far as there is room, and how many pages were never taken.
fn page_numbers(pen: &mut Pen, cuts: &[Cut], size: u32) -> Result<(), AllocError> {
    let mut free = 0;
    for at in 0..cuts.len() {
        let cut = cuts[at];
        let Some(next) = cuts.get(at + 1) else {
            return Ok(());
        };
        let y = cut.y.saturating_add(100);
        if size != 0 && cut.offset % size == 0 && y >= free {
            pen.number(Style::Number, LEFT - 40, y, u64::from(cut.offset / size))?;
            free = y.saturating_add(125);
        }
        let len = next.offset.saturating_sub(cut.offset);
        if size != 0 && !cut.taken && len >= size && next.y.saturating_sub(cut.y) >= 100 {
            let mut text = pen.writer();
            text.named("pages never taken: ", u64::from(len / size))?;
            pen.text(Style::Faint, LEFT + 40, cut.y.saturating_add(95), text)?;
        }
    }
    Ok(())
}

/// The names of an arena's chunks, their pages and lists, and the numbers of the arena's notes.
pub fn chunk_labels(pen: &mut Pen, run: &Run, plot: &Plot) -> Result<(), AllocError> {
    let arena = plot.chart.arena;
    let strips = plot.chart.strips.items();
    let mut bottom = 0;
    for chunk in 0..strips.len() {
        let cuts = strips[chunk].cuts.items();
        if let (Some(first), Some(last)) = (cuts.first(), cuts.last()) {
            let upper = first.y;
            let mut label = pen.writer();
            label.named("chunk ", u64::from(arena))?;
            label.named(".", chunk as u64)?;
            pen.text(Style::Label, NAME, upper.saturating_add(130), label)?;
            pen.words(Style::Number, NAME, upper.saturating_add(260), "pages")?;
            page_numbers(pen, cuts, run.shape.page)?;
            end_label(pen, run, arena, u32::try_from(chunk).unwrap_or(0), upper)?;
            bottom = last.y;
        }
    }
    list_names(pen, &plot.chart, &plot.ground)?;
    if bottom > 0 {
        let y = bottom.saturating_add(160);
        axis::notes(pen, plot.chart.moments.items(), plot.chart.last, y)?;
        let mut label = pen.writer();
        label.named("notes of arena ", u64::from(arena))?;
        pen.text(Style::Number, LEFT - 100, y.saturating_add(140), label)?;
    }
    if let Some(number) = plot.ground.stopped {
        let mut text = pen.writer();
        text.named("the law of arenas refuses note ", number)?;
        pen.text(
            Style::Warning,
            LEFT + 3000,
            bottom.saturating_add(130),
            text,
        )?;
    }
    Ok(())
}
