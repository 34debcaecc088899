//! The strips of chunks: what stood there, and what takings were used for.

use crate::chart::Chart;
use crate::marks::{Area, Style};
use crate::pen::Pen;
use crate::standing::Ground;
use crate::uses::{Phase, Span};
use pool_law::{ListName, RegionId};
use std::alloc::AllocError;

/// The name of a list of chunks, as a text of a run has it.
pub fn list_word(list: ListName) -> &'static str {
    match list {
        ListName::QInit => "qInit",
        ListName::Q000 => "q000",
        ListName::Q025 => "q025",
        ListName::Q050 => "q050",
        ListName::Q075 => "q075",
        ListName::Q100 => "q100",
    }
}

// The area from a moment to another, and from an edge to another.
fn area_of(chart: &Chart, from: u64, until: u64, upper: u32, lower: u32) -> Area {
    let x = chart.x_of(from);
    Area {
        x,
        y: upper,
        width: chart.x_of(until).saturating_sub(x),
        height: lower.saturating_sub(upper),
    }
}

// How a phase looks, and what is said of it.
fn style_of(phase: Phase) -> Style {
    match phase {
        Phase::InHand => Style::InHand,
        Phase::Rooted(_) => Style::Rooted,
        Phase::Cached => Style::Cached,
    }
}

// When the chunks of an arena are in which list.
fn stays(pen: &mut Pen, chart: &Chart, ground: &Ground) -> Result<(), AllocError> {
    for stay in &ground.stays {
        let (upper, lower) = chart.edges_of(stay.chunk);
        let area = area_of(chart, stay.from, stay.until, upper, lower);
        let mut title = pen.writer();
        title.words("in list ")?;
        title.words(list_word(stay.list))?;
        pen.rect(Style::Open, area, title)?;
    }
    Ok(())
}

// The subpages of an arena's chunks.
fn subpages(pen: &mut Pen, chart: &Chart, ground: &Ground, page: u32) -> Result<(), AllocError> {
    for subpage in &ground.subpages {
        let size = u64::from(page);
        let first = u64::from(subpage.page).saturating_mul(size);
        let upper = chart.y_of(subpage.chunk, first);
        let len = u64::from(subpage.pages).saturating_mul(size);
        let lower = chart.y_of(subpage.chunk, first.saturating_add(len));
        let area = area_of(chart, subpage.from, subpage.until, upper, lower);
        let mut title = pen.writer();
        title.named("subpage of class ", u64::from(subpage.class))?;
        title.named(", from page ", u64::from(subpage.page))?;
        pen.rect(Style::Subpage, area, title)?;
    }
    Ok(())
}

/// The chunks of an arena: when they are in which list, and their subpages.
pub fn chunks(pen: &mut Pen, chart: &Chart, ground: &Ground, page: u32) -> Result<(), AllocError> {
    stays(pen, chart, ground)?;
    subpages(pen, chart, ground, page)
}

/// The lists in which a chunk is, each by its name at the beginning of its stay.
pub fn list_names(pen: &mut Pen, chart: &Chart, ground: &Ground) -> Result<(), AllocError> {
    for stay in &ground.stays {
        let (_, lower) = chart.edges_of(stay.chunk);
        let x = chart.x_of(stay.from);
        if chart.x_of(stay.until).saturating_sub(x) >= 300 {
            let y = lower.saturating_add(110);
            pen.words(Style::Small, x.saturating_add(10), y, list_word(stay.list))?;
        }
    }
    Ok(())
}

// The edges of a region.
fn edges_of(chart: &Chart, region: &RegionId) -> (u32, u32) {
    let first = u64::from(region.place.offset);
    let upper = chart.y_of(region.place.chunk, first);
    let lower = chart.y_of(region.place.chunk, first + u64::from(region.place.len));
    (upper, lower)
}

/// What the takings of an arena are used for, without what lasts for fewer moments.
pub fn spans(pen: &mut Pen, chart: &Chart, spans: &[Span], least: u64) -> Result<(), AllocError> {
    for span in spans {
        let lasting = span.until.saturating_sub(span.from);
        if span.region.place.arena == chart.arena && lasting >= least {
            let (upper, lower) = edges_of(chart, &span.region);
            let area = area_of(chart, span.from, span.until, upper, lower);
            pen.plain(style_of(span.phase), area)?;
        }
    }
    Ok(())
}
