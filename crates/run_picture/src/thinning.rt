//! Which marks are left out where there are too many.

use crate::plots::Plot;
use crate::uses::Span;
use std::alloc::{AllocError, Global};

/// The most takings that are drawn.
pub const BLOCK_LIMIT: usize = 6000;

/// The most uses of takings that are drawn.
pub const SPAN_LIMIT: usize = 7000;

// The least length such that at most so many are as long: 0 where there are no more.
fn least_of(mut lengths: Vec<u64>, limit: usize) -> Result<u64, AllocError> {
    if lengths.len() <= limit {
        return Ok(0);
    }
    lengths.sort_unstable();
    let at = lengths.len().saturating_sub(1).saturating_sub(limit);
    Ok(lengths.get(at).copied().unwrap_or(0).saturating_add(1))
}

// For how many moments each taking of an arena was out that came back, behind these.
fn add_lengths(lengths: &mut Vec<u64>, plot: &Plot) -> Result<(), AllocError> {
    for block in &plot.blocks {
        if let Some(back) = block.back {
            let from = plot.chart.moment_of(block.number);
            lengths.push(plot.chart.moment_of(back.number).saturating_sub(from))?;
        }
    }
    Ok(())
}

/// For how many moments a taking that came back must have been out, that at most `BLOCK_LIMIT` are drawn
/// beside those that are out at the end.
pub fn least_for_blocks(alloc: Global, plots: &[Plot]) -> Result<u64, AllocError> {
    let mut lengths = Vec::new(alloc);
    for plot in plots {
        add_lengths(&mut lengths, plot)?;
    }
    least_of(lengths, BLOCK_LIMIT)
}

/// For how many moments a use must last, that at most `SPAN_LIMIT` are drawn.
pub fn least_for_spans(alloc: Global, spans: &[Span]) -> Result<u64, AllocError> {
    let mut lengths = Vec::new(alloc);
    for span in spans {
        lengths.push(span.until.saturating_sub(span.from))?;
    }
    least_of(lengths, SPAN_LIMIT)
}
