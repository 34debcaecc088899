//! What stands around the strips of a picture, and what lies under them.

use crate::axis;
use crate::frame::{chunk_labels, heading, legend};
use crate::marks::Marks;
use crate::order::Order;
use crate::pen::Pen;
use crate::plots::{GAP, Plot, TOP};
use crate::roots::{RootName, track};
use crate::tracks::lane_tracks;
use pool_law::Run;
use std::alloc::{AllocError, Global};

/// The layers above and below the strips and their takings.
#[derive(Drop)]
pub struct Surroundings {
    /// The names, the tracks and the legend.
    pub frame: Marks,
    /// The lines of the grid.
    pub grid: Marks,
    /// Where the tracks end.
    pub bottom: u32,
}

// The names of all chunks.
fn all_chunk_labels(pen: &mut Pen, run: &Run, plots: &[Plot]) -> Result<(), AllocError> {
    for plot in plots {
        chunk_labels(pen, run, plot)?;
    }
    Ok(())
}

/// The surroundings of a picture from which what lasts fewer moments is left out.
pub fn surroundings_of(
    alloc: Global,
    run: &Run,
    roots: &[RootName],
    order: &Order,
    plots: &[Plot],
    least: u64,
) -> Result<Surroundings, AllocError> {
    let mut pen = Pen::new(alloc);
    heading(&mut pen, run, least)?;
    legend(&mut pen, !roots.is_empty())?;
    all_chunk_labels(&mut pen, run, plots)?;
    let under = plots.last().map_or(TOP, |plot| plot.bottom);
    let mut y = lane_tracks(&mut pen, alloc, run, order, under.saturating_add(GAP))?;
    for name in roots {
        y = track(&mut pen, alloc, run.logs.items(), order, *name, y)?.saturating_add(GAP);
    }
    let mut grid = Pen::new(alloc);
    axis::moments(&mut grid, order.moments, TOP - 120, y)?;
    Ok(Surroundings {
        frame: pen.into_marks(),
        grid: grid.into_marks(),
        bottom: y,
    })
}
