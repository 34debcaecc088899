//! The arenas as they are drawn.

ghost use Rattle.std.specs.Prelude.{◌≡◌, ◌≤◌, ◌^◌, IfOk};
ghost use Rattle.pool_law.specs.Limits.{geometry_of};
ghost use Rattle.run_picture.specs.Plotting.{IsPlot, ArePlots, arenas_in};
ghost use Rattle.size_classes.specs.Sizes.{below};

use crate::blocks::{Block, blocks_in};
use crate::chart::{Chart, Cuts, Numbers, Strip, Strips};
use crate::history::history_of;
use crate::layout::{bottom_of, strip_of};
use crate::order::Order;
use crate::rising::rising;
use crate::standing::{Ground, ground_of};
use crate::strips;
use object_steps::Sizes;
use pool_law::{LaneLog, Note, Object, Run};
use std::alloc::{AllocError, Global};

/// Where the strips begin, in tenths of a pixel.
pub const TOP: u32 = 1150;

/// The space between strips and tracks.
pub const GAP: u32 = 330;

/// An arena as it is drawn.
#[derive(Drop)]
pub struct Plot {
    pub chart: Chart,
    pub ground: Ground,
    pub blocks: Vec<Block>,
    /// Where it ends.
    pub bottom: u32,
}

// The moments of the notes at an arena, in the order of its history.
fn arena_moments(
    alloc: Global,
    logs: &[LaneLog],
    order: &Order,
    arena: u32,
) -> Result<Vec<u64>, AllocError> {
    let mut moments = Vec::new(alloc);
    let mut next: Vec<usize> = vec![in alloc; 0; logs.len()]?;
    for step in &order.steps {
        let lane = step.lane as usize;
        if lane < next.len() && lane < logs.len() {
            let at = next[lane];
            next[lane] = at.saturating_add(1);
            if is_at(logs[lane].notes.items().get(at), arena) {
                moments.push(step.moment)?;
            }
        }
    }
    Ok(moments)
}

// Whether there is a note, and it is at an arena.
fn is_at(note: Option<&Note>, arena: u32) -> bool {
    match note {
        Some(
            Note::At {
                object: Object::Arena(number),
                ..
            },
        ) => *number == arena,
        _ => false,
    }
}

// Whether anything is to be seen at a chunk place.
fn is_seen(ground: &Ground, blocks: &[Block], chunk: u32) -> bool {
    ground.stays.iter().any(|stay| stay.chunk == chunk)
        || blocks.iter().any(|block| block.region.place.chunk == chunk)
}

// The strips of an arena's chunk places from this height down, and where they end.
fn strips_of(
    alloc: Global,
    sizes: &Sizes,
    chunks: u32,
    ground: &Ground,
    blocks: &[Block],
    top: u32,
) -> Result<(Strips, u32), AllocError> {
    let mut strips = Vec::new(alloc);
    let mut y = top;
    for chunk in 0..chunks {
        if is_seen(ground, blocks, chunk) {
            let strip = strip_of(alloc, sizes, blocks, &ground.subpages, chunk, y)?;
            y = bottom_of(&strip, y).saturating_add(GAP);
            strips.push(strip)?;
        } else {
            strips.push(Strip {
                cuts: Cuts::of(Vec::new(alloc)),
            })?;
        }
    }
    Ok((Strips::of(strips), y))
}

// An arena as it is drawn from this height down.
fn plot_of(
    alloc: Global,
    run: &Run,
    sizes: &Sizes,
    order: &Order,
    arena: u32,
    top: u32,
) -> Result<Plot, AllocError>
    requires sizes { sizes.now ≡ geometry_of run.now.shape }
    requires chunks { run.now.shape.chunks ≤ 2 ^ 16 }
    ensures arena { IfOk result (λ plot. plot.chart.arena ≡ arena) }
    ensures plot { IfOk result (λ plot. IsPlot run.now plot) }
{
    let logs = run.logs.items();
    let dones = history_of(alloc, logs, arena)?;
    let blocks = blocks_in(alloc, &dones)?;
    let found = arena_moments(alloc, logs, order, arena)?;
    let moments = rising(alloc, found, dones.len())?;
    let last = order.moments;
    let ground = ground_of(alloc, &run.shape, sizes, arena, &dones, &moments, last)?;
    let (strips, bottom) = strips_of(alloc, sizes, run.shape.chunks, &ground, &blocks, top)?;
    let chart = Chart {
        arena,
        last,
        moments: Numbers::of(moments),
        strips,
    };
    Ok(Plot {
        chart,
        ground,
        blocks,
        bottom,
    })
}

/// The arenas of a run as they are drawn.
pub fn plots_of(
    alloc: Global,
    run: &Run,
    sizes: &Sizes,
    order: &Order,
) -> Result<Vec<Plot>, AllocError>
    requires sizes { sizes.now ≡ geometry_of run.now.shape }
    requires chunks { run.now.shape.chunks ≤ 2 ^ 16 }
    ensures arenas { IfOk result (λ plots. arenas_in plots.items ≡ below run.now.shape.arenas) }
    ensures plots { IfOk result (λ plots. ArePlots run.now plots.items) }
{
    let mut plots = Vec::new(alloc);
    let mut y = TOP;
    for arena in 0..run.shape.arenas {
        let plot = plot_of(alloc, run, sizes, order, arena, y)?;
        y = plot.bottom.saturating_add(GAP);
        plots.push(plot)?;
    }
    Ok(plots)
}
