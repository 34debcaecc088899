//! How high bytes of a chunk are drawn: cuts stand where takings and subpages begin and end, and between two
//! cuts what was ever taken is high, at most so much for many pages, and the rest is low.

use crate::blocks::Block;
use crate::chart::{Cut, Cuts, Strip};
use crate::standing::Subpage;
use object_steps::Sizes;
use std::alloc::{AllocError, Global};

// Heights in tenths of a pixel: of a strip, and of one part of it.
const STRIP: u64 = 2600;

const PART_MOST: u64 = 40;

// How many parts are given to what was never taken, in a subpage and else, and to a page that was.
const GAP_PARTS: u32 = 1;

const NEVER_PARTS: u32 = 3;

const PAGE_PARTS: u32 = 4;

const RUN_MOST: u32 = 32;

// A tenth of a pixel has so many grains, so that thin parts add up.
const GRAINS: u64 = 4096;

// Where bytes begin and end that belong together, in order.
#[derive(Drop)]
struct Bounds {
    starts: Vec<u32>,
    ends: Vec<u32>,
    all: Vec<u32>,
}

impl Bounds {
    fn add(&mut self, start: u32, end: u32) -> Result<(), AllocError> {
        self.all.push(start)?;
        self.all.push(end)?;
        Ok(())
    }

    fn add_block(&mut self, block: &Block) -> Result<(), AllocError> {
        let start = block.region.place.offset;
        let end = start.saturating_add(block.region.place.len);
        self.starts.push(start)?;
        self.ends.push(end)?;
        self.add(start, end)
    }
}

// The bounds in a chunk.
fn bounds_of(
    alloc: Global,
    sizes: &Sizes,
    blocks: &[Block],
    subpages: &[Subpage],
    chunk: u32,
) -> Result<Bounds, AllocError> {
    let mut bounds = Bounds {
        starts: Vec::new(alloc),
        ends: Vec::new(alloc),
        all: Vec::new(alloc),
    };
    let page = sizes.page();
    bounds.add(0, sizes.chunk_pages().saturating_mul(page))?;
    for block in blocks {
        if block.region.place.chunk == chunk {
            bounds.add_block(block)?;
        }
    }
    for subpage in subpages {
        if subpage.chunk == chunk {
            let start = subpage.page.saturating_mul(page);
            let len = subpage.pages.saturating_mul(page);
            bounds.add(start, start.saturating_add(len))?;
        }
    }
    bounds.starts.sort_unstable();
    bounds.ends.sort_unstable();
    bounds.all.sort_unstable();
    bounds.all.dedup();
    Ok(bounds)
}

// How many of these, which are in order, are at most so much; so many are known to be.
fn count_to(numbers: &[u32], known: usize, most: u32) -> usize {
    let mut count = known;
    for _step in known..numbers.len() {
        match numbers.get(count) {
            Some(number) if *number <= most => count = count.saturating_add(1),
            _ => return count,
        }
    }
    count
}

// The parts of a height that so many bytes get.
fn parts_of(len: u32, page: u32, taken: bool) -> u32 {
    if taken {
        let pages = if page == 0 { 1 } else { len / page };
        pages.max(1).saturating_mul(PAGE_PARTS).min(RUN_MOST)
    } else if len < page {
        GAP_PARTS
    } else {
        NEVER_PARTS
    }
}

// Bytes of a chunk from one bound to the next.
#[derive(Clone, Copy, Drop)]
struct Band {
    offset: u32,
    parts: u32,
    taken: bool,
}

// The bands between bounds, and the last bound with no part.
fn bands_of(alloc: Global, bounds: &Bounds, page: u32) -> Result<Vec<Band>, AllocError> {
    let mut bands = Vec::new(alloc);
    let mut begun: usize = 0;
    let mut ended: usize = 0;
    for at in 0..bounds.all.len() {
        let offset = bounds.all[at];
        begun = count_to(&bounds.starts, begun, offset);
        ended = count_to(&bounds.ends, ended, offset);
        let taken = begun > ended;
        let parts = match bounds.all.get(at + 1) {
            Some(next) => parts_of(next.saturating_sub(offset), page, taken),
            None => 0,
        };
        bands.push(Band {
            offset,
            parts,
            taken,
        })?;
    }
    Ok(bands)
}

// The grains that one part gets.
fn grains_of(bands: &[Band]) -> u64 {
    let mut parts: u64 = 0;
    for band in bands {
        parts = parts.saturating_add(u64::from(band.parts));
    }
    if parts == 0 {
        return 0;
    }
    (STRIP * GRAINS / parts).min(PART_MOST * GRAINS)
}

/// The cuts of a chunk, from this height down.
pub fn strip_of(
    alloc: Global,
    sizes: &Sizes,
    blocks: &[Block],
    subpages: &[Subpage],
    chunk: u32,
    top: u32,
) -> Result<Strip, AllocError> {
    let bounds = bounds_of(alloc, sizes, blocks, subpages, chunk)?;
    let bands = bands_of(alloc, &bounds, sizes.page())?;
    let grains = grains_of(&bands);
    let mut cuts = Vec::new(alloc);
    let mut down: u64 = 0;
    for band in &bands {
        cuts.push(Cut {
            offset: band.offset,
            y: edge_at(top, down),
            taken: band.taken,
        })?;
        down = down.saturating_add(grains.saturating_mul(u64::from(band.parts)));
    }
    Ok(Strip {
        cuts: Cuts::of(cuts),
    })
}

// So many grains below a height.
fn edge_at(top: u32, down: u64) -> u32 {
    let below = (down / GRAINS).min(1_000_000) as u32;
    top.saturating_add(below)
}

/// Where a strip ends.
pub fn bottom_of(strip: &Strip, top: u32) -> u32 {
    match strip.cuts.items().last() {
        Some(cut) => cut.y,
        None => top,
    }
}
