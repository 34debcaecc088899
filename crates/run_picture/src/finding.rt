//! What stands where, found.

ghost use Rattle.std.specs.Prelude.{◌<◌, length, IfSome};

use crate::standing::Subpage;
use object_steps::Sizes;
use pool_law::{ChunkEnd, RegionId};

/// The line of a chunk.
pub fn end_of(ends: &[ChunkEnd], chunk: u32) -> Option<ChunkEnd> {
    for end in ends {
        if end.chunk == chunk {
            return Some(*end);
        }
    }
    None
}

/// The bytes of a chunk that are out, none where there is no chunk.
pub fn used_of(ends: &[ChunkEnd], chunk: u32) -> u32 {
    match end_of(ends, chunk) {
        Some(end) => end.used,
        None => 0,
    }
}

/// Where the subpage stands that begins at a page of a chunk.
pub fn place_of(subpages: &[Subpage], chunk: u32, page: u32) -> Option<usize>
    ensures { IfSome result (λ at. at < length subpages.now) }
{
    for at in 0..subpages.len() {
        if subpages[at].chunk == chunk && subpages[at].page == page {
            return Some(at);
        }
    }
    None
}

/// The first page of the subpage of which a region is an element.
pub fn first_page(sizes: &Sizes, region: &RegionId, pages: u32) -> u32 {
    let size = sizes.page();
    let last = region.place.offset / size;
    for back in 0..pages {
        let page = last.saturating_sub(back);
        let within = region
            .place
            .offset
            .saturating_sub(page.saturating_mul(size));
        if region.place.len != 0 && within % region.place.len == 0 {
            return page;
        }
    }
    last
}
