//! What stood in an arena's chunk places, and when: chunks in their lists, and subpages.

ghost use Rattle.std.specs.Prelude.{◌≡◌, ◌≤◌, ◌^◌};
ghost use Rattle.pool_law.specs.Limits.{geometry_of};

use crate::finding::{end_of, first_page, place_of, used_of};
use crate::history::Done;
use object_steps::{Arena, Sizes};
use pool_law::{ChunkEnd, Did, ListName, RegionId, Shape};
use std::alloc::{AllocError, Global};

/// A chunk in a list, from one moment to another.
#[derive(Clone, Copy, Drop)]
pub struct Stay {
    pub chunk: u32,
    pub list: ListName,
    pub from: u64,
    pub until: u64,
}

/// A subpage, from one moment to another.
#[derive(Clone, Copy, Drop)]
pub struct Subpage {
    pub chunk: u32,
    pub page: u32,
    pub pages: u32,
    pub class: u32,
    pub from: u64,
    pub until: u64,
}

/// What stood in the chunk places of an arena.
#[derive(Drop)]
pub struct Ground {
    pub stays: Vec<Stay>,
    pub subpages: Vec<Subpage>,
    /// The number of the first note that may not stand, if there is one. Nothing is told behind it.
    pub stopped: Option<u64>,
}

impl Ground {
    // These stays last until then.
    fn end_stays(&mut self, stays: &[Stay], last: u64) -> Result<(), AllocError> {
        for stay in stays {
            let mut stay = *stay;
            stay.until = last;
            self.stays.push(stay)?;
        }
        Ok(())
    }

    // These subpages last until then.
    fn end_subpages(&mut self, subpages: &[Subpage], last: u64) -> Result<(), AllocError> {
        for subpage in subpages {
            let mut subpage = *subpage;
            subpage.until = last;
            self.subpages.push(subpage)?;
        }
        Ok(())
    }
}

// The ground of an arena as its notes are gone through.
#[derive(Drop)]
struct Digging {
    ground: Ground,
    ends: Vec<ChunkEnd>,
    stays: Vec<Stay>,
    subpages: Vec<Subpage>,
}

impl Digging {
    // The stays of chunks end whose list is another now.
    fn leave(&mut self, ends: &[ChunkEnd], moment: u64) -> Result<(), AllocError> {
        let mut at = 0;
        while at < self.stays.len() {
            let mut stay = self.stays[at];
            let stays = match end_of(ends, stay.chunk) {
                Some(end) => end.list == stay.list,
                None => false,
            };
            if stays {
                at += 1;
            } else {
                stay.until = moment;
                self.ground.stays.push(stay)?;
                self.stays.swap_remove(at);
            }
        }
        Ok(())
    }

    // Whether a stay of a chunk is open.
    fn stays_in(&self, chunk: u32) -> bool {
        self.stays.iter().any(|stay| stay.chunk == chunk)
    }

    // Stays begin of chunks that have none.
    fn enter(&mut self, ends: &[ChunkEnd], moment: u64) -> Result<(), AllocError> {
        for end in ends {
            if !self.stays_in(end.chunk) {
                self.stays.push(Stay {
                    chunk: end.chunk,
                    list: end.list,
                    from: moment,
                    until: moment,
                })?;
            }
        }
        Ok(())
    }

    // The subpage that begins at a page of a chunk ends.
    fn end_subpage(&mut self, chunk: u32, page: u32, moment: u64) -> Result<(), AllocError> {
        if let Some(at) = place_of(&self.subpages, chunk, page) {
            let mut subpage = self.subpages.swap_remove(at);
            subpage.until = moment;
            self.ground.subpages.push(subpage)?;
        }
        Ok(())
    }

    // After a take or a give of a small class, by what its chunk had out before and has now.
    fn change_subpage(
        &mut self,
        sizes: &Sizes,
        region: &RegionId,
        ends: &[ChunkEnd],
        moment: u64,
    ) -> Result<(), AllocError> {
        if !sizes.is_small(region.class) {
            return Ok(());
        }
        let chunk = region.place.chunk;
        let pages = sizes.subpage_pages(region.class);
        let page = first_page(sizes, region, pages);
        let before = used_of(&self.ends, chunk);
        let now = used_of(ends, chunk);
        if now > before {
            self.subpages.push(Subpage {
                chunk,
                page,
                pages,
                class: region.class,
                from: moment,
                until: moment,
            })?;
        }
        if now < before {
            self.end_subpage(chunk, page, moment)?;
        }
        Ok(())
    }

    // After a note, by the chunks that are then in a list.
    fn pass(
        &mut self,
        sizes: &Sizes,
        did: &Did,
        ends: Vec<ChunkEnd>,
        moment: u64,
    ) -> Result<(), AllocError> {
        match did {
            Did::Take { class: _, region } => self.change_subpage(sizes, region, &ends, moment)?,
            Did::Give(region) => self.change_subpage(sizes, region, &ends, moment)?,
            _ => {}
        }
        self.leave(&ends, moment)?;
        self.enter(&ends, moment)?;
        self.ends = ends;
        Ok(())
    }

    // What stands at the end stands until then.
    fn finish(self, last: u64) -> Result<Ground, AllocError> {
        let Digging {
            mut ground,
            ends: _,
            stays,
            subpages,
        } = self;
        ground.end_stays(&stays, last)?;
        ground.end_subpages(&subpages, last)?;
        Ok(ground)
    }
}

/// What stood in the chunk places of an arena, as its notes tell it, each at its moment.
pub fn ground_of(
    alloc: Global,
    shape: &Shape,
    sizes: &Sizes,
    arena: u32,
    dones: &[Done],
    moments: &[u64],
    last: u64,
) -> Result<Ground, AllocError>
    requires sizes { sizes.now ≡ geometry_of shape.now }
    requires chunks { shape.now.chunks ≤ 2 ^ 16 }
{
    let mut digging = Digging {
        ground: Ground {
            stays: Vec::new(alloc),
            subpages: Vec::new(alloc),
            stopped: None,
        },
        ends: Vec::new(alloc),
        stays: Vec::new(alloc),
        subpages: Vec::new(alloc),
    };
    let mut state = Arena::new(alloc, sizes, shape.chunks)?;
    for at in 0..dones.len() {
        let moment = moments.get(at).copied().unwrap_or(last);
        let Some(next) = state.step(alloc, sizes, arena, dones[at].did)? else {
            digging.ground.stopped = Some((at as u64).saturating_add(1));
            return digging.finish(last);
        };
        state = next;
        let mut ends = Vec::new(alloc);
        state.push_ends(sizes, arena, &mut ends)?;
        digging.pass(sizes, dones[at].did, ends, moment)?;
    }
    digging.finish(last)
}
