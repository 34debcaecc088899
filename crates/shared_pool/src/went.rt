//! What the calls of a pool answer.

ghost use Rattle.std.specs.Prelude.{◌≡◌};
ghost use Rattle.shared_pool.specs.Regrowing.{grown_did, room_did};

use handle_bin::Handle;
use leak_records::LiveList;
use pool_law::{CacheNo, ChunkEnds, Did, Held, Parcel, Region, RegionId};
use pool_table::EndToken;

/// A call that claims an object: it did its work as the note of this number, or another seat was at
/// the object, and what was given comes back.
pub enum Went<T, B> {
    Did(u64, T),
    Held(Held, B),
}

/// What a cache did with a region that was put.
pub enum Put {
    Kept,
    Back(Region, CacheNo),
}

/// What a release came to.
pub enum Release {
    Kept,
    Ended(EndToken),
}

/// What a root answers that is asked for capacity.
#[derive(Clone, Copy, Drop)]
pub enum Room {
    /// It has as much already: this capacity.
    Enough(u32),
    /// It has as much from now on, in its own region.
    Extended,
    /// It has less, this capacity, in a region that does not hold what was asked.
    Short(u32),
}

impl Room {
    // What is noted of it, where so much was asked.
    pub(crate) fn did(self, asked: u32) -> Did
        ensures { result ≡ room_did asked self }
    {
        match self {
            Room::Enough(capacity) | Room::Short(capacity) => Did::Room { asked, capacity },
            Room::Extended => Did::Extend(asked),
        }
    }
}

/// What comes of a root that is given a region to grow into.
pub enum Grown {
    /// It had as much capacity already, this much: the region comes back.
    Enough(u32, Region),
    /// It has as much from now on in its own region: the one that was given comes back.
    Extended(Region),
    /// It goes on in the region that was given, with as much capacity as was asked: the one that it
    /// leaves comes back.
    Replaced(Region),
}

impl Grown {
    // What is noted of it, where so much was asked and the region had these uses then, and the region
    // that goes with the note.
    pub(crate) fn noted(&self, asked: u32, used: RegionId) -> (Did, Option<RegionId>)
        ensures { result ≡ grown_did asked used self.now }
    {
        match self {
            Grown::Enough(capacity, _) => (
                Did::Room {
                    asked,
                    capacity: *capacity,
                },
                None,
            ),
            Grown::Extended(_) => (Did::Extend(asked), None),
            Grown::Replaced(left) => (
                Did::Grow {
                    capacity: asked,
                    region: used,
                },
                Some(left.id),
            ),
        }
    }
}

/// What a fetch found.
pub enum Fetched {
    /// The next parcel, with the number of its fetch, which is that of its post too.
    Got(u64, Parcel),
    /// The mail's queue was empty.
    Empty,
}

/// What is left of a root that ended: its region and its place's handle.
pub struct Retired {
    pub number: u64,
    pub region: Region,
    pub handle: Handle,
}

/// What comes back where a place is worn out, as it was given: the place's handle, which may be kept
/// aside, and the region.
pub struct Worn {
    pub handle: Handle,
    pub region: Region,
}

/// What stands at the close of a pool: the chunks that are in a list, by arena and chunk, and the
/// sampled roots that are live, by root place.
#[derive(Drop)]
pub struct PoolEnd {
    pub chunks: ChunkEnds,
    pub live: LiveList,
}
