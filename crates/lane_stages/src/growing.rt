//! How a root gets more capacity: in its own region, or else in another, from the lane's cache or its
//! arena; the region that is left over is put away. (Netty: `PoolArena.reallocate`)

ghost use Rattle.std.specs.Prelude.{◌≡◌, ◌+◌, ◌<◌, ◌≤◌, length, Some, vec_capacity};
ghost use Rattle.size_classes.specs.Sizes.{class_count, class_of, size_at};
ghost use Rattle.pool_law.specs.Limits.{geometry_of};
ghost use Rattle.lane_stages.specs.Growings.{MayGrow, HasGrown, left_of, obtaining};
ghost use Rattle.lane_stages.specs.declared.growing.Growing.{Growing};

use crate::leftover::{give_back, leaving, put_away};
use crate::notes::{lane_of, note_at, write_note};
use crate::stage_step::StageStep;
use pool_law::{Did, Note, Object, Region, RegionId, RootId, Shape};
use shared_pool::{Grown, PoolSeat, Room, SharedPool, Went};
use size_classes::CACHED_CLASSES;

/// What is to be done next for a root that is asked for capacity.
pub enum Growing {
    /// The root is asked.
    Ask,
    /// The lane's cache of the class is asked for a region.
    Cache,
    /// The lane's arena is asked for a region.
    Arena,
    /// The root is asked again, with a region to grow into.
    Grow(Region),
    /// The root has this capacity. A region is left over, and is put into its owner's cache.
    Put(u32, Region),
    /// It is given to its arena.
    Give(u32, Region),
}

/// What an ask for capacity answers.
pub enum Regrown {
    /// The root has this capacity, at least as much as was asked.
    Has(u32),
    /// The arena was full, and the root is as it was.
    Full,
}

// What is asked of a root: a capacity of so many bytes, whose class is this.
#[derive(Clone, Copy, Drop)]
pub(crate) struct Want {
    pub(crate) root: RootId,
    pub(crate) size: u32,
    pub(crate) class: u32,
}

/// Does the next thing for a root that the seat counts and asks for a capacity of `size` bytes, whose
/// class is `class`, and writes its note into the log.
pub fn grow(
    pool: &SharedPool,
    shape: &Shape,
    seat: &mut PoolSeat,
    log: &mut Vec<Note>,
    root: RootId,
    size: u32,
    class: u32,
    stage: Growing,
) -> StageStep<Growing, Regrown>
    requires may { MayGrow pool.now seat.old root size class stage }
    requires shape { shape.now ≡ pool.now.table.layout.shape }
    requires class { class_of (geometry_of shape.now) size ≡ Some class }
    requires room { length log.old.items + (left_of stage).notes ≤ vec_capacity log.old }
    ensures { HasGrown pool.now seat.old seat.new log.old log.new root size class stage result }
{
    let want = Want { root, size, class };
    match stage {
        Growing::Ask => ask_root(pool, seat, log, want),
        Growing::Cache => ask_cache(pool, seat, log, want),
        Growing::Arena => ask_arena(pool, shape, seat, log, want),
        Growing::Grow(region) => grow_into(pool, seat, log, want, region),
        Growing::Put(capacity, region) => put_away(pool, seat, log, want, capacity, region),
        Growing::Give(capacity, region) => give_back(pool, seat, log, want, capacity, region),
    }
}

// Asks the root, which may have so much already, or have it from now on in its own region.
fn ask_root(
    pool: &SharedPool,
    seat: &mut PoolSeat,
    log: &mut Vec<Note>,
    want: Want,
) -> StageStep<Growing, Regrown>
    requires may { MayGrow pool.now seat.old want.root want.size want.class Growing.Ask }
    requires class { let shape = pool.now.table.layout.shape in
        class_of (geometry_of shape) want.size ≡ Some want.class }
    requires room { length log.old.items < vec_capacity log.old }
    ensures { HasGrown pool.now seat.old seat.new log.old log.new want.root want.size want.class
        Growing.Ask result }
{
    let asked = want.size;
    let place = Object::Root(want.root.place);
    match pool.room(seat, want.root, asked) {
        Went::Did(number, Room::Enough(capacity)) => {
            write_note(log, note_at(place, number, Did::Room { asked, capacity }));
            StageStep::Done(Regrown::Has(capacity))
        }
        Went::Did(number, Room::Extended) => {
            write_note(log, note_at(place, number, Did::Extend(asked)));
            StageStep::Done(Regrown::Has(asked))
        }
        Went::Did(number, Room::Short(capacity)) => {
            write_note(log, note_at(place, number, Did::Room { asked, capacity }));
            StageStep::More(obtaining(want.class))
        }
        Went::Held(held, ()) => StageStep::Held(held, Growing::Ask),
    }
}

// Where a region of the class is asked for first.
fn obtaining(class: u32) -> Growing
    ensures { result ≡ obtaining class }
{
    if class < CACHED_CLASSES {
        Growing::Cache
    } else {
        Growing::Arena
    }
}

fn ask_cache(
    pool: &SharedPool,
    seat: &mut PoolSeat,
    log: &mut Vec<Note>,
    want: Want,
) -> StageStep<Growing, Regrown>
    requires may { MayGrow pool.now seat.old want.root want.size want.class Growing.Cache }
    requires room { length log.old.items < vec_capacity log.old }
    ensures { HasGrown pool.now seat.old seat.new log.old log.new want.root want.size want.class
        Growing.Cache result }
{
    let class = want.class;
    let cache = Object::Cache {
        lane: lane_of(seat),
        class,
    };
    match pool.pop_cached(seat, class) {
        Went::Did(number, Some(region)) => {
            write_note(log, note_at(cache, number, Did::Hit(region.id)));
            StageStep::More(Growing::Grow(region))
        }
        Went::Did(number, None) => {
            write_note(log, note_at(cache, number, Did::Miss));
            StageStep::More(Growing::Arena)
        }
        Went::Held(held, ()) => {
            write_note(log, Note::Busy(held));
            StageStep::More(Growing::Arena)
        }
    }
}

fn ask_arena(
    pool: &SharedPool,
    shape: &Shape,
    seat: &mut PoolSeat,
    log: &mut Vec<Note>,
    want: Want,
) -> StageStep<Growing, Regrown>
    requires may { MayGrow pool.now seat.old want.root want.size want.class Growing.Arena }
    requires shape { shape.now ≡ pool.now.table.layout.shape }
    requires class { want.class < class_count (geometry_of shape.now) }
    requires room { length log.old.items < vec_capacity log.old }
    ensures { HasGrown pool.now seat.old seat.new log.old log.new want.root want.size want.class
        Growing.Arena result }
{
    let class = want.class;
    let arena = Object::Arena(lane_of(seat) % shape.arenas);
    match pool.take(seat, class) {
        Went::Did(number, Some(region)) => {
            let did = Did::Take {
                class,
                region: region.id,
            };
            write_note(log, note_at(arena, number, did));
            StageStep::More(Growing::Grow(region))
        }
        Went::Did(number, None) => {
            write_note(log, note_at(arena, number, Did::Full { class }));
            StageStep::Done(Regrown::Full)
        }
        Went::Held(held, ()) => StageStep::Held(held, Growing::Arena),
    }
}

// Asks the root again, with a region that holds so much. The region that it doesn't take, or leaves,
// is left over.
fn grow_into(
    pool: &SharedPool,
    seat: &mut PoolSeat,
    log: &mut Vec<Note>,
    want: Want,
    region: Region,
) -> StageStep<Growing, Regrown>
    requires may { MayGrow pool.now seat.old want.root want.size want.class (Growing.Grow region) }
    requires size { want.size ≤ size_at want.class }
    requires room { length log.old.items < vec_capacity log.old }
    ensures { HasGrown pool.now seat.old seat.new log.old log.new want.root want.size want.class
        (Growing.Grow region) result }
{
    let asked = want.size;
    let place = Object::Root(want.root.place);
    let id = region.id;
    match pool.grow(seat, want.root, asked, region) {
        Went::Did(number, Grown::Enough(capacity, region)) => {
            write_note(log, note_at(place, number, Did::Room { asked, capacity }));
            StageStep::More(leaving(capacity, region))
        }
        Went::Did(number, Grown::Extended(region)) => {
            write_note(log, note_at(place, number, Did::Extend(asked)));
            StageStep::More(leaving(asked, region))
        }
        Went::Did(number, Grown::Replaced(left)) => {
            let used = RegionId {
                uses: id.uses + 1,
                ..id
            };
            let did = Did::Grow {
                capacity: asked,
                region: used,
            };
            write_note(log, note_at(place, number, did));
            StageStep::More(leaving(asked, left))
        }
        Went::Held(held, region) => StageStep::Held(held, Growing::Grow(region)),
    }
}
