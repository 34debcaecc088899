//! How a buffer is allocated: a handle, a region from the lane's cache or from its arena, and the
//! birth of a root. (Netty: `PooledByteBufAllocator`, `PoolThreadCache`)

ghost use Rattle.std.specs.Prelude.{◌≡◌, ◌+◌, ◌-◌, ◌<◌, ◌≤◌, ◌^◌, ℕ, length, Some, vec_capacity};
ghost use Rattle.size_classes.specs.Sizes.{class_count, class_of, size_at};
ghost use Rattle.pool_law.specs.Limits.{geometry_of};
ghost use Rattle.leak_records.specs.Records.{Sampling};
ghost use Rattle.shared_pool.specs.Wearing.{IsShort};
ghost use Rattle.lane_stages.specs.declared.allotment.Allotting.{Allotting};
ghost use Rattle.lane_stages.specs.Allotments.{MayAllot, HasAllotted, left_of};

use crate::notes::{lane_of, note_at, note_to, write_note};
use crate::stage_step::StageStep;
use handle_bin::Handle;
use leak_records::Sampler;
use pool_law::{Did, Note, Object, RefDid, Region, RegionId, RootId, Shape};
use shared_pool::{PoolSeat, SharedPool, Went};
use size_classes::CACHED_CLASSES;

/// What is to be done next in an allocation.
pub enum Allotting {
    /// The lane's bin is asked for a handle.
    Handle,
    /// The lane's cache of the class is asked for a region.
    Cache(Handle),
    /// The lane's arena is asked for a region.
    Arena(Handle),
    /// The root is born.
    Birth(Handle, Region),
    /// The arena was full, and the handle goes home.
    Home(Handle),
}

/// What an allocation answers.
pub enum Allotted {
    /// A root was born, with this region.
    New(RootId, RegionId),
    /// The bin was empty.
    NoHandle,
    /// The arena was full.
    Full,
}

/// Does the next thing of an allocation of `size` bytes, whose class is `class`, and writes its
/// notes into the log.
pub fn allot(
    pool: &SharedPool,
    shape: &Shape,
    seat: &mut PoolSeat,
    sampler: &mut Sampler,
    log: &mut Vec<Note>,
    size: u32,
    class: u32,
    stage: Allotting,
) -> StageStep<Allotting, Allotted>
    requires may { MayAllot pool.now seat.old class stage }
    requires short { IsShort pool.now.table.layout }
    requires shape { shape.now ≡ pool.now.table.layout.shape }
    requires class { class_of (geometry_of shape.now) size ≡ Some class }
    requires births { sampler.old.births < 2 ^ 32 - 1 }
    requires room { length log.old.items + (left_of stage).notes ≤ vec_capacity log.old }
    ensures { HasAllotted pool.now seat.old seat.new sampler.old sampler.new log.old log.new
        size class stage result }
{
    match stage {
        Allotting::Handle => ask_bin(pool, seat, log, class),
        Allotting::Cache(handle) => ask_cache(pool, seat, log, class, handle),
        Allotting::Arena(handle) => ask_arena(pool, shape, seat, log, class, handle),
        Allotting::Birth(handle, region) => bear(pool, seat, sampler, log, size, handle, region),
        Allotting::Home(handle) => go_home(pool, seat, log, handle),
    }
}

fn ask_bin(
    pool: &SharedPool,
    seat: &mut PoolSeat,
    log: &mut Vec<Note>,
    class: u32,
) -> StageStep<Allotting, Allotted>
    requires may { MayAllot pool.now seat.old class Allotting.Handle }
    requires room { length log.old.items < vec_capacity log.old }
    ensures { (sampler : Sampling) (size : ℕ) →
        class_of (geometry_of pool.now.table.layout.shape) size ≡ Some class →
        HasAllotted pool.now seat.old seat.new sampler sampler log.old log.new
        size class Allotting.Handle result }
{
    let bin = Object::Bin(lane_of(seat));
    match pool.pop_handle(seat) {
        Went::Did(number, None) => {
            write_note(log, note_at(bin, number, Did::NoHandle));
            StageStep::Done(Allotted::NoHandle)
        }
        Went::Did(number, Some(handle)) => {
            write_note(log, note_at(bin, number, Did::Handle(handle.place())));
            if class < CACHED_CLASSES {
                StageStep::More(Allotting::Cache(handle))
            } else {
                StageStep::More(Allotting::Arena(handle))
            }
        }
        Went::Held(held, ()) => StageStep::Held(held, Allotting::Handle),
    }
}

fn ask_cache(
    pool: &SharedPool,
    seat: &mut PoolSeat,
    log: &mut Vec<Note>,
    class: u32,
    handle: Handle,
) -> StageStep<Allotting, Allotted>
    requires may { MayAllot pool.now seat.old class (Allotting.Cache handle) }
    requires room { length log.old.items < vec_capacity log.old }
    ensures { (sampler : Sampling) (size : ℕ) →
        HasAllotted pool.now seat.old seat.new sampler sampler log.old log.new
        size class (Allotting.Cache handle) result }
{
    let cache = Object::Cache {
        lane: lane_of(seat),
        class,
    };
    match pool.pop_cached(seat, class) {
        Went::Did(number, Some(region)) => {
            write_note(log, note_at(cache, number, Did::Hit(region.id)));
            StageStep::More(Allotting::Birth(handle, region))
        }
        Went::Did(number, None) => {
            write_note(log, note_at(cache, number, Did::Miss));
            StageStep::More(Allotting::Arena(handle))
        }
        Went::Held(held, ()) => {
            write_note(log, Note::Busy(held));
            StageStep::More(Allotting::Arena(handle))
        }
    }
}

fn ask_arena(
    pool: &SharedPool,
    shape: &Shape,
    seat: &mut PoolSeat,
    log: &mut Vec<Note>,
    class: u32,
    handle: Handle,
) -> StageStep<Allotting, Allotted>
    requires may { MayAllot pool.now seat.old class (Allotting.Arena handle) }
    requires shape { shape.now ≡ pool.now.table.layout.shape }
    requires class { class < class_count (geometry_of shape.now) }
    requires room { length log.old.items < vec_capacity log.old }
    ensures { (sampler : Sampling) (size : ℕ) →
        HasAllotted pool.now seat.old seat.new sampler sampler log.old log.new
        size class (Allotting.Arena handle) result }
{
    let arena = Object::Arena(lane_of(seat) % shape.arenas);
    match pool.take(seat, class) {
        Went::Did(number, Some(region)) => {
            let did = Did::Take {
                class,
                region: region.id,
            };
            write_note(log, note_at(arena, number, did));
            StageStep::More(Allotting::Birth(handle, region))
        }
        Went::Did(number, None) => {
            write_note(log, note_at(arena, number, Did::Full { class }));
            StageStep::More(Allotting::Home(handle))
        }
        Went::Held(held, ()) => StageStep::Held(held, Allotting::Arena(handle)),
    }
}

fn bear(
    pool: &SharedPool,
    seat: &mut PoolSeat,
    sampler: &mut Sampler,
    log: &mut Vec<Note>,
    size: u32,
    handle: Handle,
    region: Region,
) -> StageStep<Allotting, Allotted>
    requires may { MayAllot pool.now seat.old region.id.class (Allotting.Birth handle region) }
    requires short { IsShort pool.now.table.layout }
    requires size { size ≤ size_at region.id.class }
    requires births { sampler.old.births < 2 ^ 32 - 1 }
    requires room { length log.old.items + 2 ≤ vec_capacity log.old }
    ensures { HasAllotted pool.now seat.old seat.new sampler.old sampler.new log.old log.new
        size region.id.class (Allotting.Birth handle region) result }
{
    let id = region.id;
    let watch = sampler.next();
    let (number, root) = pool.birth(seat, handle, region, size, watch);
    let used = RegionId {
        uses: id.uses + 1,
        ..id
    };
    let did = Did::Birth { root, region: used };
    write_note(log, note_at(Object::Root(root.place), number, did));
    write_note(log, note_to(root, RefDid::Born));
    StageStep::Done(Allotted::New(root, used))
}

fn go_home(
    pool: &SharedPool,
    seat: &mut PoolSeat,
    log: &mut Vec<Note>,
    handle: Handle,
) -> StageStep<Allotting, Allotted>
    requires may { (class : ℕ) → MayAllot pool.now seat.old class (Allotting.Home handle) }
    requires room { length log.old.items < vec_capacity log.old }
    ensures { (sampler : Sampling) (size class : ℕ) →
        HasAllotted pool.now seat.old seat.new sampler sampler log.old log.new
        size class (Allotting.Home handle) result }
{
    let bin = Object::Bin(handle.lane());
    let place = handle.place();
    match pool.put_handle(seat, handle) {
        Went::Did(number, ()) => {
            write_note(log, note_at(bin, number, Did::Home(place)));
            StageStep::Done(Allotted::Full)
        }
        Went::Held(held, handle) => StageStep::Held(held, Allotting::Home(handle)),
    }
}
