//! How a lane drains its caches, in ascending class: each is trimmed or closed, and what it doesn't
//! keep is given to its arena. (Netty: `PoolThreadCache.trim` and `free`)

ghost use Rattle.std.specs.Prelude.{◌≡◌, ◌≢◌, ◌+◌, ◌<◌, ◌≤◌, false, length, vec_capacity};
ghost use Rattle.pool_law.specs.Limits.{cached_classes};
ghost use Rattle.pool_law.specs.declared.note.Object.TheVariants.{Cache};
ghost use Rattle.pool_table.specs.Learned.{in_own, takes_of, gives_of};
ghost use Rattle.shared_pool.specs.SeatViews.{view_of, SameSeat};
ghost use Rattle.shared_pool.specs.Answers.{IfDid, IfHeld};
ghost use Rattle.shared_pool.specs.Notes.{plain};
ghost use Rattle.shared_pool.specs.Quotas.{quota_left, has_closed};
ghost use Rattle.shared_pool.specs.SeatLanes.{lane_of};
ghost use Rattle.shared_pool.specs.Seats.{IsPoolSeat, IsNoted, FoundBusy};
ghost use Rattle.lane_stages.specs.declared.draining.Draining.TheVariants.{Ask, Shed, Give, Done};
ghost use Rattle.lane_stages.specs.Drainings.{MayDrain, HasDrained, IsNext, IsReadNext, quota_note, hand_of, left_of};

use crate::notes::{lane_of, note_at, write_note};
use pool_law::{Did, Held, Note, Object, Region};
use shared_pool::{PoolSeat, SharedPool, Went};
use size_classes::CACHED_CLASSES;

/// What each cache is asked for: what it doesn't need, or all that it has.
#[derive(Clone, Copy)]
pub enum DrainKind {
    /// Its regions in excess of what it may keep unused.
    Trim,
    /// All its regions; it takes none from then on.
    Close,
}

/// What is to be done next as a lane drains its caches.
pub enum Draining {
    /// The cache of a class is asked how many regions are to be shed.
    Ask {
        /// The class of its regions.
        class: u32,
    },
    /// So many regions are still to be shed from the cache of a class.
    Shed {
        /// The class of its regions.
        class: u32,
        /// How many are still to be shed.
        left: u32,
    },
    /// A region that was shed is given to its arena, and so many are left.
    Give {
        /// The class of the cache that it comes of.
        class: u32,
        /// How many are still to be shed behind it.
        left: u32,
        /// The region, which isn't in the cache any more.
        region: Region,
    },
    /// All caches are drained.
    Done,
}

/// What a step of the draining came to.
pub enum Drains {
    /// This is next.
    More(Draining),
    /// Another seat was there; the same is to be tried again.
    Held(Held, Draining),
}

/// Does the next thing of the draining, which isn't done, and writes its note into the log.
pub fn drain(
    pool: &SharedPool,
    seat: &mut PoolSeat,
    log: &mut Vec<Note>,
    kind: DrainKind,
    stage: Draining,
) -> Drains
    requires may { MayDrain pool.now seat.old kind stage }
    requires more { stage ≢ Done }
    requires room { length log.old.items + (left_of stage (view_of seat.old)).notes
        ≤ vec_capacity log.old }
    ensures { HasDrained pool.now seat.old seat.new log.old log.new kind stage result }
{
    match stage {
        Draining::Ask { class } => ask(pool, seat, log, kind, class),
        Draining::Shed { class, left } => shed(pool, seat, log, kind, class, left),
        Draining::Give {
            class,
            left,
            region,
        } => give(pool, seat, log, kind, class, left, region),
        Draining::Done => unreachable!(),
    }
}

// What comes when so many regions are left to shed.
fn after(kind: DrainKind, class: u32, left: u32) -> Draining
    requires { class < cached_classes }
    ensures next { IsNext class left result }
    ensures hand { hand_of kind result ≡ hand_of kind (Shed class left) }
    ensures read { IsReadNext kind class left result }
{
    if left > 0 {
        Draining::Shed { class, left }
    } else if class + 1 < CACHED_CLASSES {
        Draining::Ask { class: class + 1 }
    } else {
        Draining::Done
    }
}

// Asks the cache of a class how many regions are to be shed.
fn quota(pool: &SharedPool, seat: &mut PoolSeat, kind: DrainKind, class: u32) -> Went<u32, ()>
    requires seat { IsPoolSeat pool.now seat.old }
    requires turn { 0 < (view_of seat.old).turns }
    requires class { class < cached_classes }
    requires no_quota { quota_left (lane_of seat.old) class (view_of seat.old).own.notes ≡ 0 }
    requires not_closed { kind ≡ DrainKind.Close →
        has_closed (lane_of seat.old) class (view_of seat.old).own.notes ≡ false }
    ensures same { SameSeat seat.old seat.new }
    ensures seat { IsPoolSeat pool.now seat.new }
    ensures did { IfDid result (λ number quota.
        IsNoted pool.now seat.old seat.new (Cache (lane_of seat.old) class) number
        (plain (quota_note kind quota))) }
    ensures bound { IfDid result (λ number quota. let v = view_of seat.old in
        quota + in_own (gives_of (lane_of seat.old) class) v ≤ in_own (takes_of class) v) }
    ensures held { IfHeld result (λ held back.
        FoundBusy pool.now (Cache (lane_of seat.old) class) false seat.old seat.new held) }
{
    match kind {
        DrainKind::Trim => pool.trim_cached(seat, class),
        DrainKind::Close => pool.close_cached(seat, class),
    }
}

// What a cache notes that was asked.
fn noted(kind: DrainKind, quota: u32) -> Did
    ensures { result ≡ quota_note kind quota }
{
    match kind {
        DrainKind::Trim => Did::Trim(quota),
        DrainKind::Close => Did::Close(quota),
    }
}

fn ask(
    pool: &SharedPool,
    seat: &mut PoolSeat,
    log: &mut Vec<Note>,
    kind: DrainKind,
    class: u32,
) -> Drains
    requires may { MayDrain pool.now seat.old kind (Ask class) }
    requires room { length log.old.items < vec_capacity log.old }
    ensures { HasDrained pool.now seat.old seat.new log.old log.new kind (Ask class) result }
{
    let cache = Object::Cache {
        lane: lane_of(seat),
        class,
    };
    match quota(pool, seat, kind, class) {
        Went::Did(number, quota) => {
            write_note(log, note_at(cache, number, noted(kind, quota)));
            Drains::More(after(kind, class, quota))
        }
        Went::Held(held, ()) => Drains::Held(held, Draining::Ask { class }),
    }
}

fn shed(
    pool: &SharedPool,
    seat: &mut PoolSeat,
    log: &mut Vec<Note>,
    kind: DrainKind,
    class: u32,
    left: u32,
) -> Drains
    requires may { MayDrain pool.now seat.old kind (Shed class left) }
    requires room { length log.old.items < vec_capacity log.old }
    ensures { HasDrained pool.now seat.old seat.new log.old log.new kind (Shed class left) result }
{
    let cache = Object::Cache {
        lane: lane_of(seat),
        class,
    };
    match pool.shed(seat, class) {
        Went::Did(number, region) => {
            write_note(log, note_at(cache, number, Did::Shed(region.id)));
            let next = Draining::Give {
                class,
                left: left - 1,
                region,
            };
            Drains::More(next)
        }
        Went::Held(held, ()) => Drains::Held(held, Draining::Shed { class, left }),
    }
}

fn give(
    pool: &SharedPool,
    seat: &mut PoolSeat,
    log: &mut Vec<Note>,
    kind: DrainKind,
    class: u32,
    left: u32,
    region: Region,
) -> Drains
    requires may { MayDrain pool.now seat.old kind (Give class left region) }
    requires room { length log.old.items < vec_capacity log.old }
    ensures { HasDrained pool.now seat.old seat.new log.old log.new kind
        (Give class left region) result }
{
    let id = region.id;
    let arena = Object::Arena(id.place.arena);
    match pool.give(seat, region) {
        Went::Did(number, ()) => {
            write_note(log, note_at(arena, number, Did::Give(id)));
            Drains::More(after(kind, class, left))
        }
        Went::Held(held, region) => {
            let again = Draining::Give {
                class,
                left,
                region,
            };
            Drains::Held(held, again)
        }
    }
}
