//! What follows the release that ended a root's count: the root ends, its region goes into its
//! owner's cache or back to its arena, and the handle of its place goes home. (Netty:
//! `PooledByteBuf.deallocate`)

ghost use Rattle.std.specs.Prelude.{◌+◌, ◌<◌, ◌≤◌, length, vec_capacity};
ghost use Rattle.lane_stages.specs.declared.retirement.Ending.{Ending};
ghost use Rattle.lane_stages.specs.Endings.{MayEnd, HasEnded, left_of};

use crate::notes::{note_at, note_to, write_note};
use crate::stage_step::StageStep;
use handle_bin::Handle;
use pool_law::{Did, Note, Object, RefDid, Region};
use pool_table::EndToken;
use shared_pool::{PoolSeat, Put, Retired, SharedPool, Went};
use size_classes::CACHED_CLASSES;

/// What is to be done next at the end of a root.
pub enum Ending {
    /// The root ends, and its place is vacated.
    Root(EndToken),
    /// Its region is put into its owner's cache.
    Cache(Region, Handle),
    /// Its region is given to its arena.
    Arena(Region, Handle),
    /// The handle goes home.
    Home(Handle),
}

/// Does the next thing at the end of a root, and writes its notes into the log. Once it is done,
/// nothing of the root is left in the seat's hands.
pub fn end(
    pool: &SharedPool,
    seat: &mut PoolSeat,
    log: &mut Vec<Note>,
    stage: Ending,
) -> StageStep<Ending, ()>
    requires may { MayEnd pool.now seat.old stage }
    requires room { length log.old.items + (left_of stage).notes ≤ vec_capacity log.old }
    ensures { HasEnded pool.now seat.old seat.new log.old log.new stage result }
{
    match stage {
        Ending::Root(token) => retire(pool, seat, log, token),
        Ending::Cache(region, handle) => put_away(pool, seat, log, region, handle),
        Ending::Arena(region, handle) => give_back(pool, seat, log, region, handle),
        Ending::Home(handle) => go_home(pool, seat, log, handle),
    }
}

fn retire(
    pool: &SharedPool,
    seat: &mut PoolSeat,
    log: &mut Vec<Note>,
    token: EndToken,
) -> StageStep<Ending, ()>
    requires may { MayEnd pool.now seat.old (Ending.Root token) }
    requires room { length log.old.items + 2 ≤ vec_capacity log.old }
    ensures { HasEnded pool.now seat.old seat.new log.old log.new (Ending.Root token) result }
{
    let root = token.root();
    let Retired {
        number,
        region,
        handle,
    } = pool.retire(seat, token);
    write_note(
        log,
        note_at(Object::Root(root.place), number, Did::End(root)),
    );
    write_note(log, note_to(root, RefDid::Vacated));
    if region.id.class < CACHED_CLASSES {
        StageStep::More(Ending::Cache(region, handle))
    } else {
        StageStep::More(Ending::Arena(region, handle))
    }
}

fn put_away(
    pool: &SharedPool,
    seat: &mut PoolSeat,
    log: &mut Vec<Note>,
    region: Region,
    handle: Handle,
) -> StageStep<Ending, ()>
    requires may { MayEnd pool.now seat.old (Ending.Cache region handle) }
    requires room { length log.old.items < vec_capacity log.old }
    ensures { HasEnded pool.now seat.old seat.new log.old log.new
        (Ending.Cache region handle) result }
{
    let id = region.id;
    let cache = Object::Cache {
        lane: id.owner,
        class: id.class,
    };
    match pool.put_cached(seat, region) {
        Went::Did(number, Put::Kept) => {
            write_note(log, note_at(cache, number, Did::Kept(id)));
            StageStep::More(Ending::Home(handle))
        }
        Went::Did(number, Put::Back(region, no)) => {
            write_note(log, note_at(cache, number, Did::Back { region: id, no }));
            StageStep::More(Ending::Arena(region, handle))
        }
        Went::Held(held, region) => {
            write_note(log, Note::Busy(held));
            StageStep::More(Ending::Arena(region, handle))
        }
    }
}

fn give_back(
    pool: &SharedPool,
    seat: &mut PoolSeat,
    log: &mut Vec<Note>,
    region: Region,
    handle: Handle,
) -> StageStep<Ending, ()>
    requires may { MayEnd pool.now seat.old (Ending.Arena region handle) }
    requires room { length log.old.items < vec_capacity log.old }
    ensures { HasEnded pool.now seat.old seat.new log.old log.new
        (Ending.Arena region handle) result }
{
    let id = region.id;
    let arena = Object::Arena(id.place.arena);
    match pool.give(seat, region) {
        Went::Did(number, ()) => {
            write_note(log, note_at(arena, number, Did::Give(id)));
            StageStep::More(Ending::Home(handle))
        }
        Went::Held(held, region) => StageStep::Held(held, Ending::Arena(region, handle)),
    }
}

fn go_home(
    pool: &SharedPool,
    seat: &mut PoolSeat,
    log: &mut Vec<Note>,
    handle: Handle,
) -> StageStep<Ending, ()>
    requires may { MayEnd pool.now seat.old (Ending.Home handle) }
    requires room { length log.old.items < vec_capacity log.old }
    ensures { HasEnded pool.now seat.old seat.new log.old log.new (Ending.Home handle) result }
{
    let bin = Object::Bin(handle.lane());
    let place = handle.place();
    match pool.put_handle(seat, handle) {
        Went::Did(number, ()) => {
            write_note(log, note_at(bin, number, Did::Home(place)));
            StageStep::Done(())
        }
        Went::Held(held, handle) => StageStep::Held(held, Ending::Home(handle)),
    }
}
