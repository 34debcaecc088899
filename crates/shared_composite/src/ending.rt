//! What follows the release that ended a root's count, one step at a time: the root ends, its region
//! goes into its owner's cache or back to its arena, and the handle of its place goes home. (Netty:
//! `PooledByteBuf.deallocate`)

ghost use Rattle.shared_composite.specs.Endings.{MayEnd, HasEnded};
ghost use Rattle.lane_stages.specs.declared.retirement.Ending.{Ending};

use handle_bin::Handle;
use lane_stages::{Ending, StageStep};
use pool_law::Region;
use pool_table::EndToken;
use shared_pool::{PoolSeat, Put, Retired, SharedPool, Went};
use size_classes::CACHED_CLASSES;

/// Does the next thing at the end of a root.
pub(crate) fn end(pool: &SharedPool, seat: &mut PoolSeat, stage: Ending) -> StageStep<Ending, ()>
    requires { MayEnd pool.now seat.old stage }
    ensures { HasEnded pool.now seat.old seat.new stage result }
{
    match stage {
        Ending::Root(token) => retire(pool, seat, token),
        Ending::Cache(region, handle) => put_away(pool, seat, region, handle),
        Ending::Arena(region, handle) => give_back(pool, seat, region, handle),
        Ending::Home(handle) => go_home(pool, seat, handle),
    }
}

// The root's end is noted, and its region and the handle of its place come.
fn retire(pool: &SharedPool, seat: &mut PoolSeat, token: EndToken) -> StageStep<Ending, ()>
    requires { MayEnd pool.now seat.old (Ending.Root token) }
    ensures { HasEnded pool.now seat.old seat.new (Ending.Root token) result }
{
    let Retired {
        number: _,
        region,
        handle,
    } = pool.retire(seat, token);
    if region.id.class < CACHED_CLASSES {
        StageStep::More(Ending::Cache(region, handle))
    } else {
        StageStep::More(Ending::Arena(region, handle))
    }
}

// The region goes into its owner's cache, or comes back for its arena.
fn put_away(
    pool: &SharedPool,
    seat: &mut PoolSeat,
    region: Region,
    handle: Handle,
) -> StageStep<Ending, ()>
    requires { MayEnd pool.now seat.old (Ending.Cache region handle) }
    ensures { HasEnded pool.now seat.old seat.new (Ending.Cache region handle) result }
{
    match pool.put_cached(seat, region) {
        Went::Did(_note, Put::Kept) => StageStep::More(Ending::Home(handle)),
        Went::Did(_note, Put::Back(region, _no)) => StageStep::More(Ending::Arena(region, handle)),
        Went::Held(_held, region) => StageStep::More(Ending::Arena(region, handle)),
    }
}

// The region goes back to its arena.
fn give_back(
    pool: &SharedPool,
    seat: &mut PoolSeat,
    region: Region,
    handle: Handle,
) -> StageStep<Ending, ()>
    requires { MayEnd pool.now seat.old (Ending.Arena region handle) }
    ensures { HasEnded pool.now seat.old seat.new (Ending.Arena region handle) result }
{
    match pool.give(seat, region) {
        Went::Did(_number, ()) => StageStep::More(Ending::Home(handle)),
        Went::Held(held, region) => StageStep::Held(held, Ending::Arena(region, handle)),
    }
}

// The handle goes home.
fn go_home(pool: &SharedPool, seat: &mut PoolSeat, handle: Handle) -> StageStep<Ending, ()>
    requires { MayEnd pool.now seat.old (Ending.Home handle) }
    ensures { HasEnded pool.now seat.old seat.new (Ending.Home handle) result }
{
    match pool.put_handle(seat, handle) {
        Went::Did(_number, ()) => StageStep::Done(()),
        Went::Held(held, handle) => StageStep::Held(held, Ending::Home(handle)),
    }
}

/// Spends what is left of a root. Its memory stays taken until the program ends.
pub(crate) fn spend(stage: Ending) {
    match stage {
        Ending::Root(token) => token.leave(),
        Ending::Cache(region, handle) | Ending::Arena(region, handle) => {
            handle.leave();
            leave(region)
        }
        Ending::Home(handle) => handle.leave(),
    }
}

// Leaves a region's memory as it is.
fn leave(region: Region) {
    let (_id, piece) = region.into_parts();
    piece.leave();
}
