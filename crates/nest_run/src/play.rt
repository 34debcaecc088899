//! The calls of an input, played on a nest over a root of a pool of their own.
ghost use Rattle.std.specs.Prelude.{◌≡◌, ◌∷◌, [], IfOk, IfSome, length};
ghost use Rattle.shared_pool.specs.Opening.{IsOpened};
ghost use Rattle.shared_pool.specs.Seats.{IsPoolSeat};
ghost use Rattle.counted_view.specs.Nests.{live_views};
ghost use Rattle.nest_run.specs.declared.openings.TheConstants.{LAYOUT};
ghost use Rattle.nest_run.specs.Plays.{live_after, replies_to};
ghost use Rattle.nest_run.specs.Standing.{HasAnswered, HasPlayed, Stands};
ghost use Rattle.nest_run.specs.Steps.{IsInput};

use crate::calls::{Call, Input};
use crate::openings::{bear, open};
use crate::reading::CALL_LIMIT;
use crate::replies::{Reply, ReplyList};
use crate::views::Playing;
use counted_view::Nest;
use shared_pool::{PoolSeat, SharedPool};
use std::alloc::{AllocError, Global};
use std::sync::Wait;

/// What calls came to: their replies, and how many views are live after them, the root among them.
#[derive(Drop)]
pub struct Played {
    pub replies: ReplyList,
    pub live: u32,
}

/// Opens a pool, plays the calls there on a nest over a new root, and closes the pool. What the
/// close tells of all notes says that each reply was right.
pub fn play<W: Wait>(rt: &W, alloc: Global, input: &Input) -> Result<Played, AllocError>
    requires { IsInput input.now }
    ensures { IfOk result (λ played. played
        ≡ record { replies = replies_to input.now; live = live_after input.now }) }
{
    let (pool, seat, mut seats) = open(alloc)?;
    let (seat, played) = play_in(rt, alloc, &pool, seat, input);
    seats.push_reserved(seat);
    let Some(played) = played else {
        pool.abandon(seats);
        return Err(AllocError);
    };
    match pool.close(rt, alloc, seats) {
        Ok(_end) => Ok(played),
        Err((pool, seats)) => {
            pool.abandon(seats);
            Err(AllocError)
        }
    }
}

// Plays the calls in a new pool. None is want of memory; then the seat may count the root still.
fn play_in<W: Wait>(
    rt: &W,
    alloc: Global,
    pool: &SharedPool,
    first: PoolSeat,
    input: &Input,
) -> (PoolSeat, Option<Played>)
    requires input { IsInput input.now }
    requires layout { pool.now.layout ≡ LAYOUT }
    requires seat { IsOpened LAYOUT pool.now 0 first }
    ensures seat { IsPoolSeat pool.now result.0 }
    ensures played { IfSome result.1 (λ played. HasPlayed pool.now input.now played result.0) }
{
    let mut seat = first;
    let Some(root) = bear(rt, pool, &mut seat, input.capacity) else {
        return (seat, None);
    };
    let Ok(nest) = Nest::new(alloc, root, CALL_LIMIT) else {
        return (seat, None);
    };
    let mut play = Playing { seat, nest, root };
    let replies = play_all(rt, alloc, pool, &mut play, input.calls.items());
    let Playing {
        seat,
        nest,
        root: _,
    } = play;
    let live = spend(nest);
    match replies {
        Ok(replies) => (seat, Some(Played { replies, live })),
        Err(AllocError) => (seat, None),
    }
}

// The replies to calls, one after another.
fn play_all<W: Wait>(
    rt: &W,
    alloc: Global,
    pool: &SharedPool,
    play: &mut Playing,
    calls: &[Call],
) -> Result<ReplyList, AllocError>
    requires { Stands pool.now (length calls.now) play.old }
    ensures ok { IfOk result (λ replies.
        HasAnswered pool.now calls.now play.old replies play.new) }
    ensures seat { IsPoolSeat pool.now play.new.seat }
{
    let mut replies = Vec::with_capacity(alloc, calls.len())?;
    for call in calls {
        let reply = play.answer(rt, alloc, pool, call)?;
        replies.push_reserved(reply);
    }
    Ok(ReplyList::of(replies))
}

// Spends a nest, and answers how many of its views were live, the root among them.
fn spend(nest: Nest) -> u32
    ensures { result ≡ live_views nest }
{
    let live = nest.live();
    if live == 0 {
        nest.close();
    } else {
        nest.leave();
    }
    live
}
