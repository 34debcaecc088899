//! What follows the release that ended the root's count.
ghost use Rattle.std.specs.Prelude.{◌≡◌};
ghost use Rattle.shared_pool.specs.RootNotes.{HoldsToken};
ghost use Rattle.seat_work.specs.Answers.{with_token};
ghost use Rattle.seat_work.specs.Hands.{empty_hand};
ghost use Rattle.seat_work.specs.Changes.{no_change};
ghost use Rattle.seat_work.specs.Works.{Proceeds, Works};
ghost use Rattle.nest_run.specs.Standing.{HasEnded};

use crate::steps::{give, put_handle};
use pool_table::EndToken;
use shared_pool::{PoolSeat, Retired, SharedPool};
use std::sync::Wait;

/// The root ends, its region goes back to its arena, and the handle of its place goes home.
pub fn end<W: Wait>(rt: &W, pool: &SharedPool, seat: &mut PoolSeat, token: EndToken)
    requires works { Works pool.now (with_token token.root) 4 0 seat.old }
    requires token { HoldsToken seat.old token }
    ensures proceeds { Proceeds pool.now empty_hand 4 0 no_change seat.old seat.new }
    ensures ended { HasEnded token.root seat.old seat.new }
{
    let Retired {
        number: _,
        region,
        handle,
    } = pool.retire(seat, token);
    give(rt, pool, seat, region);
    put_handle(rt, pool, seat, handle);
}
