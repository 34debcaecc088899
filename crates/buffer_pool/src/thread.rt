//! The threads of a pool.

ghost use Rattle.std.specs.Prelude.{◌≡◌, ◌+◌, ◌&&◌, nat_le, nat_lt};
ghost use Rattle.pool_member.specs.Counting.{counted, known};
ghost use Rattle.pool_member.specs.Refusals.{is_here};

use crate::buffer::Buffer;
use crate::name::PoolName;
use crate::pool::Pool;
use pool_member::Member;
use std::marker::{Model, PhantomData};

mod attempts;
mod buffers;
mod bytes;
mod growth;
mod in_place;
mod lones;
mod parcels;
mod settling;
mod tries;
mod trimming;

/// A thread of a pool: only with it, and with the pool, are buffers used. It may go to any thread
/// of the program, and must be given to the close. A contract sees its seat, with the notes that it
/// made, and its account: what it counts, and what it has left.
pub struct PoolThread<B: PoolName> {
    pub(crate) member: Member,
    pub(crate) of: PhantomData<B>,
}

impl<B: PoolName> Model for PoolThread<B> {
    ghost use Rattle.std.specs.Prelude.{IfSome};
    ghost use Rattle.pool_member.specs.declared.member.Member.{Member};
    ghost use Rattle.pool_member.specs.Threads.{IsThread};

    ghost Value = { Member };

    ghost view = { λ t. t.member };

    ghost invariant = { λ t. IfSome B.pool (λ pool. IsThread pool t.member) };
}

impl<B: PoolName> PoolThread<B> {
    /// Its number.
    pub fn number(&self) -> u32
        ensures { result ≡ self.now.account.lane }
    {
        self.member.account.lane
    }

    // Whether a buffer is the thread's, as `Buffer::is_here` tells it.
    #[inline(always)]
    pub(crate) fn has(&self, pool: &Pool<B>, buffer: &Buffer<B>) -> bool
        ensures { result ≡ is_here self.now.account buffer.now }
    {
        self.member.account.lane == buffer.thread && self.reaches(pool, buffer)
    }

    // The same for an access, which asks for the number of the seat anyway.
    #[inline(always)]
    pub(crate) fn has_by_seat(&self, pool: &Pool<B>, buffer: &Buffer<B>) -> bool
        ensures { result ≡ is_here self.now.account buffer.now }
    {
        self.seat_number(pool) == buffer.thread && self.reaches(pool, buffer)
    }

    // Its number, as its seat tells it.
    #[inline(always)]
    fn seat_number(&self, pool: &Pool<B>) -> u32
        ensures { result ≡ self.now.account.lane }
    {
        let _shared = &pool.shared;
        let Some(number) = self.member.seat.number() else {
            unreachable!()
        };
        number
    }

    // Whether the thread counts the root of a buffer, and knows of its capacity where the buffer
    // ends. That the root is at one of the pool's places is known, and not tested.
    #[inline(always)]
    fn reaches(&self, pool: &Pool<B>, buffer: &Buffer<B>) -> bool
        ensures { let at = buffer.now.at in let counts = self.now.account.counts in
            result ≡ (nat_lt 0 (counted counts at.root)
            && nat_le (at.offset + at.len) (known counts at.root)) }
    {
        let _shared = &pool.shared;
        let end = buffer.view.at.offset + buffer.view.at.len;
        self.member
            .account
            .counts
            .reaches_at(&buffer.view.at.root, end)
    }

    /// How many turns and moves it has left, at least.
    pub fn left(&self) -> (u64, u32)
        ensures { (result.0 ≡ self.now.account.turns) × (result.1 ≡ self.now.account.moves) }
    {
        (self.member.account.turns, self.member.account.moves)
    }
}
