//! The calls on the views of a nest, each with its reply.
ghost use Rattle.std.specs.Prelude.{◌≡◌, ◌≢◌, ◌-◌, ◌^◌, IfOk, OnErr, length, min};
ghost use Rattle.shared_pool.specs.Seats.{IsPoolSeat};
ghost use Rattle.nest_run.specs.Plays.{let_go};
ghost use Rattle.nest_run.specs.Standing.{IsPlayed, Stands, refusal};

use crate::calls::Call;
use crate::endings::end;
use crate::replies::Reply;
use counted_view::{Nest, NestEnd, NestNo};
use pool_law::{Bytes, RootId};
use shared_pool::{PoolSeat, SharedPool};
use std::alloc::{AllocError, Global};
use std::sync::Wait;

/// A nest over a root of a pool, and the seat that counts the root as often as the nest does. It
/// must be spent.
pub struct Playing {
    pub seat: PoolSeat,
    pub nest: Nest,
    pub root: RootId,
}

impl Playing {
    /// The reply to a call. Err is want of memory for the bytes that it reads; then nothing is done.
    pub fn answer<W: Wait>(
        &mut self,
        rt: &W,
        alloc: Global,
        pool: &SharedPool,
        call: &Call,
    ) -> Result<Reply, AllocError>
        requires { Stands pool.now 1 self.old }
        ensures ok { IfOk result (λ reply. IsPlayed pool.now call.now self.old reply self.new) }
        ensures err { OnErr result (IsPoolSeat pool.now self.new.seat) }
    {
        match call {
            Call::Slice { of, at, len } => Ok(self.slice(pool, *of, *at, *len)),
            Call::Retain(of) => Ok(self.retain(pool, *of)),
            Call::Release(of) => Ok(self.release(rt, pool, *of)),
            Call::Set { of, at, bytes } => Ok(self.set(rt, pool, *of, *at, bytes.items())),
            Call::Get { of, at, len } => self.get(rt, alloc, pool, *of, *at, *len),
        }
    }

    fn slice(&mut self, pool: &SharedPool, of: u32, at: u32, len: u32) -> Reply
        requires { Stands pool.now 1 self.old }
        ensures { IsPlayed pool.now (Call.Slice of at len) self.old result self.new }
    {
        match self.nest.slice(pool, &mut self.seat, of, at, len) {
            Ok(number) => Reply::Sliced(number),
            Err(no) => refused(no),
        }
    }

    fn retain(&mut self, pool: &SharedPool, of: u32) -> Reply
        requires { Stands pool.now 1 self.old }
        ensures { IsPlayed pool.now (Call.Retain of) self.old result self.new }
    {
        match self.nest.retain(pool, &mut self.seat, of) {
            Ok(()) => Reply::Done,
            Err(no) => refused(no),
        }
    }

    fn release<W: Wait>(&mut self, rt: &W, pool: &SharedPool, of: u32) -> Reply
        requires { Stands pool.now 1 self.old }
        ensures { IsPlayed pool.now (Call.Release of) self.old result self.new }
    {
        match self.nest.release(pool, &mut self.seat, of) {
            Ok(NestEnd { ended, token }) => match token {
                None => let_go(ended, false),
                Some(token) => {
                    end(rt, pool, &mut self.seat, token);
                    let_go(ended, true)
                }
            },
            Err(no) => refused(no),
        }
    }

    fn set<W: Wait>(&mut self, rt: &W, pool: &SharedPool, of: u32, at: u32, bytes: &[u8]) -> Reply
        requires { Stands pool.now 1 self.old }
        ensures { IsPlayed pool.now (Call.Set of at bytes.now) self.old result self.new }
    {
        match self.nest.range(of, at, count(bytes)) {
            Ok((offset, _len)) => {
                seat_work::set(rt, pool, &mut self.seat, self.root, offset, bytes);
                Reply::Done
            }
            Err(no) => refused(no),
        }
    }

    fn get<W: Wait>(
        &mut self,
        rt: &W,
        alloc: Global,
        pool: &SharedPool,
        of: u32,
        at: u32,
        len: u32,
    ) -> Result<Reply, AllocError>
        requires { Stands pool.now 1 self.old }
        ensures ok { IfOk result (λ reply.
            IsPlayed pool.now (Call.Get of at len) self.old reply self.new) }
        ensures err { OnErr result (IsPoolSeat pool.now self.new.seat) }
    {
        match self.nest.range(of, at, len) {
            Ok((offset, _len)) => {
                let mut bytes = Vec::from_elem(alloc, 0, len as usize)?;
                seat_work::get(
                    rt,
                    pool,
                    &mut self.seat,
                    self.root,
                    offset,
                    bytes.as_mut_slice(),
                );
                Ok(Reply::Read(Bytes::of(bytes)))
            }
            Err(no) => Ok(refused(no)),
        }
    }
}

// How many bytes these are, or the greatest number where they are more: no view has as many.
fn count(bytes: &[u8]) -> u32
    ensures { result ≡ min (length bytes.now) (2 ^ 32 - 1) }
{
    bytes.len().min(u32::MAX as usize) as u32
}

// The reply to a call that is refused. There is room for as many views and holds as calls can make.
fn refused(no: NestNo) -> Reply
    requires { no ≢ NestNo.Full }
    ensures { result ≡ refusal no }
{
    match no {
        NestNo::Gone => Reply::Gone,
        NestNo::Range => Reply::Range,
        NestNo::Full => unreachable!(),
    }
}

// The reply to a release that ended so many views but the root, and the root or not.
fn let_go(ended: u32, root: bool) -> Reply
    ensures { result ≡ let_go ended root }
{
    if ended > 0 || root {
        Reply::Freed { ended, root }
    } else {
        Reply::Kept
    }
}
