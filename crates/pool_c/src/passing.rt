//! How a thread makes a parcel of a buffer, and accepts one.

ghost use Rattle.std.specs.Prelude.{◌≡◌, MatchResult};
ghost use Rattle.pool_c.specs.Answers.{Answers};
ghost use Rattle.pool_c.specs.Parcels.{Accepts, accept_refusal, arrived, of_accept, HasParted, IsOf, LacksMemory, part_refusal, sent_view};
ghost use Rattle.pool_c.specs.Refusals.{root_of};

use crate::buffer::PoolBuffer;
use crate::carried::Carried;
use crate::codes::Refusal;
use crate::held::Held;
use pool_law::{RootId, ViewData};
use pool_member::AcceptNo;
use pool_member::work::passing;
use std::alloc::Global;

/// No root has bytes past so many.
const MOST_CAPACITY: u32 = 16_777_216;

impl Held {
    /// Makes a parcel of a buffer, for the thread of that number.
    pub(crate) fn part(
        &mut self,
        alloc: Global,
        buffer: &PoolBuffer,
        to: u32,
    ) -> Result<Box<Carried, Global>, Refusal>
        ensures pool { self.new.common ≡ self.old.common }
        ensures refused { let c = self.old.common in
            let no = part_refusal c self.old.member.account buffer.now to in
            Answers no result self.old.member self.new.member
            (λ made. HasParted buffer.now to c self.old.member self.new.member made.value)
            (LacksMemory self.old.member self.new.member) }
    {
        if to >= self.common.threads {
            return Err(Refusal::NoThread);
        }
        if buffer.offset > MOST_CAPACITY || buffer.length > MOST_CAPACITY - buffer.offset {
            return Err(Refusal::NotHere);
        }
        let root = self.may(buffer, true, 1, 0)?;
        let pool = self.common.name;
        let posted = None;
        let Ok(mut carried) = Box::new(alloc, Carried { pool, posted }) else {
            return Err(Refusal::NoMemory);
        };
        let at = buffer.sent(root);
        carried.posted = Some(passing::part(&self.common.shared, &mut self.member, to, at));
        Ok(carried)
    }

    /// The buffer of a parcel, which is then this thread's. The parcel has no letter then.
    pub(crate) fn accept(&mut self, carried: &mut Carried) -> Result<PoolBuffer, Refusal>
        requires of { carried.old.pool ≡ self.old.common.name → IsOf self.old.common carried.old }
        ensures pool { self.new.common ≡ self.old.common }
        ensures accepts { Accepts carried.old self.old.common self.old.member self.new.member
            result }
        ensures kept { MatchResult result (λ _. carried.new.pool ≡ carried.old.pool)
            (λ _. carried.new ≡ carried.old) }
    {
        if carried.pool != self.common.name {
            return Err(Refusal::NotHere);
        }
        let Some(posted) = &carried.posted else {
            return Err(Refusal::Empty);
        };
        let letter = posted.letter();
        if let Err(no) = self.member.account.may_accept(&letter) {
            return Err(unaccepted(no));
        }
        let Some(posted) = carried.posted.take() else {
            return Err(Refusal::Empty);
        };
        let at = passing::accept(&self.common.shared, &mut self.member, posted);
        Ok(PoolBuffer::arrived(self.common.name, self.member.account.lane, at))
    }
}

impl PoolBuffer {
    // The buffer as it lies in a parcel: all of it is to be read.
    fn sent(&self, root: RootId) -> ViewData
        requires { root ≡ root_of self.now }
        ensures { result ≡ sent_view self.now }
    {
        ViewData {
            root,
            offset: self.offset,
            len: self.length,
            reader: 0,
            writer: self.length,
        }
    }

    // The buffer of a thread that a view of the pool with this name is.
    fn arrived(pool: u32, thread: u32, at: ViewData) -> PoolBuffer
        ensures { result ≡ arrived pool thread at }
    {
        PoolBuffer {
            pool,
            thread,
            place: at.root.place,
            generation: at.root.generation,
            capacity: at.root.capacity,
            offset: at.offset,
            length: at.len,
        }
    }
}

// Why a parcel is not accepted.
fn unaccepted(no: AcceptNo) -> Refusal
    ensures { result ≡ of_accept no }
{
    match no {
        AcceptNo::NotHere => Refusal::NotHere,
        AcceptNo::OutOfOrder => Refusal::OutOfOrder,
        AcceptNo::Spent => Refusal::Spent,
    }
}
