//! What a thread does with its buffers.

ghost use Rattle.std.specs.Prelude.{◌≡◌, ◌==◌, ◌&&◌, ◌<◌, ◌≤◌, ◌+◌, ◌^◌, true, length, IfOk, IsTrue, MatchResult, None, OnErr, Some};
ghost use Rattle.pool_member.specs.Counting.{counted, known};
ghost use Rattle.pool_member.specs.Refusals.{is_here};
ghost use Rattle.pool_c.specs.Answers.{Allocs, as_stop, Gets, Releases, Sets, Settling, Slices};
ghost use Rattle.pool_c.specs.Refusals.{buffer_refusal, root_of, window_of};

use crate::buffer::PoolBuffer;
use crate::codes::Refusal;
use crate::held::Held;
use pool_law::RootId;
use pool_member::work::{access, allocation, counting, settling};
use seat_tries::AllocNo;

/// How many turns an allocation takes, and a release.
const ALLOC_TURNS: u64 = 6;

const RELEASE_TURNS: u64 = 4;

impl Held {
    // Whether a buffer is of this pool and thread, which counts its root and knows of as much
    // capacity as it reaches.
    fn is_here(&self, buffer: &PoolBuffer) -> bool
        ensures answers { result
            ≡ ((buffer.now.pool == self.now.common.name)
            && is_here self.now.member.account (window_of buffer.now)) }
        ensures fits { IsTrue result → buffer.now.offset + buffer.now.length < 2 ^ 32 }
    {
        let account = &self.member.account;
        let (count, told) = account.counts.of(buffer.root());
        let known = buffer.capacity.max(told);
        buffer.pool == self.common.name
            && account.lane == buffer.thread
            && count > 0
            && u64::from(buffer.offset) + u64::from(buffer.length) <= u64::from(known)
    }

    /// The root of a buffer, where a call on it may take so many turns and moves, and the range that
    /// the call is on is inside the buffer or isn't.
    pub(crate) fn may(
        &self,
        buffer: &PoolBuffer,
        inside: bool,
        turns: u64,
        moves: u32,
    ) -> Result<RootId, Refusal>
        ensures answers { let no = buffer_refusal self.now.common self.now.member.account buffer.now
            inside turns moves in
            MatchResult result (λ _. no ≡ None) (λ why. no ≡ Some why) }
        ensures root { IfOk result (λ root. root ≡ root_of buffer.now) }
        ensures counts { IfOk result (λ root. 0 < counted self.now.member.account.counts root) }
        ensures reaches { IfOk result (λ root. (inside ≡ true)
            × (buffer.now.offset + buffer.now.length ≤ known self.now.member.account.counts root)
            × (buffer.now.offset + buffer.now.length < 2 ^ 32)) }
        ensures left { IfOk result (λ _. (turns ≤ self.now.member.account.turns)
            × (moves ≤ self.now.member.account.moves)) }
    {
        if !self.is_here(buffer) {
            return Err(Refusal::NotHere);
        }
        if !inside {
            return Err(Refusal::Range);
        }
        let account = &self.member.account;
        if account.turns < turns || account.moves < moves {
            return Err(Refusal::Spent);
        }
        Ok(buffer.root())
    }

    /// A new buffer of so many bytes, all 0.
    pub(crate) fn alloc(&mut self, size: u32) -> Result<PoolBuffer, Refusal>
        ensures pool { self.new.common ≡ self.old.common }
        ensures allocs { Allocs size self.old.common self.old.member self.new.member result }
    {
        let Some(class) = self.common.sizes.class_of(size) else {
            return Err(Refusal::TooLarge);
        };
        if self.member.account.turns < ALLOC_TURNS {
            return Err(Refusal::Spent);
        }
        match allocation::try_allocate(&self.common.shared, &mut self.member, size, class) {
            Ok(root) => Ok(PoolBuffer::whole(self.common.name, &self.member.account, root)),
            Err(no) => Err(stopped(no)),
        }
    }

    /// Lays bytes over those of a buffer, from `start` on.
    pub(crate) fn set(
        &mut self,
        buffer: &PoolBuffer,
        start: u32,
        bytes: &[u8],
    ) -> Result<(), Refusal>
        ensures pool { self.new.common ≡ self.old.common }
        ensures sets { Sets buffer.now start bytes.now self.old.common self.old.member
            self.new.member result }
    {
        let inside = buffer.has_range(start, bytes.len());
        let root = self.may(buffer, inside, 1, 0)?;
        let offset = buffer.offset + start;
        if access::try_set(&self.common.shared, &mut self.member, &root, offset, bytes) {
            Ok(())
        } else {
            Err(Refusal::Busy)
        }
    }

    /// Copies bytes of a buffer out, from `start` on, as many as there is room for.
    pub(crate) fn get(
        &mut self,
        buffer: &PoolBuffer,
        start: u32,
        out: &mut [u8],
    ) -> Result<(), Refusal>
        ensures pool { self.new.common ≡ self.old.common }
        ensures gets { Gets buffer.now start out.new self.old.common self.old.member
            self.new.member result }
        ensures len { length out.new ≡ length out.old }
        ensures unread { OnErr result (out.new ≡ out.old) }
    {
        let inside = buffer.has_range(start, out.len());
        let root = self.may(buffer, inside, 1, 0)?;
        let offset = buffer.offset + start;
        if access::try_get(&self.common.shared, &mut self.member, &root, offset, out) {
            Ok(())
        } else {
            Err(Refusal::Busy)
        }
    }

    /// Gives the count of a buffer back. It is 1 where that was the last of all threads and parcels,
    /// and 0 otherwise.
    pub(crate) fn release(&mut self, buffer: &PoolBuffer) -> Result<i32, Refusal>
        ensures pool { self.new.common ≡ self.old.common }
        ensures releases { Releases buffer.now self.old.common self.old.member self.new.member
            result }
    {
        let root = self.may(buffer, true, RELEASE_TURNS, 0)?;
        match counting::try_release(&self.common.shared, &mut self.member, root) {
            Some(last) => Ok(i32::from(last)),
            None => Err(Refusal::Busy),
        }
    }

    /// Another buffer on `count` of the bytes of one, from `start` on, with a count of its own. It
    /// takes a move.
    pub(crate) fn slice(
        &mut self,
        buffer: &PoolBuffer,
        start: u32,
        count: u32,
    ) -> Result<PoolBuffer, Refusal>
        ensures pool { self.new.common ≡ self.old.common }
        ensures slices { Slices buffer.now start count self.old.common self.old.member
            self.new.member result }
    {
        let inside = buffer.has_range(start, count as usize);
        let root = self.may(buffer, inside, 1, 1)?;
        counting::retain(&self.common.shared, &mut self.member, root);
        let mut part = *buffer;
        part.offset = buffer.offset + start;
        part.length = count;
        Ok(part)
    }

    /// Puts away what the thread has begun.
    pub(crate) fn settle(&mut self) -> Result<(), Refusal>
        ensures pool { self.new.common ≡ self.old.common }
        ensures settling { Settling self.old.common self.old.member self.new.member result }
    {
        if settling::try_settle(&self.common.shared, &mut self.member) {
            Ok(())
        } else {
            Err(Refusal::Busy)
        }
    }
}

// Why an allocation stopped.
fn stopped(no: AllocNo) -> Refusal
    ensures { result ≡ as_stop no }
{
    match no {
        AllocNo::Busy => Refusal::Busy,
        AllocNo::NoHandle => Refusal::NoHandle,
        AllocNo::Full => Refusal::Full,
        AllocNo::Worn => Refusal::Worn,
    }
}
