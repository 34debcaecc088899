//! How the bytes of buffers are accessed. Each access that is not refused is one note, and takes a
//! turn. A refusal changes nothing.

ghost use Rattle.std.specs.Prelude.{◌≡◌, ℕ, ◌+◌, ◌<◌, ◌≤◌, true, List, length, IfOk, IfErr, OnOk, OnErr, MatchResult, None, Some};
ghost use Rattle.std.specs.Fn.{FnOnceReturnsAt};
ghost use Rattle.pool_law.specs.declared.note.Did.{Did};
ghost use Rattle.pool_law.specs.declared.note.Object.TheVariants.{Root};
ghost use Rattle.pool_law.specs.Roots.{bytes_at};
ghost use Rattle.pool_law.specs.Views.{after_read, after_write, can_read, can_write, in_range, root_index};
ghost use Rattle.shared_pool.specs.RootNotes.{access};
ghost use Rattle.shared_pool.specs.Seats.{IsNoted};
ghost use Rattle.seat_work.specs.Changes.{no_change};
ghost use Rattle.pool_member.specs.Alone.{laid_in, AreLaid, IsAlone, LaysOver};
ghost use Rattle.pool_member.specs.Counting.{counted, known};
ghost use Rattle.pool_member.specs.Refusals.{call_no, part_no};
ghost use Rattle.pool_member.specs.Threads.{HasChanged};

use crate::buffer::Buffer;
use crate::name::PoolName;
use crate::pool::Pool;
use crate::ranges::offset_of;
use crate::thread::PoolThread;
use pool_member::AccessNo;
use pool_member::work::access;
use std::sync::Wait;

impl<B: PoolName> PoolThread<B> {
    // Where in its root `len` bytes of a buffer lie, from `start` on, if they may be accessed.
    pub(crate) fn may_access(
        &self,
        pool: &Pool<B>,
        buffer: &Buffer<B>,
        start: u32,
        len: usize,
    ) -> Result<u32, AccessNo>
        ensures answers { let b = buffer.now in
            let no = part_no self.now.account b (in_range b.at start len) 1 0 in
            MatchResult result (λ _. no ≡ None) (λ why. no ≡ Some why) }
        ensures offset { IfOk result (λ offset. (offset ≡ root_index buffer.now.at start)
            × (offset + len ≤ known self.now.account.counts buffer.now.at.root)) }
        ensures may { OnOk result ((0 < counted self.now.account.counts buffer.now.at.root)
            × (1 ≤ self.now.account.turns)) }
    {
        let offset = offset_of(&buffer.view, start, len);
        if !self.has_by_seat(pool, buffer) {
            return Err(AccessNo::NotHere);
        }
        let Some(offset) = offset else {
            return Err(AccessNo::Range);
        };
        if self.member.account.turns < 1 {
            return Err(AccessNo::Spent);
        }
        Ok(offset)
    }

    /// Lays bytes over those of a buffer, from `start` on.
    #[inline(always)]
    pub fn set<W: Wait>(
        &mut self,
        rt: &W,
        pool: &Pool<B>,
        buffer: &Buffer<B>,
        start: u32,
        bytes: &[u8],
    ) -> Result<(), AccessNo>
        ensures answers { let b = buffer.now in
            let inside = in_range b.at start (length bytes.now) in
            let no = part_no self.old.account b inside 1 0 in
            MatchResult result (λ _. no ≡ None) (λ why. no ≡ Some why) }
        ensures changed { OnOk result (let root = buffer.now.at.root in
            HasChanged 1 no_change (Some root) self.old self.new) }
        ensures laid { OnOk result (let b = buffer.now in
            LaysOver b.at.root (root_index b.at start) bytes.now self.old self.new) }
        ensures moves { OnOk result (self.new.account.moves ≡ self.old.account.moves) }
        ensures noted { OnOk result (let b = buffer.now in (number : ℕ)
            × IsNoted pool.now self.old.seat self.new.seat (Root b.at.root.place) number
            (access b.at.root (Did.Set (root_index b.at start) bytes.now))) }
        ensures unchanged { OnErr result (self.new ≡ self.old) }
    {
        let offset = self.may_access(pool, buffer, start, bytes.len())?;
        let root = &buffer.view.at.root;
        let member = &mut self.member;
        if !access::try_set(&pool.shared, member, root, offset, bytes) {
            access::wait_to_set(rt, &pool.shared, member, root, offset, bytes);
        }
        Ok(())
    }

    /// Copies bytes of a buffer out, from `start` on, as many as there is room for.
    #[inline(always)]
    pub fn get<W: Wait>(
        &mut self,
        rt: &W,
        pool: &Pool<B>,
        buffer: &Buffer<B>,
        start: u32,
        out: &mut [u8],
    ) -> Result<(), AccessNo>
        ensures answers { let b = buffer.now in
            let inside = in_range b.at start (length out.old) in
            let no = part_no self.old.account b inside 1 0 in
            MatchResult result (λ _. no ≡ None) (λ why. no ≡ Some why) }
        ensures changed { OnOk result (HasChanged 1 no_change None self.old self.new) }
        ensures own { OnOk result (let b = buffer.now in
            AreLaid self.old b.at.root (root_index b.at start) out.new) }
        ensures moves { OnOk result (self.new.account.moves ≡ self.old.account.moves) }
        ensures noted { OnOk result (let b = buffer.now in (number : ℕ)
            × IsNoted pool.now self.old.seat self.new.seat (Root b.at.root.place) number
            (access b.at.root (Did.Get (root_index b.at start) out.new))) }
        ensures len { length out.new ≡ length out.old }
        ensures unchanged { OnErr result ((self.new ≡ self.old) × (out.new ≡ out.old)) }
    {
        let offset = self.may_access(pool, buffer, start, out.len())?;
        let root = &buffer.view.at.root;
        let member = &mut self.member;
        if !access::try_get(&pool.shared, member, root, offset, out) {
            access::wait_to_get(rt, &pool.shared, member, root, offset, out);
        }
        Ok(())
    }

    /// Writes bytes at the buffer's writer, which moves past them.
    pub fn write<W: Wait>(
        &mut self,
        rt: &W,
        pool: &Pool<B>,
        buffer: &mut Buffer<B>,
        bytes: &[u8],
    ) -> Result<(), AccessNo>
        ensures answers { let b = buffer.old in
            let inside = can_write b.at (length bytes.now) in
            let no = part_no self.old.account b inside 1 0 in
            MatchResult result (λ _. no ≡ None) (λ why. no ≡ Some why) }
        ensures changed { OnOk result (let root = buffer.old.at.root in
            HasChanged 1 no_change (Some root) self.old self.new) }
        ensures laid { OnOk result (let b = buffer.old in
            LaysOver b.at.root (root_index b.at b.at.writer) bytes.now self.old self.new) }
        ensures moves { OnOk result (self.new.account.moves ≡ self.old.account.moves) }
        ensures moved { OnOk result
            (buffer.new ≡ record buffer.old { at = after_write buffer.old.at (length bytes.now) }) }
        ensures noted { OnOk result (let b = buffer.old in (number : ℕ)
            × IsNoted pool.now self.old.seat self.new.seat (Root b.at.root.place) number
            (access b.at.root (Did.Set (root_index b.at b.at.writer) bytes.now))) }
        ensures unchanged { OnErr result ((self.new ≡ self.old) × (buffer.new ≡ buffer.old)) }
    {
        let start = buffer.view.at.writer;
        self.set(rt, pool, &*buffer, start, bytes)?;
        let _moved = buffer.view.write_range(bytes.len() as u32);
        Ok(())
    }

    /// Reads bytes at the buffer's reader, which moves past them, as many as there is room for. What
    /// the writer hasn't passed is not read.
    pub fn read<W: Wait>(
        &mut self,
        rt: &W,
        pool: &Pool<B>,
        buffer: &mut Buffer<B>,
        out: &mut [u8],
    ) -> Result<(), AccessNo>
        ensures answers { let b = buffer.old in
            let inside = can_read b.at (length out.old) in
            let no = part_no self.old.account b inside 1 0 in
            MatchResult result (λ _. no ≡ None) (λ why. no ≡ Some why) }
        ensures changed { OnOk result (HasChanged 1 no_change None self.old self.new) }
        ensures own { OnOk result (let b = buffer.old in
            AreLaid self.old b.at.root (root_index b.at b.at.reader) out.new) }
        ensures moves { OnOk result (self.new.account.moves ≡ self.old.account.moves) }
        ensures moved { OnOk result
            (buffer.new ≡ record buffer.old { at = after_read buffer.old.at (length out.old) }) }
        ensures noted { OnOk result (let b = buffer.old in (number : ℕ)
            × IsNoted pool.now self.old.seat self.new.seat (Root b.at.root.place) number
            (access b.at.root (Did.Get (root_index b.at b.at.reader) out.new))) }
        ensures len { length out.new ≡ length out.old }
        ensures unchanged { OnErr result ((self.new ≡ self.old) × (buffer.new ≡ buffer.old)
            × (out.new ≡ out.old)) }
    {
        let at = buffer.view.at;
        let inside = out.len() <= (at.writer - at.reader) as usize;
        buffer.may_part(&self.member.account, inside, 0)?;
        self.get(rt, pool, &*buffer, at.reader, out)?;
        let _moved = buffer.view.read_range(out.len() as u32);
        Ok(())
    }

    /// Calls `f` once with `len` bytes of a buffer, from `start` on, and copies none. It is noted as
    /// a get of all of them. Where it is refused, `f` is dropped.
    pub fn with_bytes<W: Wait, R, F: FnOnce(&[u8]) -> R + Drop>(
        &mut self,
        rt: &W,
        pool: &Pool<B>,
        buffer: &Buffer<B>,
        start: u32,
        len: u32,
        f: F,
    ) -> Result<R, AccessNo>
        requires callable { F.IsAlwaysCallable f }
        ensures answers { let b = buffer.now in
            let no = part_no self.old.account b (in_range b.at start len) 1 0 in
            MatchResult result (λ _. no ≡ None) (λ why. no ≡ Some why) }
        ensures changed { OnOk result (HasChanged 1 no_change None self.old self.new) }
        ensures own { IfOk result (λ answer. let b = buffer.now in IsAlone self.old b.at.root →
            FnOnceReturnsAt F.FnOnce f
            (bytes_at (laid_in self.old b.at.root) (root_index b.at start) len) answer) }
        ensures moves { OnOk result (self.new.account.moves ≡ self.old.account.moves) }
        ensures shown { IfOk result (λ answer. let b = buffer.now in
            (bytes : List ℕ) × (number : ℕ) × (length bytes ≡ len)
            × FnOnceReturnsAt F.FnOnce f bytes answer
            × IsNoted pool.now self.old.seat self.new.seat (Root b.at.root.place) number
            (access b.at.root (Did.Get (root_index b.at start) bytes))) }
        ensures unchanged { OnErr result (self.new ≡ self.old) }
    {
        let offset = self.may_access(pool, buffer, start, len as usize)?;
        let root = buffer.view.at.root;
        Ok(access::with_bytes(rt, &pool.shared, &mut self.member, root, offset, len, f))
    }

    /// Notes that a buffer was touched, which a report of leaks tells.
    pub fn touch<W: Wait>(
        &mut self,
        rt: &W,
        pool: &Pool<B>,
        buffer: &Buffer<B>,
    ) -> Result<(), AccessNo>
        ensures answers { let b = buffer.now in
            let no = call_no self.old.account b 1 in
            MatchResult result (λ _. no ≡ None) (λ why. no ≡ Some why) }
        ensures changed { OnOk result (HasChanged 1 no_change None self.old self.new) }
        ensures moves { OnOk result (self.new.account.moves ≡ self.old.account.moves) }
        ensures noted { OnOk result (let b = buffer.now in (number : ℕ)
            × IsNoted pool.now self.old.seat self.new.seat (Root b.at.root.place) number
            (access b.at.root Did.Touch)) }
        ensures unchanged { OnErr result (self.new ≡ self.old) }
    {
        let root = buffer.view.at.root;
        buffer.may(&self.member.account, 1)?;
        access::touch(rt, &pool.shared, &mut self.member, root);
        Ok(())
    }
}
