//! How the bytes of buffers are accessed by who never waits. Each call makes one try: where another
//! thread is at the buffer's bytes just then, it answers that they are busy, and nothing has changed.
//! It is refused as the call of the same name that waits.

ghost use Rattle.std.specs.Prelude.{◌≡◌, ℕ, List, length, IfErr, IfOk, MatchResult, None, OnErr, OnOk, Some};
ghost use Rattle.std.specs.Fn.{FnOnceReturnsAt};
ghost use Rattle.pool_law.specs.declared.note.Did.{Did};
ghost use Rattle.pool_law.specs.declared.note.Object.TheVariants.{Root};
ghost use Rattle.pool_law.specs.Roots.{bytes_at};
ghost use Rattle.pool_law.specs.Views.{after_read, after_write, can_read, can_write, in_range, root_index};
ghost use Rattle.shared_pool.specs.RootNotes.{access};
ghost use Rattle.shared_pool.specs.Seats.{IsNoted};
ghost use Rattle.seat_work.specs.Changes.{no_change};
ghost use Rattle.pool_member.specs.Alone.{laid_in, AreLaid, IsAlone, LaysOver};
ghost use Rattle.pool_member.specs.Refusals.{call_no, part_no};
ghost use Rattle.pool_member.specs.Threads.{HasChanged};
ghost use Rattle.pool_member.specs.Tries.{IsTried, Leaves};

use crate::buffer::Buffer;
use crate::name::PoolName;
use crate::pool::Pool;
use crate::thread::PoolThread;
use pool_member::TryNo;
use pool_member::work::access;

impl<B: PoolName> PoolThread<B> {
    /// Tries to lay bytes over those of a buffer, from `start` on.
    pub fn try_set(
        &mut self,
        pool: &Pool<B>,
        buffer: &Buffer<B>,
        start: u32,
        bytes: &[u8],
    ) -> Result<(), TryNo>
        ensures answers { let b = buffer.now in
            let inside = in_range b.at start (length bytes.now) in
            let no = part_no self.old.account b inside 1 0 in
            MatchResult result (λ _. no ≡ None) (IsTried no) }
        ensures changed { OnOk result (let root = buffer.now.at.root in
            HasChanged 1 no_change (Some root) self.old self.new) }
        ensures laid { OnOk result (let b = buffer.now in
            LaysOver b.at.root (root_index b.at start) bytes.now self.old self.new) }
        ensures moves { OnOk result (self.new.account.moves ≡ self.old.account.moves) }
        ensures noted { OnOk result (let b = buffer.now in (number : ℕ)
            × IsNoted pool.now self.old.seat self.new.seat (Root b.at.root.place) number
            (access b.at.root (Did.Set (root_index b.at start) bytes.now))) }
        ensures left { let o = Root buffer.now.at.root.place in
            IfErr result (Leaves pool.now o self.old self.new) }
    {
        let offset = self.may_access(pool, buffer, start, bytes.len())?;
        let root = &buffer.view.at.root;
        if access::try_set(&pool.shared, &mut self.member, root, offset, bytes) {
            Ok(())
        } else {
            Err(TryNo::Busy)
        }
    }

    /// Tries to copy bytes of a buffer out, from `start` on, as many as there is room for.
    pub fn try_get(
        &mut self,
        pool: &Pool<B>,
        buffer: &Buffer<B>,
        start: u32,
        out: &mut [u8],
    ) -> Result<(), TryNo>
        ensures answers { let b = buffer.now in
            let inside = in_range b.at start (length out.old) in
            let no = part_no self.old.account b inside 1 0 in
            MatchResult result (λ _. no ≡ None) (IsTried no) }
        ensures changed { OnOk result (HasChanged 1 no_change None self.old self.new) }
        ensures own { OnOk result (let b = buffer.now in
            AreLaid self.old b.at.root (root_index b.at start) out.new) }
        ensures moves { OnOk result (self.new.account.moves ≡ self.old.account.moves) }
        ensures noted { OnOk result (let b = buffer.now in (number : ℕ)
            × IsNoted pool.now self.old.seat self.new.seat (Root b.at.root.place) number
            (access b.at.root (Did.Get (root_index b.at start) out.new))) }
        ensures len { length out.new ≡ length out.old }
        ensures left { let o = Root buffer.now.at.root.place in
            IfErr result (Leaves pool.now o self.old self.new) }
        ensures unread { OnErr result (out.new ≡ out.old) }
    {
        let offset = self.may_access(pool, buffer, start, out.len())?;
        let root = &buffer.view.at.root;
        if access::try_get(&pool.shared, &mut self.member, root, offset, out) {
            Ok(())
        } else {
            Err(TryNo::Busy)
        }
    }

    /// Tries to write bytes at the buffer's writer, which moves past them.
    pub fn try_write(
        &mut self,
        pool: &Pool<B>,
        buffer: &mut Buffer<B>,
        bytes: &[u8],
    ) -> Result<(), TryNo>
        ensures answers { let b = buffer.old in
            let inside = can_write b.at (length bytes.now) in
            let no = part_no self.old.account b inside 1 0 in
            MatchResult result (λ _. no ≡ None) (IsTried no) }
        ensures changed { OnOk result (let root = buffer.old.at.root in
            HasChanged 1 no_change (Some root) self.old self.new) }
        ensures laid { OnOk result (let b = buffer.old in
            LaysOver b.at.root (root_index b.at b.at.writer) bytes.now self.old self.new) }
        ensures moves { OnOk result (self.new.account.moves ≡ self.old.account.moves) }
        ensures moved { OnOk result
            (buffer.new ≡ record buffer.old { at = after_write buffer.old.at (length bytes.now) }) }
        ensures noted { OnOk result (let b = buffer.old in (number : ℕ)
            × IsNoted pool.now self.old.seat self.new.seat (Root b.at.root.place) number
            (access b.at.root (Did.Set (root_index b.at b.at.writer) bytes.now))) }
        ensures left { let o = Root buffer.old.at.root.place in
            IfErr result (Leaves pool.now o self.old self.new) }
        ensures stays { OnErr result (buffer.new ≡ buffer.old) }
    {
        let start = buffer.view.at.writer;
        self.try_set(pool, &*buffer, start, bytes)?;
        let _moved = buffer.view.write_range(bytes.len() as u32);
        Ok(())
    }

    /// Tries to read bytes at the buffer's reader, which moves past them, as many as there is room
    /// for. What the writer hasn't passed is not read.
    pub fn try_read(
        &mut self,
        pool: &Pool<B>,
        buffer: &mut Buffer<B>,
        out: &mut [u8],
    ) -> Result<(), TryNo>
        ensures answers { let b = buffer.old in
            let inside = can_read b.at (length out.old) in
            let no = part_no self.old.account b inside 1 0 in
            MatchResult result (λ _. no ≡ None) (IsTried no) }
        ensures changed { OnOk result (HasChanged 1 no_change None self.old self.new) }
        ensures own { OnOk result (let b = buffer.old in
            AreLaid self.old b.at.root (root_index b.at b.at.reader) out.new) }
        ensures moves { OnOk result (self.new.account.moves ≡ self.old.account.moves) }
        ensures moved { OnOk result
            (buffer.new ≡ record buffer.old { at = after_read buffer.old.at (length out.old) }) }
        ensures noted { OnOk result (let b = buffer.old in (number : ℕ)
            × IsNoted pool.now self.old.seat self.new.seat (Root b.at.root.place) number
            (access b.at.root (Did.Get (root_index b.at b.at.reader) out.new))) }
        ensures len { length out.new ≡ length out.old }
        ensures left { let o = Root buffer.old.at.root.place in
            IfErr result (Leaves pool.now o self.old self.new) }
        ensures stays { OnErr result ((buffer.new ≡ buffer.old) × (out.new ≡ out.old)) }
    {
        let at = buffer.view.at;
        let inside = out.len() <= (at.writer - at.reader) as usize;
        buffer.may_part(&self.member.account, inside, 0)?;
        self.try_get(pool, &*buffer, at.reader, out)?;
        let _moved = buffer.view.read_range(out.len() as u32);
        Ok(())
    }

    /// Tries to call `f` once with `len` bytes of a buffer, from `start` on, and copies none. It is
    /// noted as a get of all of them. Where it was not called, `f` comes back.
    pub fn try_with_bytes<R, F: FnOnce(&[u8]) -> R>(
        &mut self,
        pool: &Pool<B>,
        buffer: &Buffer<B>,
        start: u32,
        len: u32,
        f: F,
    ) -> Result<R, (TryNo, F)>
        requires callable { F.IsAlwaysCallable f }
        ensures answers { let b = buffer.now in
            let no = part_no self.old.account b (in_range b.at start len) 1 0 in
            MatchResult result (λ _. no ≡ None) (λ e. IsTried no e.0) }
        ensures changed { OnOk result (HasChanged 1 no_change None self.old self.new) }
        ensures own { IfOk result (λ answer. let b = buffer.now in IsAlone self.old b.at.root →
            FnOnceReturnsAt F.FnOnce f
            (bytes_at (laid_in self.old b.at.root) (root_index b.at start) len) answer) }
        ensures moves { OnOk result (self.new.account.moves ≡ self.old.account.moves) }
        ensures shown { IfOk result (λ answer. let b = buffer.now in
            (bytes : List ℕ) × (number : ℕ) × (length bytes ≡ len)
            × FnOnceReturnsAt F.FnOnce f bytes answer
            × IsNoted pool.now self.old.seat self.new.seat (Root b.at.root.place) number
            (access b.at.root (Did.Get (root_index b.at start) bytes))) }
        ensures left { let o = Root buffer.now.at.root.place in
            IfErr result (λ e. Leaves pool.now o self.old self.new e.0 × (e.1 ≡ f)) }
    {
        let offset = match self.may_access(pool, buffer, start, len as usize) {
            Ok(offset) => offset,
            Err(why) => return Err((TryNo::Refused(why), f)),
        };
        let root = buffer.view.at.root;
        match access::try_with_bytes(&pool.shared, &mut self.member, root, offset, len, f) {
            Ok(answer) => Ok(answer),
            Err(back) => Err((TryNo::Busy, back)),
        }
    }

    /// Tries to note that a buffer was touched, which a report of leaks tells.
    pub fn try_touch(&mut self, pool: &Pool<B>, buffer: &Buffer<B>) -> Result<(), TryNo>
        ensures answers { let b = buffer.now in
            let no = call_no self.old.account b 1 in
            MatchResult result (λ _. no ≡ None) (IsTried no) }
        ensures changed { OnOk result (HasChanged 1 no_change None self.old self.new) }
        ensures moves { OnOk result (self.new.account.moves ≡ self.old.account.moves) }
        ensures noted { OnOk result (let b = buffer.now in (number : ℕ)
            × IsNoted pool.now self.old.seat self.new.seat (Root b.at.root.place) number
            (access b.at.root Did.Touch)) }
        ensures left { let o = Root buffer.now.at.root.place in
            IfErr result (Leaves pool.now o self.old self.new) }
    {
        let root = buffer.view.at.root;
        buffer.may(&self.member.account, 1)?;
        if !access::try_touch(&pool.shared, &mut self.member, root) {
            return Err(TryNo::Busy);
        }
        Ok(())
    }
}
