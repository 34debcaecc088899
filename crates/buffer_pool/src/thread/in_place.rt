//! How the bytes of buffers are changed in place by a closure, which copies none. A change that is
//! not refused is one note, a set of all the bytes that the closure was lent, and takes a turn.

ghost use Rattle.std.specs.Prelude.{◌≡◌, ℕ, List, length, IfErr, IfOk, MatchResult, None, OnErr, OnOk, Some};
ghost use Rattle.std.specs.Fn.{FnOnceReturnsAtMut};
ghost use Rattle.pool_law.specs.declared.note.Object.TheVariants.{Root};
ghost use Rattle.pool_law.specs.Views.{in_range, root_index};
ghost use Rattle.shared_pool.specs.RootNotes.{IsSetOver};
ghost use Rattle.seat_work.specs.Changes.{no_change};
ghost use Rattle.pool_member.specs.Alone.{LaysOver};
ghost use Rattle.pool_member.specs.Refusals.{part_no};
ghost use Rattle.pool_member.specs.Threads.{HasChanged};
ghost use Rattle.pool_member.specs.Tries.{IsTried, Leaves};

use crate::buffer::Buffer;
use crate::name::PoolName;
use crate::pool::Pool;
use crate::thread::PoolThread;
use pool_member::work::in_place;
use pool_member::{AccessNo, TryNo};
use std::sync::Wait;

impl<B: PoolName> PoolThread<B> {
    /// Calls `f` once with `len` bytes of a buffer, from `start` on, to change in place. It is noted
    /// as a set of all of them, to what `f` left. Where it is refused, `f` is dropped.
    pub fn with_bytes_mut<W: Wait, R, F: FnOnce(&mut [u8]) -> R + Drop>(
        &mut self,
        rt: &W,
        pool: &Pool<B>,
        buffer: &Buffer<B>,
        start: u32,
        len: u32,
        f: F,
    ) -> Result<R, AccessNo>
        requires callable { F.IsAlwaysCallable f }
        ensures answers { let b = buffer.now in
            let no = part_no self.old.account b (in_range b.at start len) 1 0 in
            MatchResult result (λ _. no ≡ None) (λ why. no ≡ Some why) }
        ensures changed { OnOk result (let root = buffer.now.at.root in
            HasChanged 1 no_change (Some root) self.old self.new) }
        ensures moves { OnOk result (self.new.account.moves ≡ self.old.account.moves) }
        ensures set { IfOk result (λ answer. let at = buffer.now.at in
            (before : List ℕ) × (bytes : List ℕ) × (number : ℕ)
            × (length before ≡ len) × (length bytes ≡ len)
            × FnOnceReturnsAtMut F.FnOnce f before answer bytes
            × IsSetOver pool.now self.old.seat self.new.seat at.root number
            (root_index at start) before bytes
            × LaysOver at.root (root_index at start) bytes self.old self.new) }
        ensures unchanged { OnErr result (self.new ≡ self.old) }
    {
        let offset = self.may_access(pool, buffer, start, len as usize)?;
        let root = buffer.view.at.root;
        Ok(in_place::with_bytes_mut(rt, &pool.shared, &mut self.member, root, offset, len, f))
    }

    /// Tries to call `f` once with `len` bytes of a buffer, from `start` on, to change in place. It
    /// is noted as a set of all of them, to what `f` left. Where it was not called, `f` comes back.
    pub fn try_with_bytes_mut<R, F: FnOnce(&mut [u8]) -> R>(
        &mut self,
        pool: &Pool<B>,
        buffer: &Buffer<B>,
        start: u32,
        len: u32,
        f: F,
    ) -> Result<R, (TryNo, F)>
        requires callable { F.IsAlwaysCallable f }
        ensures answers { let b = buffer.now in
            let no = part_no self.old.account b (in_range b.at start len) 1 0 in
            MatchResult result (λ _. no ≡ None) (λ e. IsTried no e.0) }
        ensures changed { OnOk result (let root = buffer.now.at.root in
            HasChanged 1 no_change (Some root) self.old self.new) }
        ensures moves { OnOk result (self.new.account.moves ≡ self.old.account.moves) }
        ensures set { IfOk result (λ answer. let at = buffer.now.at in
            (before : List ℕ) × (bytes : List ℕ) × (number : ℕ)
            × (length before ≡ len) × (length bytes ≡ len)
            × FnOnceReturnsAtMut F.FnOnce f before answer bytes
            × IsSetOver pool.now self.old.seat self.new.seat at.root number
            (root_index at start) before bytes
            × LaysOver at.root (root_index at start) bytes self.old self.new) }
        ensures left { let o = Root buffer.now.at.root.place in
            IfErr result (λ e. Leaves pool.now o self.old self.new e.0 × (e.1 ≡ f)) }
    {
        let offset = match self.may_access(pool, buffer, start, len as usize) {
            Ok(offset) => offset,
            Err(why) => return Err((TryNo::Refused(why), f)),
        };
        let root = buffer.view.at.root;
        match in_place::try_with_bytes_mut(&pool.shared, &mut self.member, root, offset, len, f) {
            Ok(answer) => Ok(answer),
            Err(back) => Err((TryNo::Busy, back)),
        }
    }
}
