//! A buffer that its thread alone has, which reads as a `Vec<u8>`.

ghost use Rattle.std.specs.Prelude.{◌≡◌, ℕ, false, true, List, length, IfErr, IfOk, MatchResult, None, OnErr, OnOk, Some};
ghost use Rattle.std.specs.Fn.{FnOnceReturnsAt, FnOnceReturnsAtMut};
ghost use Rattle.pool_law.specs.Roots.{bytes_at, laid_over};
ghost use Rattle.pool_law.specs.Views.{in_range, view_of};
ghost use Rattle.seat_work.specs.Changes.{no_change};
ghost use Rattle.pool_member.specs.Alone.{IsAlone};
ghost use Rattle.pool_member.specs.Counting.{is_alone};
ghost use Rattle.pool_member.specs.declared.answers.AccessNo.TheVariants.{NotHere};
ghost use Rattle.buffer_pool.specs.Lones.{bytes_of, lone_no};
ghost use Rattle.pool_member.specs.Threads.{HasChanged};

use crate::buffer::Buffer;
use crate::name::PoolName;
use crate::pool::Pool;
use crate::thread::PoolThread;
use pool_member::AccessNo;
use std::marker::Model;
use std::sync::Wait;

/// A buffer that its thread alone has: it was allocated as such, and no other buffer or parcel is on
/// its bytes. So what its thread's calls wrote is what they read. It becomes an ordinary buffer by
/// `into_buffer`, and must be that to be released. A contract sees where it lies in its root, and
/// whose it is.
pub struct Lone<B: PoolName> {
    pub(crate) buffer: Buffer<B>,
}

impl<B: PoolName> Model for Lone<B> {
    ghost use Rattle.std.specs.Prelude.{◌≡◌};
    ghost use Rattle.pool_law.specs.Views.{view_of};
    ghost use Rattle.pool_member.specs.Windows.{Window};

    ghost Value = { Window };

    ghost view = { λ l. l.buffer };

    ghost invariant = { λ l. l.buffer.at ≡ view_of l.buffer.at.root };
}

impl<B: PoolName> Lone<B> {
    /// How many bytes it has.
    pub fn len(&self) -> u32
        ensures { result ≡ self.now.at.len }
    {
        self.buffer.len()
    }

    /// The buffer as any other.
    pub fn into_buffer(self) -> Buffer<B>
        ensures { result ≡ self }
    {
        let Lone { buffer } = self;
        buffer
    }

    // A thread of the pool keeps that it alone has the bytes, and it has, or the call is refused.
    fn is_of(&self, thread: &PoolThread<B>, pool: &Pool<B>) -> Result<(), AccessNo>
        ensures kept { OnOk result (is_alone thread.now.account.counts self.now.at.root ≡ true) }
        ensures alone { OnOk result (IsAlone thread.now self.now.at.root) }
        ensures whole { OnOk result (self.now.at ≡ view_of self.now.at.root) }
        ensures no { IfErr result (λ why. (why ≡ NotHere)
            × (is_alone thread.now.account.counts self.now.at.root ≡ false)) }
    {
        let _shared = &pool.shared;
        let counts = &thread.member.account.counts;
        if counts.is_alone(self.buffer.view.at.root) {
            Ok(())
        } else {
            Err(AccessNo::NotHere)
        }
    }

    /// Lays bytes over those that it has, from `start` on.
    pub fn set<W: Wait>(
        &self,
        rt: &W,
        thread: &mut PoolThread<B>,
        pool: &Pool<B>,
        start: u32,
        bytes: &[u8],
    ) -> Result<(), AccessNo>
        ensures answers { let no = lone_no thread.old.account self.now
            (in_range self.now.at start (length bytes.now)) in
            MatchResult result (λ _. no ≡ None) (λ why. no ≡ Some why) }
        ensures changed { OnOk result (let root = self.now.at.root in
            HasChanged 1 no_change (Some root) thread.old thread.new) }
        ensures moves { OnOk result (thread.new.account.moves ≡ thread.old.account.moves) }
        ensures bytes { OnOk result (bytes_of thread.new self.now
            ≡ laid_over (bytes_of thread.old self.now) start bytes.now) }
        ensures alone { OnOk result (IsAlone thread.new self.now.at.root) }
        ensures unchanged { OnErr result (thread.new ≡ thread.old) }
    {
        self.is_of(thread, pool)?;
        thread.set(rt, pool, &self.buffer, start, bytes)
    }

    /// Copies bytes of it out, from `start` on, as many as there is room for.
    pub fn get<W: Wait>(
        &self,
        rt: &W,
        thread: &mut PoolThread<B>,
        pool: &Pool<B>,
        start: u32,
        out: &mut [u8],
    ) -> Result<(), AccessNo>
        ensures answers { let no = lone_no thread.old.account self.now
            (in_range self.now.at start (length out.old)) in
            MatchResult result (λ _. no ≡ None) (λ why. no ≡ Some why) }
        ensures changed { OnOk result (HasChanged 1 no_change None thread.old thread.new) }
        ensures moves { OnOk result (thread.new.account.moves ≡ thread.old.account.moves) }
        ensures bytes { OnOk result
            (out.new ≡ bytes_at (bytes_of thread.old self.now) start (length out.new)) }
        ensures len { length out.new ≡ length out.old }
        ensures same { OnOk result (bytes_of thread.new self.now ≡ bytes_of thread.old self.now) }
        ensures alone { OnOk result (IsAlone thread.new self.now.at.root) }
        ensures unchanged { OnErr result ((thread.new ≡ thread.old) × (out.new ≡ out.old)) }
    {
        self.is_of(thread, pool)?;
        thread.get(rt, pool, &self.buffer, start, out)
    }

    /// Calls `f` once with `len` of its bytes, from `start` on, and copies none. Where it is
    /// refused, `f` is dropped.
    pub fn with_bytes<W: Wait, R, F: FnOnce(&[u8]) -> R + Drop>(
        &self,
        rt: &W,
        thread: &mut PoolThread<B>,
        pool: &Pool<B>,
        start: u32,
        len: u32,
        f: F,
    ) -> Result<R, AccessNo>
        requires callable { F.IsAlwaysCallable f }
        ensures answers { let no = lone_no thread.old.account self.now
            (in_range self.now.at start len) in
            MatchResult result (λ _. no ≡ None) (λ why. no ≡ Some why) }
        ensures changed { OnOk result (HasChanged 1 no_change None thread.old thread.new) }
        ensures moves { OnOk result (thread.new.account.moves ≡ thread.old.account.moves) }
        ensures bytes { IfOk result (λ answer. FnOnceReturnsAt F.FnOnce f
            (bytes_at (bytes_of thread.old self.now) start len) answer) }
        ensures same { OnOk result (bytes_of thread.new self.now ≡ bytes_of thread.old self.now) }
        ensures alone { OnOk result (IsAlone thread.new self.now.at.root) }
        ensures unchanged { OnErr result (thread.new ≡ thread.old) }
    {
        self.is_of(thread, pool)?;
        thread.with_bytes(rt, pool, &self.buffer, start, len, f)
    }

    /// Calls `f` once with `len` of its bytes, from `start` on, to change in place, and copies none.
    /// Where it is refused, `f` is dropped.
    pub fn with_bytes_mut<W: Wait, R, F: FnOnce(&mut [u8]) -> R + Drop>(
        &self,
        rt: &W,
        thread: &mut PoolThread<B>,
        pool: &Pool<B>,
        start: u32,
        len: u32,
        f: F,
    ) -> Result<R, AccessNo>
        requires callable { F.IsAlwaysCallable f }
        ensures answers { let no = lone_no thread.old.account self.now
            (in_range self.now.at start len) in
            MatchResult result (λ _. no ≡ None) (λ why. no ≡ Some why) }
        ensures changed { OnOk result (let root = self.now.at.root in
            HasChanged 1 no_change (Some root) thread.old thread.new) }
        ensures moves { OnOk result (thread.new.account.moves ≡ thread.old.account.moves) }
        ensures bytes { IfOk result (λ answer. let old = bytes_of thread.old self.now in
            (after : List ℕ) × (length after ≡ len)
            × FnOnceReturnsAtMut F.FnOnce f (bytes_at old start len) answer after
            × (bytes_of thread.new self.now ≡ laid_over old start after)) }
        ensures alone { OnOk result (IsAlone thread.new self.now.at.root) }
        ensures unchanged { OnErr result (thread.new ≡ thread.old) }
    {
        self.is_of(thread, pool)?;
        thread.with_bytes_mut(rt, pool, &self.buffer, start, len, f)
    }
}
