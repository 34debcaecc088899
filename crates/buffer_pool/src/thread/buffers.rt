//! How buffers come, are counted, and end.

ghost use Rattle.std.specs.Prelude.{◌≡◌, ◌+◌, ◌<◌, ◌≤◌, ◌↔◌, true, Err, IfOk, IfErr, IsTrue, OnErr, OnOk, MatchResult, None, Some};
ghost use Rattle.size_classes.specs.Sizes.{chunk_bytes};
ghost use Rattle.pool_law.specs.Limits.{geometry_of};
ghost use Rattle.pool_law.specs.declared.note.RefDid.TheVariants.{Look};
ghost use Rattle.pool_law.specs.Views.{in_range, slice_of, LiesIn};
ghost use Rattle.pool_law.specs.Views as views;
ghost use Rattle.pool_table.specs.Counts.{with_ref};
ghost use Rattle.shared_pool.specs.SeatViews.{HasView, view_of};
ghost use Rattle.seat_work.specs.Changes.{no_change, once_less, once_more};
ghost use Rattle.seat_work.specs.Works.{HasBorn};
ghost use Rattle.pool_member.specs.Allotting.{IsAllotted, IsRefused};
ghost use Rattle.pool_member.specs.Answers.{alloc_told, alloc_turns, as_alloc, HasCause};
ghost use Rattle.pool_member.specs.Counting.{counted, known};
ghost use Rattle.pool_member.specs.Refusals.{call_no, is_here, part_no};
ghost use Rattle.pool_member.specs.Threads.{HasChanged, IsSettled, moves_after};
ghost use Rattle.pool_member.specs.Watching.{with_next};

use crate::answers::Back;
use crate::buffer::Buffer;
use crate::name::PoolName;
use crate::pool::Pool;
use crate::thread::PoolThread;
use byte_view::View;
use pool_law::RootId;
use pool_member::work::{allocation, counting, settling, turns};
use pool_member::{AccessNo, AllocNo, in_parts};
use std::marker::PhantomData;
use std::sync::Wait;

/// How many turns an allocation takes, and a release.
pub(crate) const ALLOC_TURNS: u64 = 6;

pub(crate) const RELEASE_TURNS: u64 = 4;

impl<B: PoolName> PoolThread<B> {
    /// A new buffer of so many bytes, all 0, of which none is written yet. The thread counts it
    /// once. A refusal leaves its counts as they were, and which of its next buffers are watched;
    /// for want of turns, and where the buffer is too large, nothing has changed. Nothing is left to
    /// put away of what calls that never wait began.
    #[inline(always)]
    pub fn alloc<W: Wait>(
        &mut self,
        rt: &W,
        pool: &Pool<B>,
        size: u32,
    ) -> Result<Buffer<B>, AllocNo>
        ensures buffer { IfOk result (λ b.
            (b.at ≡ views.view_of b.at.root) × (b.at.root.capacity ≡ size)
            × (b.thread ≡ self.old.account.lane)) }
        ensures here { IfOk result (λ b. IsTrue (is_here self.new.account b)) }
        ensures changed { IfOk result (λ b.
            HasChanged 6 (once_more b.at.root) None self.old self.new) }
        ensures born { IfOk result (λ b.
            HasBorn pool.now b.at.root self.old.seat self.new.seat) }
        ensures moves { self.new.account.moves ≡ self.old.account.moves }
        ensures watcher { MatchResult result
            (λ _. self.new.watcher ≡ with_next self.old.watcher)
            (λ _. self.new.watcher ≡ self.old.watcher) }
        ensures settled { MatchResult result (λ _. IsSettled self.new)
            (λ no. alloc_turns no ≡ 6 → IsSettled self.new) }
        ensures stays { IsSettled self.old → IsSettled self.new }
        ensures too_large { (result ≡ Err AllocNo.TooLarge)
            ↔ (chunk_bytes (geometry_of pool.now.table.layout.shape) < size) }
        ensures refused { IfErr result (λ no.
            HasChanged (alloc_turns no) (alloc_told no) None self.old self.new) }
        ensures cause { IfErr result (HasCause pool.now self.old self.new) }
        ensures allotted { IfOk result (λ b.
            IsAllotted pool.now size b.at.root self.old self.new) }
        ensures told { IfErr result (λ no. IsRefused pool.now size no self.old self.new) }
    {
        let Some(class) = pool.sizes.class_of(size) else {
            return Err(AllocNo::TooLarge);
        };
        let member = &mut self.member;
        if turns::lacks(member, ALLOC_TURNS) {
            return Err(AllocNo::Spent);
        }
        let root = if allocation::is_quick(member) {
            // Called here itself: behind each call that may wait a program makes a test.
            match seat_work::allocate(rt, &pool.shared, &mut member.seat, size, class, None) {
                Ok(root) => {
                    let root = in_parts(&root);
                    allocation::count_born(member, &root);
                    root
                }
                Err(no) => return Err(alloc_no(no)),
            }
        } else {
            turns::give_back(member, ALLOC_TURNS);
            match allocation::allocate(rt, &pool.shared, member, size, class) {
                Ok(root) => sized(&root, size),
                Err(no) => return Err(alloc_no(no)),
            }
        };
        Ok(Buffer {
            view: View::of_root(root),
            thread: member.account.lane,
            of: PhantomData,
        })
    }

    /// Gives a count back. True exactly where it was the last one of all threads and parcels: the
    /// memory went back to the pool then, and nothing is left to put away. A refusal changes nothing,
    /// and hands the buffer back.
    #[inline(always)]
    pub fn release<W: Wait>(
        &mut self,
        rt: &W,
        pool: &Pool<B>,
        buffer: Buffer<B>,
    ) -> Result<bool, Back<B>>
        ensures answers { let no = call_no self.old.account buffer 4 in
            MatchResult result (λ _. no ≡ None) (λ back. no ≡ Some back.why) }
        ensures changed { IfOk result (λ last.
            HasChanged 4 (once_less buffer.at.root last) None self.old self.new) }
        ensures moves { IfOk result (λ last.
            self.new.account.moves ≡ moves_after last self.old.account.moves) }
        ensures settled { OnOk result (IsSettled self.new) }
        ensures back { IfErr result (λ back. (back.buffer ≡ buffer) × (self.new ≡ self.old)) }
    {
        if !self.has(pool, &buffer) {
            let why = AccessNo::NotHere;
            return Err(Back { why, buffer });
        }
        let member = &mut self.member;
        if turns::lacks(member, RELEASE_TURNS) {
            let why = AccessNo::Spent;
            return Err(Back { why, buffer });
        }

        // Called here itself: behind each call that may wait a program makes a test.
        if !settling::is_nothing(&member.pending) {
            settling::settle_between(rt, &pool.shared, member, RELEASE_TURNS);
        }
        let root = &buffer.view.at.root;
        let last = seat_work::release(rt, &pool.shared, &mut member.seat, in_parts(root));
        counting::count_less(member, root, last);
        buffer.leave();
        Ok(last)
    }

    /// Another buffer on the same bytes, with a count of its own, and its reader and its writer
    /// where this one's are. It takes a move, which the release of a buffer gives back where that
    /// isn't the last one.
    pub fn retain(&mut self, pool: &Pool<B>, buffer: &Buffer<B>) -> Result<Buffer<B>, AccessNo>
        ensures answers { let b = buffer.now in
            let no = part_no self.old.account b true 1 1 in
            MatchResult result (λ _. no ≡ None) (λ why. no ≡ Some why) }
        ensures buffer { IfOk result (λ b. b ≡ buffer.now) }
        ensures here { IfOk result (λ b. IsTrue (is_here self.new.account b)) }
        ensures changed { IfOk result (λ b.
            HasChanged 1 (once_more b.at.root) None self.old self.new) }
        ensures moves { OnOk result (self.new.account.moves + 1 ≡ self.old.account.moves) }
        ensures unchanged { OnErr result (self.new ≡ self.old) }
    {
        buffer.may_part(&self.member.account, true, 1)?;
        Ok(self.count_more(pool, buffer.view.duplicate()))
    }

    /// A buffer on `len` of the bytes of this one, from `start` on, all to be read, with a count of
    /// its own. It takes a move, as `retain` does.
    pub fn slice(
        &mut self,
        pool: &Pool<B>,
        buffer: &Buffer<B>,
        start: u32,
        len: u32,
    ) -> Result<Buffer<B>, AccessNo>
        ensures answers { let b = buffer.now in
            let no = part_no self.old.account b (in_range b.at start len) 1 1 in
            MatchResult result (λ _. no ≡ None) (λ why. no ≡ Some why) }
        ensures buffer { IfOk result (λ b.
            (b.at ≡ slice_of buffer.now.at start len) × (b.thread ≡ buffer.now.thread)) }
        ensures here { IfOk result (λ b. IsTrue (is_here self.new.account b)) }
        ensures changed { IfOk result (λ b.
            HasChanged 1 (once_more b.at.root) None self.old self.new) }
        ensures moves { OnOk result (self.new.account.moves + 1 ≡ self.old.account.moves) }
        ensures unchanged { OnErr result (self.new ≡ self.old) }
    {
        let sliced = buffer.view.slice(start, len);
        buffer.may_part(&self.member.account, sliced.is_ok(), 1)?;
        match sliced {
            Ok(view) => Ok(self.count_more(pool, view)),
            Err(_no) => Err(AccessNo::Range),
        }
    }

    // A buffer on a view of a root that the thread counts, with a count of its own.
    fn count_more(&mut self, pool: &Pool<B>, view: View) -> Buffer<B>
        requires counts { 0 < counted self.old.account.counts view.at.root }
        requires reaches { LiesIn (known self.old.account.counts view.at.root) view.at }
        requires turns { 1 ≤ self.old.account.turns }
        requires moves { 1 ≤ self.old.account.moves }
        ensures buffer { (result.at ≡ view.at) × (result.thread ≡ self.old.account.lane) }
        ensures here { IsTrue (is_here self.new.account result) }
        ensures changed { HasChanged 1 (once_more view.at.root) None self.old self.new }
        ensures moves { self.new.account.moves + 1 ≡ self.old.account.moves }
    {
        counting::retain(&pool.shared, &mut self.member, view.at.root);
        Buffer {
            view,
            thread: self.member.account.lane,
            of: PhantomData,
        }
    }

    /// How often the buffer's bytes are counted over all threads and parcels, as one step of this
    /// call found it.
    pub fn refcnt(&mut self, pool: &Pool<B>, buffer: &Buffer<B>) -> Result<u32, AccessNo>
        ensures answers { let b = buffer.now in
            let no = call_no self.old.account b 0 in
            MatchResult result (λ _. no ≡ None) (λ why. no ≡ Some why) }
        ensures looked { IfOk result (λ count. let v = view_of self.old.seat in
            HasView self.new.seat (with_ref v buffer.now.at.root (Look count) v.moves)) }
        ensures account { self.new.account ≡ self.old.account }
        ensures unchanged { OnErr result (self.new ≡ self.old) }
    {
        let root = buffer.view.at.root;
        buffer.may(&self.member.account, 0)?;
        Ok(counting::look(&pool.shared, &mut self.member, root))
    }
}

// The same root, whose capacity is known.
#[inline(always)]
fn sized(root: &RootId, capacity: u32) -> RootId
    ensures { root.now.capacity ≡ capacity → result ≡ root.now }
{
    RootId {
        place: root.place,
        generation: root.generation,
        capacity,
    }
}

// The same answer of this crate.
fn alloc_no(no: seat_work::AllocNo) -> AllocNo
    ensures { result ≡ as_alloc no }
{
    match no {
        seat_work::AllocNo::NoHandle => AllocNo::NoHandle,
        seat_work::AllocNo::Full => AllocNo::Full,
        seat_work::AllocNo::Worn => AllocNo::Worn,
    }
}
