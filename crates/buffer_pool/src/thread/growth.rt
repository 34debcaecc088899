//! How buffers get longer.

ghost use Rattle.std.specs.Prelude.{◌≡◌, ◌≤◌, IfErr, IfOk, IsTrue, MatchResult, None, Ok, OnErr, OnOk, Some};
ghost use Rattle.pool_law.specs.Limits.{geometry_of};
ghost use Rattle.pool_law.specs.Views.{reaching, LiesIn};
ghost use Rattle.seat_work.specs.Changes.{no_change};
ghost use Rattle.seat_work.specs.Regrowths.{IsTold};
ghost use Rattle.pool_member.specs.Alone.{GrowsAlone};
ghost use Rattle.pool_member.specs.declared.answers.CapacityNo.TheVariants.{Full};
ghost use Rattle.pool_member.specs.Growing.{IsGrown, IsTryUngrown, IsUngrown};
ghost use Rattle.pool_member.specs.Growths.{IsTriedBy, LeavesAsked};
ghost use Rattle.pool_member.specs.Refusals.{is_here};
ghost use Rattle.pool_member.specs.Regrowths.{capacity_no, IsRefusedBy, LeavesThread};
ghost use Rattle.pool_member.specs.Threads.{HasChanged, IsSettled};

use crate::buffer::Buffer;
use crate::name::PoolName;
use crate::pool::Pool;
use crate::thread::PoolThread;
use pool_member::work::attempted::AskNo;
use pool_member::work::growth;
use pool_member::{CapacityNo, TryCapacityNo};
use seat_work::GrowNo;
use std::sync::Wait;

/// How many turns it takes that a buffer gets longer.
const CAPACITY_TURNS: u64 = 6;

impl<B: PoolName> PoolThread<B> {
    /// Has the bytes in which a buffer lies be at least `size` in all, counted from the first that
    /// was allocated with it, and lets the buffer reach up to the last of them. How many they are
    /// then is answered. What is new is 0, and the bytes, the reader and the writer stay; a buffer
    /// never gets shorter. Other buffers on the same bytes keep their lengths. (Netty:
    /// `ByteBuf.capacity`)
    ///
    /// A refusal leaves the buffer and the counts as they were; only where the arena was full have
    /// turns been taken. Nothing is left to put away of what calls that never wait began.
    pub fn capacity<W: Wait>(
        &mut self,
        rt: &W,
        pool: &Pool<B>,
        buffer: &mut Buffer<B>,
        size: u32,
    ) -> Result<u32, CapacityNo>
        ensures answers { let g = geometry_of pool.now.table.layout.shape in
            let no = capacity_no g self.old.account buffer.old size in
            MatchResult result (λ _. no ≡ None) (IsRefusedBy no) }
        ensures grown { IfOk result (λ bytes. (size ≤ bytes) × LiesIn bytes buffer.old.at
            × (buffer.new ≡ record buffer.old { at = reaching bytes buffer.old.at })) }
        ensures told { IfOk result (λ bytes.
            IsTold pool.now buffer.old.at.root bytes self.old.seat self.new.seat) }
        ensures changed { OnOk result
            (HasChanged 6 no_change (Some buffer.old.at.root) self.old self.new) }
        ensures alone { GrowsAlone buffer.old.at.root self.old self.new }
        ensures here { OnOk result (IsTrue (is_here self.new.account buffer.new)) }
        ensures moves { self.new.account.moves ≡ self.old.account.moves }
        ensures settled { MatchResult result (λ _. IsSettled self.new)
            (λ no. no ≡ Full → IsSettled self.new) }
        ensures stays { IsSettled self.old → IsSettled self.new }
        ensures notes { let root = buffer.old.at.root in MatchResult result
            (λ bytes. IsGrown pool.now root size (Ok bytes) self.old self.new)
            (λ no. IsUngrown pool.now root size no self.old self.new) }
        ensures refused { IfErr result
            (LeavesThread buffer.old.at.root self.old self.new) }
        ensures unchanged { OnErr result (buffer.new ≡ buffer.old) }
    {
        if !buffer.is_here(&self.member.account) {
            return Err(CapacityNo::NotHere);
        }
        let Some(class) = pool.sizes.class_of(size) else {
            return Err(CapacityNo::TooLarge);
        };
        if self.member.account.turns < CAPACITY_TURNS {
            return Err(CapacityNo::Spent);
        }
        let root = buffer.view.at.root;
        match growth::grow(rt, &pool.shared, &mut self.member, root, size, class) {
            Ok(bytes) => {
                buffer.view.reach(bytes);
                Ok(bytes)
            }
            Err(GrowNo::Full) => Err(CapacityNo::Full),
        }
    }

    /// Tries the same once. It is busy where another thread is at the buffer's bytes or at this
    /// one's arena, or in the way of what is still to be put away: then the buffer and the counts
    /// are as they were, and turns have been taken. What it has in hand by then it puts away, or
    /// keeps, to go on with later.
    pub fn try_capacity(
        &mut self,
        pool: &Pool<B>,
        buffer: &mut Buffer<B>,
        size: u32,
    ) -> Result<u32, TryCapacityNo>
        ensures answers { let g = geometry_of pool.now.table.layout.shape in
            let no = capacity_no g self.old.account buffer.old size in
            MatchResult result (λ _. no ≡ None) (IsTriedBy no) }
        ensures grown { IfOk result (λ bytes. (size ≤ bytes) × LiesIn bytes buffer.old.at
            × (buffer.new ≡ record buffer.old { at = reaching bytes buffer.old.at })) }
        ensures told { IfOk result (λ bytes.
            IsTold pool.now buffer.old.at.root bytes self.old.seat self.new.seat) }
        ensures changed { OnOk result
            (HasChanged 6 no_change (Some buffer.old.at.root) self.old self.new) }
        ensures alone { GrowsAlone buffer.old.at.root self.old self.new }
        ensures here { OnOk result (IsTrue (is_here self.new.account buffer.new)) }
        ensures moves { self.new.account.moves ≡ self.old.account.moves }
        ensures notes { let root = buffer.old.at.root in MatchResult result
            (λ bytes. IsGrown pool.now root size (Ok bytes) self.old self.new)
            (λ no. IsTryUngrown pool.now root size no self.old self.new) }
        ensures left { IfErr result
            (LeavesAsked pool.now buffer.old.at.root self.old self.new) }
        ensures unchanged { OnErr result (buffer.new ≡ buffer.old) }
    {
        if !buffer.is_here(&self.member.account) {
            return Err(TryCapacityNo::Refused(CapacityNo::NotHere));
        }
        let Some(class) = pool.sizes.class_of(size) else {
            return Err(TryCapacityNo::Refused(CapacityNo::TooLarge));
        };
        if self.member.account.turns < CAPACITY_TURNS {
            return Err(TryCapacityNo::Refused(CapacityNo::Spent));
        }
        let root = buffer.view.at.root;
        match growth::try_grow(&pool.shared, &mut self.member, root, size, class) {
            Ok(capacity) => {
                buffer.view.reach(capacity);
                Ok(capacity)
            }
            Err(AskNo::Busy) => Err(TryCapacityNo::Busy),
            Err(AskNo::Full) => Err(TryCapacityNo::Refused(CapacityNo::Full)),
        }
    }
}
