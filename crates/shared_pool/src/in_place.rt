//! Bytes of a root that a closure changes in place.

ghost use Rattle.std.specs.Prelude.{◌≡◌, ℕ, ◌+◌, ◌-◌, ◌<◌, ◌≤◌, false, List, length, IfSome};
ghost use Rattle.std.specs.Fn.{FnOnceReturnsAtMut};
ghost use Rattle.ground.specs.Ground.{with_bytes};
ghost use Rattle.pool_law.specs.Naming.{noted_by};
ghost use Rattle.pool_law.specs.Roots.{laid_over, bytes_at};
ghost use Rattle.pool_law.specs.declared.note.Did.{Did};
ghost use Rattle.pool_law.specs.declared.note.Object.{Object};
ghost use Rattle.pool_law.specs.declared.report.Access.{Access};
ghost use Rattle.pool_table.specs.declared.views.Entry.TheVariants.{At};
ghost use Rattle.pool_table.specs.Capacities.{knows_of};
ghost use Rattle.pool_table.specs.Counts.{CountsOne, HasCount};
ghost use Rattle.pool_table.specs.Views.{with_entry};
ghost use Rattle.pool_table.specs.Seats.{view_of as table_view, IsSeatOf, HasView};
ghost use Rattle.pool_table.specs.Seats.{SameSeat as SameTableSeat};
ghost use Rattle.pool_table.specs.Sections.{MayEnd};
ghost use Rattle.shared_pool.specs.SeatViews.{view_of, SameSeat};
ghost use Rattle.shared_pool.specs.Answers.{IfDid, IfHeld};
ghost use Rattle.shared_pool.specs.PlaceSteps.{MayAccess, Accesses, AreThere, shown};
ghost use Rattle.shared_pool.specs.PlaceStanding.{IsAccessed, home_bytes};
ghost use Rattle.shared_pool.specs.RootNotes.{access, IsSetOver};
ghost use Rattle.shared_pool.specs.Seats.{IsPoolSeat, FoundBusy};
ghost use Rattle.shared_pool.specs.Standing.{HomeStands, IsPlace, IfPlace};

use crate::home::Home;
use crate::noting::lane_of;
use crate::pool::SharedPool;
use crate::root_place::{Held, RootPlace};
use crate::seat::{PoolSeat, TableSeat};
use crate::went::Went;
use pool_law::{Access, Named, RootId};
use pool_table::{PoolTable, Section};
use std::marker::Brand;

impl SharedPool {
    /// Calls `f` once with bytes of a root in place, from an offset on, and copies none: `f` may
    /// change them. It is noted as a set of all of them, as `f` leaves them. `f` is given the bytes
    /// that are there: those that a get in the set's place would have got. Where another seat was
    /// there `f` comes back.
    pub fn with_bytes_mut<R, F: FnOnce(&mut [u8]) -> R>(
        &self,
        seat: &mut PoolSeat,
        root: RootId,
        offset: u32,
        len: u32,
        f: F,
    ) -> Went<R, F>
        requires seat { IsPoolSeat self.now seat.old }
        requires turn { 0 < (view_of seat.old).turns }
        requires counts { HasCount root (view_of seat.old) }
        requires range { offset + len ≤ knows_of root (view_of seat.old) }
        requires callable { F.IsAlwaysCallable f }
        ensures same { SameSeat seat.old seat.new }
        ensures seat { IsPoolSeat self.now seat.new }
        ensures did { IfDid result (λ number answer. (before : List ℕ) × (bytes : List ℕ)
            × (length before ≡ len) × (length bytes ≡ len)
            × FnOnceReturnsAtMut F.FnOnce f before answer bytes
            × IsSetOver self.now seat.old seat.new root number offset before bytes) }
        ensures held { IfHeld result (λ held back. (back ≡ f)
            × FoundBusy self.now (Object.Root root.place) false seat.old seat.new held) }
    {
        let lane = lane_of(seat);
        let mut section = match self.table.claim_place(&mut seat.seat, root.place, false) {
            Ok(section) => section,
            Err(held) => return Went::Held(held, f),
        };
        let answer = lend(&mut section, lane, offset, len, f);
        let number = note_left::<Brand>(&self.table, &mut seat.seat, section, root, offset, len);
        Went::Did(number, answer)
    }
}

// Calls `f` once with bytes of the root of a section in place.
#[inline(always)]
fn lend<R, F: FnOnce(&mut [u8]) -> R>(
    section: &mut Section<Home>,
    lane: u32,
    offset: u32,
    len: u32,
    f: F,
) -> R
    requires place { IsPlace section.old.home }
    requires may { IfPlace section.old.home (MayAccess offset len) }
    requires callable { F.IsAlwaysCallable f }
    ensures same { (section.new.object ≡ section.old.object)
        × (section.new.slot ≡ section.old.slot) }
    ensures place { IsPlace section.new.home }
    ensures len { (length (bytes_at (home_bytes section.old.home) offset len) ≡ len)
        × (length (bytes_at (home_bytes section.new.home) offset len) ≡ len) }
    ensures there { IfPlace section.old.home
        (AreThere offset (bytes_at (home_bytes section.old.home) offset len)) }
    ensures answer { FnOnceReturnsAtMut F.FnOnce f
        (bytes_at (home_bytes section.old.home) offset len) result
        (bytes_at (home_bytes section.new.home) offset len) }
    ensures did { let bytes = bytes_at (home_bytes section.new.home) offset len in
        IsAccessed section.old.home (Did.Set offset bytes) (Access.Set lane offset (length bytes))
        section.new.home }
{
    let Home::Root(place) = Section::home(section) else {
        unreachable!()
    };
    place.with_bytes_mut(lane, offset, len, f)
}

// Ends a section with the note that the bytes which the section's root has there were laid there.
#[inline(always)]
fn note_left<N: Named>(
    table: &PoolTable<Home>,
    seat: &mut TableSeat,
    section: Section<Home>,
    root: RootId,
    offset: u32,
    len: u32,
) -> u64
    requires named { let bytes = bytes_at (home_bytes section.home) offset len in
        N.note ≡ access root (Did.Set offset bytes) }
    requires own { IsSeatOf table.now seat.old }
    requires turn { 0 < (table_view seat.old).turns }
    requires object { section.object ≡ Object.Root root.place }
    requires section { let bytes = bytes_at (home_bytes section.home) offset len in
        MayEnd HomeStands table.now.layout.shape seat.old section
        (access root (Did.Set offset bytes)) }
    ensures same { SameTableSeat seat.old seat.new }
    ensures number { IfSome (table_view seat.old).inside (λ x. result ≡ x.number + 1) }
    ensures counts { CountsOne (table_view seat.new) }
    ensures noted { let v = table_view seat.old in
        let bytes = bytes_at (home_bytes section.home) offset len in
        let n = noted_by v.own.number (access root (Did.Set offset bytes)) in
        HasView seat.new (with_entry v (At section.object result n) (v.turns - 1)) }
{
    table.done::<N>(seat, section)
}

impl RootPlace {
    // Calls `f` once with bytes of the root in place, from an offset on.
    #[inline]
    fn with_bytes_mut<R, F: FnOnce(&mut [u8]) -> R>(
        &mut self,
        lane: u32,
        offset: u32,
        len: u32,
        f: F,
    ) -> R
        requires may { MayAccess offset len self.old }
        requires callable { F.IsAlwaysCallable f }
        ensures len { (length (bytes_at (shown self.old) offset len) ≡ len)
            × (length (bytes_at (shown self.new) offset len) ≡ len) }
        ensures there { AreThere offset (bytes_at (shown self.old) offset len) self.old }
        ensures answer { FnOnceReturnsAtMut F.FnOnce f (bytes_at (shown self.old) offset len)
            result (bytes_at (shown self.new) offset len) }
        ensures did { let bytes = bytes_at (shown self.new) offset len in
            Accesses self.old (Did.Set offset bytes)
            (Access.Set lane offset (length bytes)) self.new }
    {
        let Some(held) = &mut self.present else {
            unreachable!()
        };
        held.record(Access::Set { lane, offset, len });
        held.lend(offset, len, f)
    }
}

impl Held {
    // Calls `f` with bytes in place, from an offset on.
    fn lend<R, F: FnOnce(&mut [u8]) -> R>(&mut self, offset: u32, len: u32, f: F) -> R
        requires range { offset + len ≤ length self.old.piece.bytes }
        requires callable { F.IsAlwaysCallable f }
        ensures len { length (bytes_at self.new.piece.bytes offset len) ≡ len }
        ensures answer { FnOnceReturnsAtMut F.FnOnce f (bytes_at self.old.piece.bytes offset len)
            result (bytes_at self.new.piece.bytes offset len) }
        ensures laid { let left = bytes_at self.new.piece.bytes offset len in
            let laid = laid_over self.old.piece.bytes offset left in
            self.new ≡ record self.old { piece = with_bytes self.old.piece laid } }
    {
        let at = offset as usize;
        let there = self.piece.bytes_mut();
        f(&mut there[at..at + len as usize])
    }
}
