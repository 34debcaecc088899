//! Roots: the accesses to their bytes, and their ends.

ghost use Rattle.std.specs.Prelude.{◌≡◌, ℕ, ◌+◌, ◌<◌, ◌≤◌, false, List, length};
ghost use Rattle.std.specs.Fn.{FnOnceReturnsAt};
ghost use Rattle.pool_law.specs.Roots.{bytes_at};
ghost use Rattle.pool_law.specs.declared.note.Did.{Did};
ghost use Rattle.pool_law.specs.declared.note.Object.TheVariants.{Root};
ghost use Rattle.pool_law.specs.declared.note.RefDid.TheVariants.{Vacated};
ghost use Rattle.pool_table.specs.Capacities.{knows_of};
ghost use Rattle.pool_table.specs.Counts.{HasCount};
ghost use Rattle.pool_table.specs.Lone.{IsLone, own_bytes};
ghost use Rattle.shared_pool.specs.SeatViews.{view_of, SameSeat};
ghost use Rattle.shared_pool.specs.Answers.{IfDid, IfHeld};
ghost use Rattle.shared_pool.specs.Holding.{HoldsRegion, HoldsHandle};
ghost use Rattle.shared_pool.specs.RootNotes.{access, end_of, IsNotedWith, HoldsToken};
ghost use Rattle.shared_pool.specs.Seats.{IsPoolSeat, IsNoted, FoundBusy};

use crate::noting::{lane_of, note};
use crate::place_sections::{end, get, set, show, touch};
use crate::pool::SharedPool;
use crate::root_notes::{note_get, note_set, note_shown};
use crate::seat::PoolSeat;
use crate::went::{Retired, Went};
use pool_law::{Did, Noted, RootId};
use pool_table::EndToken;
use std::marker::Brand;

impl SharedPool {
    /// Lays bytes over those of a root, from an offset on, as far as the seat knows of its capacity.
    /// With `mark` the seat notes that another seat was there.
    #[inline(always)]
    pub fn write(
        &self,
        seat: &mut PoolSeat,
        root: RootId,
        offset: u32,
        bytes: &[u8],
        mark: bool,
    ) -> Went<(), ()>
        requires seat { IsPoolSeat self.now seat.old }
        requires turn { 0 < (view_of seat.old).turns }
        requires counts { HasCount root (view_of seat.old) }
        requires range { offset + length bytes.now ≤ knows_of root (view_of seat.old) }
        ensures same { SameSeat seat.old seat.new }
        ensures seat { IsPoolSeat self.now seat.new }
        ensures did { IfDid result (λ number done.
            IsNoted self.now seat.old seat.new (Root root.place) number
            (access root (Did.Set offset bytes.now))) }
        ensures held { IfHeld result (λ held back.
            FoundBusy self.now (Root root.place) mark seat.old seat.new held) }
    {
        let lane = lane_of(seat);
        let mut section = match self.table.claim_place(&mut seat.seat, root.place, mark) {
            Ok(section) => section,
            Err(held) => return Went::Held(held, ()),
        };
        set(&mut section, lane, offset, bytes);
        let number = note_set::<Brand>(&self.table, &mut seat.seat, section, root, offset, bytes);
        Went::Did(number, ())
    }

    /// Reads bytes of a root, from an offset on, as far as the seat knows of its capacity. Where
    /// another seat was there nothing is read, and with `mark` the seat notes that.
    #[inline(always)]
    pub fn read(
        &self,
        seat: &mut PoolSeat,
        root: RootId,
        offset: u32,
        out: &mut [u8],
        mark: bool,
    ) -> Went<(), ()>
        requires seat { IsPoolSeat self.now seat.old }
        requires turn { 0 < (view_of seat.old).turns }
        requires counts { HasCount root (view_of seat.old) }
        requires range { offset + length out.old ≤ knows_of root (view_of seat.old) }
        ensures same { SameSeat seat.old seat.new }
        ensures seat { IsPoolSeat self.now seat.new }
        ensures len { length out.new ≡ length out.old }
        ensures did { IfDid result (λ number done.
            IsNoted self.now seat.old seat.new (Root root.place) number
            (access root (Did.Get offset out.new))) }

        // A seat that bore the root and posted it to nobody reads what its own notes laid.
        ensures lone { IfDid result (λ number done. IsLone root (view_of seat.old) →
            out.new ≡ bytes_at (own_bytes root (view_of seat.old)) offset (length out.new)) }
        ensures held { IfHeld result (λ held back. (out.new ≡ out.old)
            × FoundBusy self.now (Root root.place) mark seat.old seat.new held) }
    {
        let lane = lane_of(seat);
        let mut section = match self.table.claim_place(&mut seat.seat, root.place, mark) {
            Ok(section) => section,
            Err(held) => return Went::Held(held, ()),
        };
        get(&mut section, lane, offset, out);
        let number = note_get::<Brand>(&self.table, &mut seat.seat, section, root, offset, out);
        Went::Did(number, ())
    }

    /// Calls `f` once with bytes of a root, from an offset on, and copies none. It is noted as a
    /// get of all of them. Where another seat was there `f` comes back.
    pub fn with_bytes<R, F: FnOnce(&[u8]) -> R>(
        &self,
        seat: &mut PoolSeat,
        root: RootId,
        offset: u32,
        len: u32,
        f: F,
    ) -> Went<R, F>
        requires seat { IsPoolSeat self.now seat.old }
        requires turn { 0 < (view_of seat.old).turns }
        requires counts { HasCount root (view_of seat.old) }
        requires range { offset + len ≤ knows_of root (view_of seat.old) }
        requires callable { F.IsAlwaysCallable f }
        ensures same { SameSeat seat.old seat.new }
        ensures seat { IsPoolSeat self.now seat.new }
        ensures did { IfDid result (λ number answer. (bytes : List ℕ) × (length bytes ≡ len)
            × FnOnceReturnsAt F.FnOnce f bytes answer
            × IsNoted self.now seat.old seat.new (Root root.place) number
            (access root (Did.Get offset bytes))) }

        // For a seat that bore the root and posted it to nobody these are what its own notes laid.
        ensures lone { IfDid result (λ number answer. IsLone root (view_of seat.old) →
            FnOnceReturnsAt F.FnOnce f
            (bytes_at (own_bytes root (view_of seat.old)) offset len) answer) }
        ensures held { IfHeld result (λ held back. (back ≡ f)
            × FoundBusy self.now (Root root.place) false seat.old seat.new held) }
    {
        let lane = lane_of(seat);
        let mut section = match self.table.claim_place(&mut seat.seat, root.place, false) {
            Ok(section) => section,
            Err(held) => return Went::Held(held, f),
        };
        let answer = show(&mut section, lane, offset, len, f);
        let number = note_shown::<Brand>(&self.table, &mut seat.seat, section, root, offset, len);
        Went::Did(number, answer)
    }

    /// Notes that a root is still in use.
    pub fn touch(&self, seat: &mut PoolSeat, root: RootId) -> Went<(), ()>
        requires seat { IsPoolSeat self.now seat.old }
        requires turn { 0 < (view_of seat.old).turns }
        requires counts { HasCount root (view_of seat.old) }
        ensures same { SameSeat seat.old seat.new }
        ensures seat { IsPoolSeat self.now seat.new }
        ensures did { IfDid result (λ number done.
            IsNoted self.now seat.old seat.new (Root root.place) number (access root Did.Touch)) }
        ensures held { IfHeld result (λ held back.
            FoundBusy self.now (Root root.place) false seat.old seat.new held) }
    {
        let lane = lane_of(seat);
        let mut section = match self.table.claim_place(&mut seat.seat, root.place, false) {
            Ok(section) => section,
            Err(held) => return Went::Held(held, ()),
        };
        touch(&mut section, lane);
        let noted = Noted {
            did: Did::Touch,
            lane: None,
            watch: None,
            root: Some(root),
            region: None,
        };
        let number = note::<Brand>(&self.table, &mut seat.seat, section, &noted);
        Went::Did(number, ())
    }

    /// Ends a root whose count ended, and makes its place vacant: its region and the handle of its
    /// place are then in the seat's hands. Nobody else can be there, since nobody counts the root.
    pub fn retire(&self, seat: &mut PoolSeat, token: EndToken) -> Retired
        requires seat { IsPoolSeat self.now seat.old }
        requires turn { 0 < (view_of seat.old).turns }
        requires token { HoldsToken seat.old token }
        ensures same { SameSeat seat.old seat.new }
        ensures seat { IsPoolSeat self.now seat.new }
        ensures did { IsNotedWith self.now seat.old seat.new token.root result.number
            (end_of token.root result.region.id) Vacated (view_of seat.old).moves }
        ensures region { HoldsRegion self.now seat.new result.region }
        ensures handle { HoldsHandle self.now seat.new result.handle
            × (result.handle.place ≡ token.root.place) }
    {
        let root = token.root();
        let mut section = match self.table.claim_place(&mut seat.seat, root.place, false) {
            Ok(section) => section,
            Err(_held) => unreachable!(),
        };
        let (region, handle) = end(&mut section);
        let noted = Noted {
            did: Did::End(root),
            lane: None,
            watch: None,
            root: None,
            region: Some(region.id),
        };
        let number = note::<Brand>(&self.table, &mut seat.seat, section, &noted);
        self.table.vacate(&mut seat.seat, token);
        Retired {
            number,
            region,
            handle,
        }
    }
}
