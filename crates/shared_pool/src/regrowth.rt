//! Roots that grow: an ask for capacity, and a growth into another region.

ghost use Rattle.std.specs.Prelude.{◌≡◌, ◌^◌, ◌<◌, ◌≤◌, false};
ghost use Rattle.pool_law.specs.declared.note.Object.TheVariants.{Root};
ghost use Rattle.pool_table.specs.Counts.{HasCount};
ghost use Rattle.shared_pool.specs.SeatViews.{view_of, SameSeat};
ghost use Rattle.shared_pool.specs.Answers.{IfDid, IfHeld};
ghost use Rattle.shared_pool.specs.Holding.{HoldsRegion};
ghost use Rattle.shared_pool.specs.Knowing.{KnowsOf};
ghost use Rattle.shared_pool.specs.Regrowing.{IsGrownFor, IsRoomFor, back_of, grown_capacity, grown_note, room_capacity, room_did};
ghost use Rattle.shared_pool.specs.RootNotes.{access};
ghost use Rattle.shared_pool.specs.Seats.{IsPoolSeat, IsNoted, FoundBusy};

use crate::noting::note;
use crate::place_sections::{grow, room};
use crate::pool::SharedPool;
use crate::seat::PoolSeat;
use crate::went::{Grown, Room, Went};
use pool_law::{Did, Noted, Region, RegionId, RootId};
use std::marker::Brand;

impl SharedPool {
    /// Asks a root that the seat counts for so much capacity. It has it already, or it has it from
    /// now on where its region holds so much, with zeros in what is new; or it stays as it is, and a
    /// region is needed for `grow`. The note tells the seat the capacity. Where another seat was
    /// there nothing is done, and the seat keeps no mark.
    pub fn room(&self, seat: &mut PoolSeat, root: RootId, asked: u32) -> Went<Room, ()>
        requires seat { IsPoolSeat self.now seat.old }
        requires turn { 0 < (view_of seat.old).turns }
        requires counts { HasCount root (view_of seat.old) }
        ensures same { SameSeat seat.old seat.new }
        ensures seat { IsPoolSeat self.now seat.new }
        ensures answer { IfDid result (λ number room. IsRoomFor asked room) }
        ensures did { IfDid result (λ number room.
            IsNoted self.now seat.old seat.new (Root root.place) number
            (access root (room_did asked room))) }
        ensures knows { IfDid result (λ number room.
            KnowsOf self.now seat.new root (room_capacity asked room)) }
        ensures held { IfHeld result (λ held back.
            FoundBusy self.now (Root root.place) false seat.old seat.new held) }
    {
        let mut section = match self.table.claim_place(&mut seat.seat, root.place, false) {
            Ok(section) => section,
            Err(held) => return Went::Held(held, ()),
        };
        let room = room(&mut section, asked);
        let noted = Noted {
            did: room.did(asked),
            lane: None,
            watch: None,
            root: Some(root),
            region: None,
        };
        let number = note::<Brand>(&self.table, &mut seat.seat, section, &noted);
        Went::Did(number, room)
    }

    /// The same ask, with a region that holds so much: where the root's own does not, it goes on in
    /// this one with its bytes and zeros behind them, and leaves its own. The region that it does not
    /// take, or leaves, comes out in the seat's hands; so does the one that was given where another
    /// seat was there.
    pub fn grow(
        &self,
        seat: &mut PoolSeat,
        root: RootId,
        asked: u32,
        region: Region,
    ) -> Went<Grown, Region>
        requires seat { IsPoolSeat self.now seat.old }
        requires turn { 0 < (view_of seat.old).turns }
        requires counts { HasCount root (view_of seat.old) }
        requires region { HoldsRegion self.now seat.old region }
        requires long { asked ≤ region.id.place.len }
        ensures same { SameSeat seat.old seat.new }
        ensures seat { IsPoolSeat self.now seat.new }
        ensures answer { IfDid result (λ number grown. IsGrownFor asked region grown) }
        ensures did { IfDid result (λ number grown.
            IsNoted self.now seat.old seat.new (Root root.place) number
            (grown_note root asked region.id grown)) }
        ensures knows { IfDid result (λ number grown.
            KnowsOf self.now seat.new root (grown_capacity asked grown)) }
        ensures hands { IfDid result (λ number grown.
            HoldsRegion self.now seat.new (back_of grown)) }
        ensures uses { IfDid result (λ number grown. region.id.uses < 2 ^ 62) }
        ensures held { IfHeld result (λ held back. (back ≡ region)
            × FoundBusy self.now (Root root.place) false seat.old seat.new held) }
    {
        let mut section = match self.table.claim_place(&mut seat.seat, root.place, false) {
            Ok(section) => section,
            Err(held) => return Went::Held(held, region),
        };
        let used = RegionId {
            uses: region.id.uses + 1,
            ..region.id
        };
        let grown = grow(&mut section, asked, region);
        let (did, left) = grown.noted(asked, used);
        let noted = Noted {
            did,
            lane: None,
            watch: None,
            root: Some(root),
            region: left,
        };
        let number = note::<Brand>(&self.table, &mut seat.seat, section, &noted);
        Went::Did(number, grown)
    }
}
