//! How a root is born.

ghost use Rattle.std.specs.Prelude.{◌≡◌, ◌^◌, ◌<◌, ◌≤◌, IfOk, IfErr, sum_by};
ghost use Rattle.pool_law.specs.declared.note.RefDid.TheVariants.{Born};
ghost use Rattle.pool_table.specs.Counts.{HasCount};
ghost use Rattle.pool_table.specs.Lone.{IsLone, names};
ghost use Rattle.shared_pool.specs.SeatViews.{view_of, HasView, SameSeat};
ghost use Rattle.shared_pool.specs.Holding.{HoldsRegion, HoldsHandle};
ghost use Rattle.shared_pool.specs.RootNotes.{birth, IsNotedWith};
ghost use Rattle.shared_pool.specs.Seats.{IsPoolSeat};
ghost use Rattle.shared_pool.specs.Wearing.{IsShort, FoundWorn};

use crate::noting::note;
use crate::place_sections::{bear, is_worn};
use crate::pool::SharedPool;
use crate::seat::PoolSeat;
use crate::went::Worn;
use handle_bin::Handle;
use pool_law::{Did, Noted, Region, RegionId, RootId, Watch};
use std::marker::Brand;

impl SharedPool {
    /// A root is born at a handle's place, with a region whose first bytes, as many as the
    /// capacity, are cleared. The seat then counts it once. Nobody else can be there, since the
    /// place is in this seat's hands.
    ///
    /// A place has names for 2^32 - 1 roots, and is worn out after that many births. Here the pool
    /// has fewer turns in all, so that no place can be. A pool that lasts calls `try_birth`.
    pub fn birth(
        &self,
        seat: &mut PoolSeat,
        handle: Handle,
        region: Region,
        capacity: u32,
        watch: Option<Watch>,
    ) -> (u64, RootId)
        requires seat { IsPoolSeat self.now seat.old }
        requires turn { 0 < (view_of seat.old).turns }
        requires short { IsShort self.now.table.layout }
        requires handle { HoldsHandle self.now seat.old handle }
        requires region { HoldsRegion self.now seat.old region }
        requires capacity { capacity ≤ region.id.place.len }
        ensures same { SameSeat seat.old seat.new }
        ensures seat { IsPoolSeat self.now seat.new }
        ensures root { (result.1.place ≡ handle.place) × (result.1.capacity ≡ capacity) }
        ensures did { IsNotedWith self.now seat.old seat.new result.1 result.0
            (birth result.1 region.id watch) Born (view_of seat.old).moves }
        ensures counts { HasCount result.1 (view_of seat.new) }
        ensures lone { IsLone result.1 (view_of seat.new) }
        ensures fresh { sum_by (names result.1) (view_of seat.old).own.notes ≡ 0 }
        ensures uses { region.id.uses < 2 ^ 62 }
    {
        match self.try_birth(seat, handle, region, capacity, watch) {
            Ok(born) => born,
            Err(_worn) => unreachable!(),
        }
    }

    /// A root is born as by `birth`, if the place is not worn out.
    ///
    /// Else nothing is noted, and the handle and the region come back as they were. The root that
    /// was born last at the place has the last name that the place had: 2^32 - 1 roots were born
    /// there. No later birth there can succeed. A server takes another handle, and keeps this one
    /// aside: the places of a lane wear out at about the same time, since a bin gives out the
    /// handle that has waited longest. So it looks at the generations that it is answered, and
    /// opens its next pool long before.
    #[inline(always)]
    pub fn try_birth(
        &self,
        seat: &mut PoolSeat,
        handle: Handle,
        region: Region,
        capacity: u32,
        watch: Option<Watch>,
    ) -> Result<(u64, RootId), Worn>
        requires seat { IsPoolSeat self.now seat.old }
        requires turn { 0 < (view_of seat.old).turns }
        requires handle { HoldsHandle self.now seat.old handle }
        requires region { HoldsRegion self.now seat.old region }
        requires capacity { capacity ≤ region.id.place.len }
        ensures same { SameSeat seat.old seat.new }
        ensures seat { IsPoolSeat self.now seat.new }
        ensures root { IfOk result (λ born.
            (born.1.place ≡ handle.place) × (born.1.capacity ≡ capacity)) }
        ensures did { IfOk result (λ born.
            IsNotedWith self.now seat.old seat.new born.1 born.0
            (birth born.1 region.id watch) Born (view_of seat.old).moves) }
        ensures counts { IfOk result (λ born. HasCount born.1 (view_of seat.new)) }
        ensures lone { IfOk result (λ born. IsLone born.1 (view_of seat.new)) }
        ensures fresh { IfOk result (λ born.
            sum_by (names born.1) (view_of seat.old).own.notes ≡ 0) }
        ensures uses { region.id.uses < 2 ^ 62 }
        ensures back { IfErr result (λ worn. (worn.handle ≡ handle) × (worn.region ≡ region)
            × HasView seat.new (view_of seat.old)) }
        ensures worn { IfErr result (λ worn. FoundWorn self.now handle.place seat.old) }
    {
        let place = handle.place();
        let mut section = match self.table.claim_place(&mut seat.seat, place, false) {
            Ok(section) => section,
            Err(_held) => unreachable!(),
        };
        if is_worn(&mut section) {
            self.table.idle(&mut seat.seat, section);
            return Err(Worn { handle, region });
        }
        let used = RegionId {
            uses: region.id.uses + 1,
            ..region.id
        };
        let root = bear(&mut section, handle, region, capacity, watch);
        let noted = Noted {
            did: Did::Birth { root, region: used },
            lane: None,
            watch,
            root: None,
            region: None,
        };
        let number = note::<Brand>(&self.table, &mut seat.seat, section, &noted);
        let root = self.table.birth(&mut seat.seat, place, capacity);
        Ok((number, root))
    }
}
