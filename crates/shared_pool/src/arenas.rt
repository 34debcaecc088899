//! The arenas: regions are taken from the seat's arena, and given back to their own.

ghost use Rattle.std.specs.Prelude.{◌≡◌, ◌<◌, ◌%◌, ◌^◌, false, IfSome};
ghost use Rattle.size_classes.specs.Sizes.{class_count};
ghost use Rattle.pool_law.specs.declared.note.Did.{Did};
ghost use Rattle.pool_law.specs.declared.note.Object.TheVariants.{Arena};
ghost use Rattle.pool_law.specs.Limits.{geometry_of};
ghost use Rattle.pool_arena.specs.ArenaStates.{IsOutOf, IsInPlaceAt, IsInPlaceUnder, Gives};
ghost use Rattle.pool_arena.specs.Standing.{taken_or_full};
ghost use Rattle.shared_pool.specs.SeatViews.{view_of, SameSeat};
ghost use Rattle.shared_pool.specs.Answers.{IfDid, IfHeld};
ghost use Rattle.shared_pool.specs.Holding.{HoldsRegion};
ghost use Rattle.shared_pool.specs.Notes.{plain};
ghost use Rattle.shared_pool.specs.SeatLanes.{lane_of};
ghost use Rattle.shared_pool.specs.Seats.{IsPoolSeat, IsNoted, FoundBusy};
ghost use Rattle.shared_pool.specs.Standing.{IsArena, IfArena, HasClassLength, StandsMore};

use crate::home::Home;
use crate::noting::{lane_of, note, noted};
use crate::pool::SharedPool;
use crate::seat::PoolSeat;
use crate::went::Went;
use pool_law::{Did, Object, Region};
use pool_table::Section;
use std::marker::Brand;

impl SharedPool {
    /// Takes a region of a class from the arena of the seat's lane, or none exactly where that is
    /// full for the class.
    pub fn take(&self, seat: &mut PoolSeat, class: u32) -> Went<Option<Region>, ()>
        requires seat { IsPoolSeat self.now seat.old }
        requires turn { 0 < (view_of seat.old).turns }
        requires class { class < class_count (geometry_of self.now.table.layout.shape) }
        ensures same { SameSeat seat.old seat.new }
        ensures seat { IsPoolSeat self.now seat.new }
        ensures did { IfDid result (λ number region.
            IsNoted self.now seat.old seat.new
            (Arena (lane_of seat.old % self.now.table.layout.shape.arenas)) number
            (plain (taken_or_full class region))) }
        ensures region { IfDid result (λ number region. IfSome region (λ r.
            HoldsRegion self.now seat.new r × (r.id.owner ≡ lane_of seat.old)
            × (r.id.class ≡ class) × (r.id.uses ≡ 0))) }
        ensures held { IfHeld result (λ held back.
            FoundBusy self.now (Arena (lane_of seat.old % self.now.table.layout.shape.arenas)) false
            seat.old seat.new held) }
    {
        let lane = lane_of(seat);
        let object = Object::Arena(lane % self.layout.shape.arenas);
        let mut section = match self.table.claim(&mut seat.seat, object, false) {
            Ok(section) => section,
            Err(held) => return Went::Held(held, ()),
        };
        let region = take(&mut section, class, lane);
        let noted = noted(taken(class, &region));
        let number = note::<Brand>(&self.table, &mut seat.seat, section, &noted);
        Went::Did(number, region)
    }

    /// Gives a region back to its arena.
    pub fn give(&self, seat: &mut PoolSeat, region: Region) -> Went<(), Region>
        requires seat { IsPoolSeat self.now seat.old }
        requires turn { 0 < (view_of seat.old).turns }
        requires region { HoldsRegion self.now seat.old region }
        ensures same { SameSeat seat.old seat.new }
        ensures seat { IsPoolSeat self.now seat.new }
        ensures did { IfDid result (λ number done.
            IsNoted self.now seat.old seat.new (Arena region.id.place.arena) number
            (plain (Did.Give region.id))) }
        ensures held { IfHeld result (λ held back. (back ≡ region)
            × FoundBusy self.now (Arena region.id.place.arena) false seat.old seat.new held) }
    {
        let id = region.id;
        let mut section = match self
            .table
            .claim(&mut seat.seat, Object::Arena(id.place.arena), false)
        {
            Ok(section) => section,
            Err(held) => return Went::Held(held, region),
        };
        give(&mut section, region);
        let noted = noted(Did::Give(id));
        let number = note::<Brand>(&self.table, &mut seat.seat, section, &noted);
        Went::Did(number, ())
    }
}

// Takes a region from the arena of a section.
#[inline(always)]
fn take(section: &mut Section<Home>, class: u32, owner: u32) -> Option<Region>
    requires arena { IsArena section.old.home }
    requires class { IfArena section.old.home (λ a. class < class_count a.geometry) }
    requires takings { IfArena section.old.home (λ a. a.takings < 2 ^ 63) }
    ensures same { (section.new.object ≡ section.old.object)
        × (section.new.slot ≡ section.old.slot) }
    ensures arena { IsArena section.new.home }
    ensures stands { StandsMore section.old.home (taken_or_full class result) section.new.home }
    ensures region { IfSome result (λ r.
        (r.id.owner ≡ owner) × (r.id.class ≡ class) × (r.id.uses ≡ 0)
        × HasClassLength r.id) }
    ensures place { IfSome result (λ r.
        IfArena section.old.home (λ a. IsInPlaceAt a r.id r.piece)) }
{
    let Home::Arena(arena) = Section::home(section) else {
        unreachable!()
    };
    arena.take(class, owner)
}

// What a take notes.
#[inline(always)]
fn taken(class: u32, region: &Option<Region>) -> Did
    ensures { result ≡ taken_or_full class region.now }
{
    match region {
        Some(region) => Did::Take {
            class,
            region: region.id,
        },
        None => Did::Full { class },
    }
}

// Gives a region back to the arena of a section.
#[inline(always)]
fn give(section: &mut Section<Home>, region: Region)
    requires arena { IsArena section.old.home }
    requires out { IfArena section.old.home (λ a. IsOutOf a region.id) }
    requires place { IfArena section.old.home (λ a. IsInPlaceUnder a region.id region.piece) }
    ensures same { (section.new.object ≡ section.old.object)
        × (section.new.slot ≡ section.old.slot) }
    ensures arena { IsArena section.new.home }
    ensures gives { IfArena section.old.home (λ a. IfArena section.new.home (Gives a region.id)) }
{
    let Home::Arena(arena) = Section::home(section) else {
        unreachable!()
    };
    arena.give(region);
}
