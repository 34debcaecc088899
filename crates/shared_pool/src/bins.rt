//! The bin of a lane: its handles are taken and come home.

ghost use Rattle.std.specs.Prelude.{◌≡◌, ◌<◌, false, IfSome, IsTrue};
ghost use Rattle.pool_law.specs.declared.note.Did.{Did};
ghost use Rattle.pool_law.specs.declared.note.Object.TheVariants.{Bin};
ghost use Rattle.shared_pool.specs.SeatViews.{view_of, SameSeat};
ghost use Rattle.shared_pool.specs.Holding.{HoldsHandle};
ghost use Rattle.shared_pool.specs.Seats.{IsPoolSeat, IsNoted, FoundBusy};
ghost use Rattle.shared_pool.specs.SeatLanes.{lane_of};
ghost use Rattle.shared_pool.specs.Answers.{IfDid, IfHeld};
ghost use Rattle.shared_pool.specs.Notes.{plain, popped};
ghost use Rattle.shared_pool.specs.Standing.{IsBin, IfBin, StandsMore};
ghost use Rattle.handle_bin.specs.Bins.{IsHomeless, is_of};

use crate::home::Home;
use crate::noting::{lane_of, note, noted};
use crate::pool::SharedPool;
use crate::seat::PoolSeat;
use crate::went::Went;
use handle_bin::Handle;
use pool_law::{Did, Object};
use pool_table::Section;
use std::marker::Brand;

impl SharedPool {
    /// Takes the front handle of the seat's lane, or none exactly where its bin is empty.
    #[inline(always)]
    pub fn pop_handle(&self, seat: &mut PoolSeat) -> Went<Option<Handle>, ()>
        requires seat { IsPoolSeat self.now seat.old }
        requires turn { 0 < (view_of seat.old).turns }
        ensures same { SameSeat seat.old seat.new }
        ensures seat { IsPoolSeat self.now seat.new }
        ensures did { IfDid result (λ number handle.
            IsNoted self.now seat.old seat.new (Bin (lane_of seat.old)) number
            (plain (popped handle))) }
        ensures handle { IfDid result (λ number handle.
            IfSome handle (λ h. HoldsHandle self.now seat.new h × (h.lane ≡ lane_of seat.old))) }
        ensures held { IfHeld result (λ held back.
            FoundBusy self.now (Bin (lane_of seat.old)) false seat.old seat.new held) }
    {
        let lane = lane_of(seat);
        let mut section = match self.table.claim(&mut seat.seat, Object::Bin(lane), false) {
            Ok(section) => section,
            Err(held) => return Went::Held(held, ()),
        };
        let handle = pop(&mut section);
        let noted = noted(taken(&handle));
        let number = note::<Brand>(&self.table, &mut seat.seat, section, &noted);
        Went::Did(number, handle)
    }

    /// Puts a handle into the bin of its lane, behind the others. It comes back where another seat
    /// was there.
    #[inline(always)]
    pub fn put_handle(&self, seat: &mut PoolSeat, handle: Handle) -> Went<(), Handle>
        requires seat { IsPoolSeat self.now seat.old }
        requires turn { 0 < (view_of seat.old).turns }
        requires handle { HoldsHandle self.now seat.old handle }
        ensures same { SameSeat seat.old seat.new }
        ensures seat { IsPoolSeat self.now seat.new }
        ensures did { IfDid result (λ number done.
            IsNoted self.now seat.old seat.new (Bin handle.lane) number
            (plain (Did.Home handle.place))) }
        ensures held { IfHeld result (λ held back. (back ≡ handle)
            × FoundBusy self.now (Bin handle.lane) false seat.old seat.new held) }
    {
        let mut section = match self
            .table
            .claim(&mut seat.seat, Object::Bin(handle.lane()), false)
        {
            Ok(section) => section,
            Err(held) => return Went::Held(held, handle),
        };
        let noted = noted(Did::Home(handle.place()));
        put(&mut section, handle);
        let number = note::<Brand>(&self.table, &mut seat.seat, section, &noted);
        Went::Did(number, ())
    }
}

// Takes the front handle out of the bin of a section.
#[inline(always)]
fn pop(section: &mut Section<Home>) -> Option<Handle>
    requires { IsBin section.old.home }
    ensures same { (section.new.object ≡ section.old.object)
        × (section.new.slot ≡ section.old.slot) }
    ensures bin { IsBin section.new.home }
    ensures stands { StandsMore section.old.home (popped result) section.new.home }
    ensures own { IfSome result (λ h.
        IfBin section.old.home (λ b. IsTrue (is_of b.lane b.handles h))) }
    ensures some_handle { IfBin section.old.home (λ b. 0 < b.handles) }
{
    let Home::Bin(bin) = Section::home(section) else {
        unreachable!()
    };
    bin.pop()
}

// Puts a handle into the bin of a section.
#[inline(always)]
fn put(section: &mut Section<Home>, handle: Handle)
    requires bin { IsBin section.old.home }
    requires homeless { IfBin section.old.home (λ b. IsHomeless b handle) }
    ensures same { (section.new.object ≡ section.old.object)
        × (section.new.slot ≡ section.old.slot) }
    ensures bin { IsBin section.new.home }
    ensures stands { StandsMore section.old.home (Did.Home handle.place) section.new.home }
{
    let Home::Bin(bin) = Section::home(section) else {
        unreachable!()
    };
    bin.put(handle);
}

// What a pop of a bin notes.
#[inline(always)]
fn taken(handle: &Option<Handle>) -> Did
    ensures { result ≡ popped handle.now }
{
    match handle {
        Some(handle) => Did::Handle(handle.place()),
        None => Did::NoHandle,
    }
}
