//! What the calls do to the root place of a section.

ghost use Rattle.std.specs.Prelude.{◌≡◌, ◌+◌, ◌-◌, ◌<◌, ◌≤◌, ◌^◌, length, IfSome, true, false};
ghost use Rattle.std.specs.Fn.{FnOnceReturnsAt};
ghost use Rattle.pool_law.specs.Roots.{bytes_at};
ghost use Rattle.pool_law.specs.declared.note.Did.{Did};
ghost use Rattle.pool_law.specs.declared.report.Access.{Access};
ghost use Rattle.shared_pool.specs.RootPlaces.{last_generation};
ghost use Rattle.shared_pool.specs.PlaceSteps.{MayAccess, MayBear, MayEnd, born_root, with_born, vacated};
ghost use Rattle.shared_pool.specs.PlaceStanding.{IsAccessed, IfPlaces, home_bytes};
ghost use Rattle.shared_pool.specs.Regrowing.{MayRegrow, Turns, Answers, IsGrown};
ghost use Rattle.shared_pool.specs.Standing.{IsPlace, IfPlace};

use crate::home::Home;
use crate::root_place::Held;
use crate::went::{Grown, Room};
use handle_bin::Handle;
use pool_law::{Region, RootId, Watch};
use pool_table::Section;

// Touches the root of a section.
#[inline(always)]
pub(crate) fn touch(section: &mut Section<Home>, lane: u32)
    requires place { IsPlace section.old.home }
    requires may { IfPlace section.old.home (MayAccess 0 0) }
    ensures same { (section.new.object ≡ section.old.object)
        × (section.new.slot ≡ section.old.slot) }
    ensures place { IsPlace section.new.home }
    ensures did { IsAccessed section.old.home Did.Touch (Access.Touch lane) section.new.home }
{
    let Home::Root(place) = Section::home(section) else {
        unreachable!()
    };
    place.touch(lane);
}

// Lays bytes over those of the root of a section.
#[inline(always)]
pub(crate) fn set(section: &mut Section<Home>, lane: u32, offset: u32, bytes: &[u8])
    requires place { IsPlace section.old.home }
    requires may { IfPlace section.old.home (MayAccess offset (length bytes.now)) }
    ensures same { (section.new.object ≡ section.old.object)
        × (section.new.slot ≡ section.old.slot) }
    ensures place { IsPlace section.new.home }
    ensures did { let access = Access.Set lane offset (length bytes.now) in
        IsAccessed section.old.home (Did.Set offset bytes.now) access section.new.home }
{
    let Home::Root(place) = Section::home(section) else {
        unreachable!()
    };
    place.set(lane, offset, bytes);
}

// Copies bytes of the root of a section out.
#[inline(always)]
pub(crate) fn get(section: &mut Section<Home>, lane: u32, offset: u32, out: &mut [u8])
    requires place { IsPlace section.old.home }
    requires may { IfPlace section.old.home (MayAccess offset (length out.old)) }
    ensures same { (section.new.object ≡ section.old.object)
        × (section.new.slot ≡ section.old.slot) }
    ensures place { IsPlace section.new.home }
    ensures len { length out.new ≡ length out.old }
    ensures did { let access = Access.Get lane offset (length out.new) in
        IsAccessed section.old.home (Did.Get offset out.new) access section.new.home }
{
    let Home::Root(place) = Section::home(section) else {
        unreachable!()
    };
    place.get(lane, offset, out);
}

// Calls `f` once with bytes of the root of a section.
#[inline(always)]
pub(crate) fn show<R, F: FnOnce(&[u8]) -> R>(
    section: &mut Section<Home>,
    lane: u32,
    offset: u32,
    len: u32,
    f: F,
) -> R
    requires place { IsPlace section.old.home }
    requires may { IfPlace section.old.home (MayAccess offset len) }
    requires callable { F.IsAlwaysCallable f }
    ensures same { (section.new.object ≡ section.old.object)
        × (section.new.slot ≡ section.old.slot) }
    ensures place { IsPlace section.new.home }
    ensures len { length (bytes_at (home_bytes section.new.home) offset len) ≡ len }
    ensures answer { FnOnceReturnsAt F.FnOnce f
        (bytes_at (home_bytes section.new.home) offset len) result }
    ensures did { let bytes = bytes_at (home_bytes section.new.home) offset len in
        IsAccessed section.old.home (Did.Get offset bytes) (Access.Get lane offset (length bytes))
        section.new.home }
{
    let Home::Root(place) = Section::home(section) else {
        unreachable!()
    };
    place.show(lane, offset, len, f)
}

// Whether the place of a section has no name left for another root.
#[inline(always)]
pub(crate) fn is_worn(section: &mut Section<Home>) -> bool
    requires place { IsPlace section.old.home }
    ensures same { section.new ≡ section.old }
    ensures worn { result ≡ true →
        IfPlace section.old.home (λ s. s.generation ≡ last_generation) }
    ensures young { result ≡ false →
        IfPlace section.old.home (λ s. s.generation < last_generation) }
{
    let Home::Root(place) = Section::home(section) else {
        unreachable!()
    };
    place.is_worn()
}

// A root is born at the place of a section.
#[inline(always)]
pub(crate) fn bear(
    section: &mut Section<Home>,
    handle: Handle,
    region: Region,
    capacity: u32,
    watch: Option<Watch>,
) -> RootId
    requires place { IsPlace section.old.home }
    requires vacant { IfPlace section.old.home MayBear }
    requires uses { region.id.uses < 2 ^ 64 - 1 }
    requires capacity { capacity ≤ region.id.place.len }
    ensures same { (section.new.object ≡ section.old.object)
        × (section.new.slot ≡ section.old.slot) }
    ensures place { IsPlace section.new.home }
    ensures root { (result.place ≡ handle.place) × (result.capacity ≡ capacity) }
    ensures next { IfPlace section.old.home (λ s. result.generation ≡ s.generation + 1) }
    ensures fits { result.generation < 2 ^ 32 }
    ensures born { IfPlace section.new.home (λ t.
        t ≡ with_born (born_root result region handle watch)) }
{
    let Home::Root(place) = Section::home(section) else {
        unreachable!()
    };
    place.bear(handle, region, capacity, watch)
}

// Takes the root of a section out: its region, and the handle of its place.
#[inline(always)]
pub(crate) fn end(section: &mut Section<Home>) -> (Region, Handle)
    requires place { IsPlace section.old.home }
    requires present { IfPlace section.old.home MayEnd }
    ensures same { (section.new.object ≡ section.old.object)
        × (section.new.slot ≡ section.old.slot) }
    ensures place { IsPlace section.new.home }
    ensures root { IfPlace section.old.home (λ s. IfSome s.present (λ r.
        (result.0.id ≡ r.region) × (result.0.piece ≡ r.piece) × (result.1 ≡ r.handle))) }
    ensures vacated { IfPlaces section.old.home section.new.home (λ s t. t ≡ vacated s) }
{
    let Home::Root(place) = Section::home(section) else {
        unreachable!()
    };
    let (root, Held { piece, handle }) = place.end();
    (Region::new(root.region, piece), handle)
}

// What the root of a section answers to an ask for so much capacity.
#[inline(always)]
pub(crate) fn room(section: &mut Section<Home>, asked: u32) -> Room
    requires place { IsPlace section.old.home }
    requires may { IfPlace section.old.home MayRegrow }
    ensures same { (section.new.object ≡ section.old.object)
        × (section.new.slot ≡ section.old.slot) }
    ensures place { IsPlace section.new.home }
    ensures did { IfPlaces section.old.home section.new.home
        (λ s t. Turns s (Answers asked result) t) }
{
    let Home::Root(place) = Section::home(section) else {
        unreachable!()
    };
    place.room(asked)
}

// What comes of the root of a section that is given a region to grow into.
#[inline(always)]
pub(crate) fn grow(section: &mut Section<Home>, asked: u32, region: Region) -> Grown
    requires place { IsPlace section.old.home }
    requires may { IfPlace section.old.home MayRegrow }
    requires long { asked ≤ region.id.place.len }
    requires uses { region.id.uses < 2 ^ 64 - 1 }
    ensures same { (section.new.object ≡ section.old.object)
        × (section.new.slot ≡ section.old.slot) }
    ensures place { IsPlace section.new.home }
    ensures did { IfPlaces section.old.home section.new.home
        (λ s t. Turns s (λ r q. IsGrown asked r region result q) t) }
{
    let Home::Root(place) = Section::home(section) else {
        unreachable!()
    };
    place.grow(asked, region)
}
