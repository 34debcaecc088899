//! The notes of accesses, whose bytes are those that the call has.

ghost use Rattle.std.specs.Prelude.{◌≡◌, ◌-◌, ◌+◌, ◌<◌, IfSome};
ghost use Rattle.pool_law.specs.Naming.{noted_by};
ghost use Rattle.pool_law.specs.declared.note.Did.{Did};
ghost use Rattle.pool_table.specs.declared.views.Entry.TheVariants.{At};
ghost use Rattle.pool_law.specs.declared.note.Object.TheVariants.{Root};
ghost use Rattle.pool_table.specs.Counts.{CountsOne};
ghost use Rattle.pool_table.specs.Views.{with_entry};
ghost use Rattle.pool_table.specs.Seats.{view_of, IsSeatOf, HasView, SameSeat};
ghost use Rattle.pool_table.specs.Sections.{MayEnd};
ghost use Rattle.shared_pool.specs.Standing.{HomeStands};
ghost use Rattle.pool_law.specs.Roots.{bytes_at};
ghost use Rattle.shared_pool.specs.PlaceStanding.{home_bytes};
ghost use Rattle.shared_pool.specs.RootNotes.{access};

use crate::home::Home;
use crate::seat::TableSeat;
use pool_law::{Named, RootId};
use pool_table::{PoolTable, Section};

// Ends a section with the note that these bytes were laid over the root's, and answers its number.
#[inline(always)]
pub(crate) fn note_set<N: Named>(
    table: &PoolTable<Home>,
    seat: &mut TableSeat,
    section: Section<Home>,
    root: RootId,
    offset: u32,
    bytes: &[u8],
) -> u64
    requires named { N.note ≡ access root (Did.Set offset bytes.now) }
    requires own { IsSeatOf table.now seat.old }
    requires turn { 0 < (view_of seat.old).turns }
    requires object { section.object ≡ Root root.place }
    requires section { MayEnd HomeStands table.now.layout.shape seat.old section
        (access root (Did.Set offset bytes.now)) }
    ensures same { SameSeat seat.old seat.new }
    ensures number { IfSome (view_of seat.old).inside (λ x. result ≡ x.number + 1) }
    ensures counts { CountsOne (view_of seat.new) }
    ensures noted { let v = view_of seat.old in
        let n = noted_by v.own.number (access root (Did.Set offset bytes.now)) in
        HasView seat.new (with_entry v (At section.object result n) (v.turns - 1)) }
{
    table.done::<N>(seat, section)
}

// Ends a section with the note that the root has these bytes, and answers its number.
#[inline(always)]
pub(crate) fn note_get<N: Named>(
    table: &PoolTable<Home>,
    seat: &mut TableSeat,
    section: Section<Home>,
    root: RootId,
    offset: u32,
    bytes: &[u8],
) -> u64
    requires named { N.note ≡ access root (Did.Get offset bytes.now) }
    requires own { IsSeatOf table.now seat.old }
    requires turn { 0 < (view_of seat.old).turns }
    requires object { section.object ≡ Root root.place }
    requires section { MayEnd HomeStands table.now.layout.shape seat.old section
        (access root (Did.Get offset bytes.now)) }
    ensures same { SameSeat seat.old seat.new }
    ensures number { IfSome (view_of seat.old).inside (λ x. result ≡ x.number + 1) }
    ensures counts { CountsOne (view_of seat.new) }
    ensures noted { let v = view_of seat.old in
        let n = noted_by v.own.number (access root (Did.Get offset bytes.now)) in
        HasView seat.new (with_entry v (At section.object result n) (v.turns - 1)) }
{
    table.done::<N>(seat, section)
}

// The same of the bytes that the section's root has there.
#[inline(always)]
pub(crate) fn note_shown<N: Named>(
    table: &PoolTable<Home>,
    seat: &mut TableSeat,
    section: Section<Home>,
    root: RootId,
    offset: u32,
    len: u32,
) -> u64
    requires named { let bytes = bytes_at (home_bytes section.home) offset len in
        N.note ≡ access root (Did.Get offset bytes) }
    requires own { IsSeatOf table.now seat.old }
    requires turn { 0 < (view_of seat.old).turns }
    requires object { section.object ≡ Root root.place }
    requires section { let bytes = bytes_at (home_bytes section.home) offset len in
        MayEnd HomeStands table.now.layout.shape seat.old section
        (access root (Did.Get offset bytes)) }
    ensures same { SameSeat seat.old seat.new }
    ensures number { IfSome (view_of seat.old).inside (λ x. result ≡ x.number + 1) }
    ensures counts { CountsOne (view_of seat.new) }
    ensures noted { let v = view_of seat.old in
        let bytes = bytes_at (home_bytes section.home) offset len in
        let n = noted_by v.own.number (access root (Did.Get offset bytes)) in
        HasView seat.new (with_entry v (At section.object result n) (v.turns - 1)) }
{
    table.done::<N>(seat, section)
}
