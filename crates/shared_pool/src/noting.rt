//! The note that ends each section, and the lane of a seat.

ghost use Rattle.std.specs.Prelude.{◌≡◌, ◌-◌, ◌+◌, ◌<◌, Some, IfSome, IsSome};
ghost use Rattle.pool_law.specs.Naming.{noted_by};
ghost use Rattle.pool_law.specs.NotedHistories.{MayNote};
ghost use Rattle.pool_table.specs.declared.views.Entry.TheVariants.{At};
ghost use Rattle.pool_table.specs.Counts.{CountsOne};
ghost use Rattle.pool_table.specs.Views.{with_entry};
ghost use Rattle.pool_table.specs.Seats.{view_of, IsSeatOf, HasView, SameSeat};
ghost use Rattle.pool_table.specs.Hands.{PutsDown};
ghost use Rattle.pool_table.specs.Sections.{MayEnd};
ghost use Rattle.shared_pool.specs.SeatViews.{view_of as seat_view};
ghost use Rattle.shared_pool.specs.Standing.{HomeStands};
ghost use Rattle.shared_pool.specs.SeatLanes.{lane_of};
ghost use Rattle.shared_pool.specs.Notes.{plain};

use crate::home::Home;
use crate::seat::{PoolSeat, TableSeat};
use pool_law::{Did, Named, Noted};
use pool_table::{PoolTable, Section};

// Ends a section with this note, and answers its number.
#[inline(always)]
pub(crate) fn note<N: Named>(
    table: &PoolTable<Home>,
    seat: &mut TableSeat,
    section: Section<Home>,
    noted: &Noted,
) -> u64
    requires named { N.note ≡ noted.now }
    requires own { IsSeatOf table.now seat.old }
    requires turn { 0 < (view_of seat.old).turns }
    requires section { MayEnd HomeStands table.now.layout.shape seat.old section noted.now }
    requires lane { let v = view_of seat.old in
        MayNote table.now.layout.shape v.own.number section.object noted.now.did }
    requires hands { PutsDown (view_of seat.old) noted.now.did }
    ensures same { SameSeat seat.old seat.new }
    ensures number { IfSome (view_of seat.old).inside (λ x. result ≡ x.number + 1) }
    ensures counts { CountsOne (view_of seat.new) }
    ensures noted { let v = view_of seat.old in
        let note = At section.object result (noted_by v.own.number noted.now) in
        HasView seat.new (with_entry v note (v.turns - 1)) }
{
    table.done::<N>(seat, section)
}

// The lane of a seat that has one.
#[inline(always)]
pub(crate) fn lane_of(seat: &PoolSeat) -> u32
    requires { IsSome (seat_view seat.now).own.number }
    ensures lane { result ≡ lane_of seat.now }
    ensures number { (seat_view seat.now).own.number ≡ Some result }
{
    let Some(lane) = seat.number() else {
        unreachable!()
    };
    lane
}

// A note with nothing beside what was done.
#[inline(always)]
pub(crate) fn noted(did: Did) -> Noted
    ensures { result ≡ plain did }
{
    Noted {
        did,
        lane: None,
        watch: None,
        root: None,
        region: None,
    }
}
