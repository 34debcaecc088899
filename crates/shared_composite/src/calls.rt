//! The calls on one composite of a board.

ghost use Rattle.std.specs.Prelude.{◌≡◌, ◌+◌, ◌<◌, ◌≤◌, length, IfOk, IfErr, OnOk};
ghost use Rattle.pool_law.specs.Composites.{size_of};
ghost use Rattle.board_table.specs.Views.{hand_left, handed, joined, retained, took};
ghost use Rattle.board_table.specs.Seats.{Counts, HasMark};
ghost use Rattle.shared_composite.specs.Cores.{IsCore, IsKept, turns_of};
ghost use Rattle.shared_composite.specs.Homes.{core_of};
ghost use Rattle.shared_composite.specs.Reading.{HasRead, FoundHeldPart};
ghost use Rattle.shared_composite.specs.Boards.{view_of, IsSeatOf, SameSeat, HasView, IsPoolOf, IsAtHome, IsReleasedOn, IsBusyAs, HasReadOn, parts_of};

use crate::board::{Board, BoardSeat};
use crate::busy::Busy;
use crate::cores::Core;
use crate::home::Home;
use crate::reading::read_parts;
use board_table::{EndMark, Let, Section};
use pool_law::Held;
use shared_pool::SharedPool;

impl Board {
    /// One count more of a composite that the seat counts, for one of its moves.
    pub fn retain(&self, seat: &mut BoardSeat, k: u32)
        requires own { IsSeatOf self.now seat.old }
        requires counts { Counts k (view_of seat.old) }
        requires moves { 0 < (view_of seat.old).moves }
        ensures same { SameSeat seat.old seat.new }
        ensures own { IsSeatOf self.now seat.new }
        ensures retained { HasView seat.new (retained k (view_of seat.old)) }
    {
        self.table.retain(&mut seat.seat, k);
    }

    /// A new seat, which takes over one of the seat's counts of a composite and so many of its turns.
    /// It has no moves.
    pub fn hand(&self, seat: &mut BoardSeat, k: u32, turns: u64) -> BoardSeat
        requires own { IsSeatOf self.now seat.old }
        requires counts { Counts k (view_of seat.old) }
        requires turns { turns ≤ (view_of seat.old).turns }
        ensures same { SameSeat seat.old seat.new }
        ensures own { IsSeatOf self.now seat.new }
        ensures left { HasView seat.new (hand_left k turns (view_of seat.old)) }
        ensures made { IsSeatOf self.now result }
        ensures handed { HasView result (handed k turns (view_of seat.old)) }
    {
        BoardSeat {
            seat: self.table.hand(&mut seat.seat, k, turns),
        }
    }

    /// The seat gets all counts, marks, moves and turns of the other one, which is spent.
    pub fn join(&self, seat: &mut BoardSeat, other: BoardSeat)
        requires own { IsSeatOf self.now seat.old }
        requires other_own { IsSeatOf self.now other }
        ensures same { SameSeat seat.old seat.new }
        ensures own { IsSeatOf self.now seat.new }
        ensures joined { HasView seat.new (joined (view_of seat.old) (view_of other)) }
    {
        self.table.join(&mut seat.seat, other.into_seat());
    }

    /// One count less of a composite that the seat counts. The release that finds one count left ends
    /// the composite: the seat then has its mark, for which `take_core` gives the core.
    pub fn release(&self, seat: &mut BoardSeat, k: u32) -> Let
        requires own { IsSeatOf self.now seat.old }
        requires counts { Counts k (view_of seat.old) }
        ensures same { SameSeat seat.old seat.new }
        ensures own { IsSeatOf self.now seat.new }
        ensures released { IsReleasedOn self.now result k (view_of seat.old) (view_of seat.new) }
    {
        self.table.release(&mut seat.seat, k)
    }

    /// Fills `out` with the bytes of a composite from `i` on, in one section, for one turn. The answer
    /// is the number of that section, from 1.
    ///
    /// Where another seat of the board is in the composite's section, no turn is spent and nothing
    /// changes. Where another seat of the pool is at the root of a component, the turn is spent, and
    /// what was read before stands in front of `out`.
    pub fn read(
        &self,
        pool: &SharedPool,
        seat: &mut BoardSeat,
        k: u32,
        i: u32,
        out: &mut [u8],
    ) -> Result<u64, Busy>
        requires own { IsSeatOf self.now seat.old }
        requires counts { Counts k (view_of seat.old) }
        requires turn { 0 < (view_of seat.old).turns }
        requires pool { IsPoolOf self.now pool.now }
        requires range { i + length out.old ≤ size_of (parts_of self.now k) }
        ensures same { SameSeat seat.old seat.new }
        ensures own { IsSeatOf self.now seat.new }
        ensures len { length out.new ≡ length out.old }
        ensures read { IfOk result (λ number.
            HasReadOn self.now pool.now seat.old seat.new k i number out.new) }
        ensures busy { IfErr result (λ busy.
            IsBusyAs busy self.now pool.now seat.old seat.new k i out.old out.new) }
    {
        let mut section = match self.table.claim(&mut seat.seat, k) {
            Ok(section) => section,
            Err(number) => {
                return Err(Busy::Board {
                    composite: k,
                    number,
                });
            }
        };
        let read = read_home(pool, &mut section, i, out);
        let number = self.table.done(&mut seat.seat, section);
        match read {
            Ok(()) => Ok(number),
            Err(held) => Err(Busy::Pool(held)),
        }
    }

    /// The core of a composite that nobody counts any more, for its mark and one turn.
    pub fn take_core(&self, seat: &mut BoardSeat, mark: EndMark) -> Core
        requires own { IsSeatOf self.now seat.old }
        requires mark { HasMark mark.composite (view_of seat.old) }
        requires turn { 0 < (view_of seat.old).turns }
        ensures same { SameSeat seat.old seat.new }
        ensures own { IsSeatOf self.now seat.new }
        ensures core { IsAtHome self.now mark.composite result }
        ensures took { HasView seat.new (took mark.composite (view_of seat.old)) }
    {
        let Home { core } = self.table.take(&mut seat.seat, mark);
        Box::into_inner(core)
    }
}

// Reads the core of a section.
fn read_home(
    pool: &SharedPool,
    section: &mut Section<Home>,
    i: u32,
    out: &mut [u8],
) -> Result<(), Held>
    requires core { IsCore pool.now (core_of section.old) }
    requires turns { 125 ≤ turns_of (core_of section.old) }
    requires range { i + length out.old ≤ size_of (core_of section.old).parts }
    ensures composite { section.new.composite ≡ section.old.composite }
    ensures core { IsCore pool.now (core_of section.new) }
    ensures kept { IsKept (core_of section.old) (core_of section.new) }
    ensures turns { turns_of (core_of section.old) ≤ turns_of (core_of section.new) + 25 }
    ensures len { length out.new ≡ length out.old }
    ensures read { OnOk result
        (HasRead pool.now (core_of section.old) (core_of section.new) i out.new) }
    ensures held { IfErr result (FoundHeldPart pool.now (core_of section.old)
        (core_of section.new) i out.old out.new) }
{
    let Home { core } = Section::home(section);
    read_parts(pool, core, i, out)
}
