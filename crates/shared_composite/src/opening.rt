//! How a board is made, with its first seat.

ghost use Rattle.std.specs.Prelude.{◌≡◌, ◌^◌, ◌<◌, ◌≤◌, ◌++◌, [], length, IfOk, IfErr, vec_capacity};
ghost use Rattle.shared_pool.specs.declared.pool.SharedPool.{SharedPool};
ghost use Rattle.board_table.specs.Views.{first_view};
ghost use Rattle.shared_composite.specs.Homes.{cores_in, AreBoxed};
ghost use Rattle.shared_composite.specs.Boards.{IsSeatOf, HasView, AreCores, IsMadeOf};

use crate::board::{Board, BoardSeat};
use crate::closing::unboxed;
use crate::cores::Core;
use crate::home::Home;
use board_table::BoardTable;
use std::alloc::{AllocFailed, Global};
use std::marker::Brand;

impl Board {
    /// A board of 1 to 16 cores, whose seats are all of one pool, and its first seat, which counts each
    /// composite once and has all moves and turns. It takes all memory that the board needs. Where
    /// memory is refused, the cores come back.
    pub fn new(
        alloc: Global,
        moves: u32,
        turns: u64,
        cores: Vec<Core>,
    ) -> Result<(Board, BoardSeat), Vec<Core>>
        ghost pool: { SharedPool }
        requires some { 0 < length cores.items }
        requires many { length cores.items ≤ 16 }
        requires moves { moves < 2 ^ 30 }
        requires turns { turns < 2 ^ 50 }
        requires cores { AreCores pool turns cores.items }
        ensures made { IfOk result (λ r. IsMadeOf r.0 pool turns cores.items) }
        ensures own { IfOk result (λ r. IsSeatOf r.0 r.1) }
        ensures view { IfOk result (λ r.
            HasView r.1 (first_view (length cores.items) moves turns)) }
        ensures err { IfErr result (λ back. back.items ≡ cores.items) }
    {
        let mut cores = cores;
        let count = cores.len();
        let Ok(spare) = Vec::with_capacity(alloc, count) else {
            return Err(cores);
        };
        let Ok(slots) = Vec::with_capacity(alloc, count) else {
            spare.destroy_empty();
            return Err(cores);
        };
        let slots = match boxed(alloc, &mut cores, slots) {
            Ok(slots) => slots,
            Err(slots) => {
                spare.destroy_empty();
                unboxed(slots, &mut cores);
                return Err(cores);
            }
        };
        match BoardTable::new::<Brand>(alloc, moves, turns, slots) {
            Ok((table, seat)) => {
                let board = Board {
                    table,
                    slots: spare,
                    cores,
                };
                Ok((board, BoardSeat { seat }))
            }
            Err(slots) => {
                spare.destroy_empty();
                unboxed(slots, &mut cores);
                Err(cores)
            }
        }
    }
}

// Each core in a box in its slot, in the same order. The vector that held them keeps its room. Where
// memory is refused, the slots are those of the last cores, and the others stay.
fn boxed(
    alloc: Global,
    cores: &mut Vec<Core>,
    mut slots: Vec<Option<Home>>,
) -> Result<Vec<Option<Home>>, Vec<Option<Home>>>
    requires { (slots.items ≡ []) × (length cores.old.items ≤ vec_capacity slots) }
    ensures ok { IfOk result (λ s. AreBoxed cores.old.items s.items × (cores.new.items ≡ [])) }
    ensures err { IfErr result (λ s. cores.new.items ++ cores_in s.items ≡ cores.old.items) }
    ensures room { length cores.old.items ≤ vec_capacity cores.new }
{
    while let Some(core) = cores.pop() {
        match Box::new(alloc, core) {
            Ok(core) => {
                let pushed = slots.push(Some(Home { core }));
                let Ok(()) = pushed else { unreachable!() };
            }
            Err(AllocFailed { value }) => {
                let pushed = cores.push(value);
                let Ok(()) = pushed else { unreachable!() };
                slots.as_mut_slice().reverse();
                return Err(slots);
            }
        }
    }
    slots.as_mut_slice().reverse();
    Ok(slots)
}
