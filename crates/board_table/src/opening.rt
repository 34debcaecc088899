//! How a table is made, with its first seat.

ghost use Rattle.std.specs.Prelude.{◌≡◌, ◌*◌, ◌^◌, ◌<◌, ◌≤◌, length, IfOk, IfErr};
ghost use Rattle.board_table.specs.Names.{named};
ghost use Rattle.board_table.specs.Views.{first_view};
ghost use Rattle.board_table.specs.Seats.{opening_of, IsSeatOf, HasView};
ghost use Rattle.board_table.specs.Openings.{AreOpening, AreHomes};

use crate::naming::{Name, Naming};
use crate::rule::Homed;
use crate::table::{APART, BoardSeat, BoardTable};
use crate::views::Opening;
use atomic_table::{Refused, Table};
use std::alloc::{AllocError, Global};

// The words of so many composites before the first step.
fn opening_words(alloc: Global, composites: u32) -> Result<Vec<u64>, AllocError>
    requires { composites ≤ 16 }
    ensures { IfOk result (λ words. AreOpening composites words.items) }
{
    let mut words = Vec::from_elem(alloc, 0u64, APART * composites as usize)?;
    for k in 0..composites {
        words[APART * k as usize + 1] = 1;
    }
    Ok(words)
}

// All memory that a table takes beside its slots.
#[derive(Drop)]
struct Memory<T> {
    words: Vec<u64>,
    name: Name<T>,
}

fn take_memory<T, N: Naming<T>>(alloc: Global, composites: u32) -> Result<Memory<T>, AllocError>
    requires { composites ≤ 16 }
    ensures words { IfOk result (λ m. AreOpening composites m.words.items) }
    ensures name { IfOk result (λ m. named m.name ≡ N.value) }
{
    Ok(Memory {
        words: opening_words(alloc, composites)?,
        name: Name::new::<N>(alloc)?,
    })
}

impl<T, H: Homed<T>> BoardTable<H, T> {
    /// A table of 1 to 16 composites, each with its home value in its slot, and the first seat, which
    /// counts each composite once and has all moves and turns. `N` names what the composites are made
    /// from. Where memory is refused, the slots come back.
    pub fn new<N: Naming<T>>(
        alloc: Global,
        moves: u32,
        turns: u64,
        slots: Vec<Option<H>>,
    ) -> Result<(BoardTable<H, T>, BoardSeat<H>), Vec<Option<H>>>
        requires some { 0 < length slots.items }
        requires many { length slots.items ≤ 16 }
        requires moves { moves < 2 ^ 30 }
        requires turns { turns < 2 ^ 50 }
        requires homes { AreHomes H.stands H.left N.value turns slots.items }
        ensures origin { IfOk result (λ r. named (opening_of r.0).origin ≡ N.value) }
        ensures turns { IfOk result (λ r. (opening_of r.0).turns ≡ turns) }
        ensures composites { IfOk result (λ r. r.0.composites ≡ length slots.items) }
        ensures seat { IfOk result (λ r. IsSeatOf r.0 r.1
            × HasView r.1 (first_view (length slots.items) moves turns)) }
        ensures err { IfErr result (λ s. s.items ≡ slots.items) }
    {
        let composites = slots.len() as u32;
        let Ok(memory) = take_memory::<T, N>(alloc, composites) else {
            return Err(slots);
        };
        let Memory { words, name } = memory;
        let opening = Opening {
            composites,
            moves,
            turns,
            origin: name,
        };
        match Table::new(alloc, words.as_slice(), slots, &opening) {
            Ok((table, seat)) => Ok((BoardTable { table, composites }, BoardSeat { seat })),
            Err(Refused { slots }) => Err(slots),
        }
    }
}
