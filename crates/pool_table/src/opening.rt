//! How a table is made, and its first seats.

ghost use Rattle.std.specs.Prelude.{◌≡◌, ◌*◌, ◌<◌, ◌≤◌, ◌^◌, [], length, All, IfOk, IfErr, vec_len, vec_capacity};
ghost use Rattle.pool_law.specs.Homes.{objects_of};
ghost use Rattle.pool_table.specs.Words.{listed_of, IsOpening};
ghost use Rattle.pool_table.specs.Slots.{slots_of};
ghost use Rattle.pool_table.specs.Sound.{IsTableShape};
ghost use Rattle.pool_table.specs.Steps.{first_view};
ghost use Rattle.pool_table.specs.Opened.{AreFirstSeats, AreNone, StandAtFirst};

use crate::bare_slot::{BareSlot, let_go};
use crate::firsts::Firsts;
use crate::index::{listed_count, object_count, slot_count};
use crate::making::{opening_words, unwrapped, wrapped};
use crate::rule::{CutStep, Opening};
use crate::table::{LANES, PoolSeat, PoolTable};
use crate::views::{Layout, SeatView};
use atomic_table::{Refused, Seat, Table};
use pool_law::{Noted, Shape};
use std::alloc::{AllocError, Global};
use std::snapshot::Snapshot;
use step_law::Told;

// All memory that a table takes.
struct Memory<H: Told<Note = Noted>> {
    words: Vec<u64>,
    slots: Vec<BareSlot<H>>,
    spare_words: Vec<u64>,
    spare_homes: Vec<Option<H>>,
    seats: Vec<PoolSeat<H>>,
    counts: Vec<Vec<u64>>,
}

// No letter counted yet to any lane, for so many lanes.
fn no_letters(alloc: Global, lanes: u32) -> Result<Vec<Vec<u64>>, AllocError>
    ensures many { IfOk result (λ v. vec_len v ≡ lanes) }
    ensures none { IfOk result (λ v. All (λ c. AreNone LANES c.items) v.items) }
{
    let mut counts = Vec::with_capacity(alloc, lanes as usize)?;
    for _lane in 0..lanes {
        counts.push(Vec::from_elem(alloc, 0u64, LANES)?)?;
    }
    Ok(counts)
}

fn take_memory<H: Told<Note = Noted>>(alloc: Global, shape: &Shape) -> Result<Memory<H>, AllocError>
    requires { IsTableShape shape.now }
    ensures words { IfOk result (λ r. IsOpening shape.now r.words.items) }
    ensures slots { IfOk result (λ r.
        (r.slots.items ≡ []) × (slots_of shape.now ≤ vec_capacity r.slots)) }
    ensures spare_words { IfOk result (λ r.
        (r.spare_words.items ≡ []) × (listed_of shape.now ≤ vec_capacity r.spare_words)) }
    ensures spare_homes { IfOk result (λ r.
        (r.spare_homes.items ≡ []) × (objects_of shape.now ≤ vec_capacity r.spare_homes)) }
    ensures seats { IfOk result (λ r.
        (r.seats.items ≡ []) × (shape.now.lanes ≤ vec_capacity r.seats)) }
    ensures counts { IfOk result (λ r. vec_len r.counts ≡ shape.now.lanes) }
    ensures none { IfOk result (λ r. All (λ c. AreNone LANES c.items) r.counts.items) }
{
    let objects = object_count(shape);
    let count = listed_count(shape);
    let counts = no_letters(alloc, shape.lanes)?;
    let words = opening_words(alloc, shape)?;
    let spare_words = Vec::with_capacity(alloc, count)?;
    let slots: Vec<BareSlot<H>> = Vec::with_capacity(alloc, slot_count(shape))?;
    let Ok(spare_homes) = Vec::with_capacity(alloc, objects) else {
        slots.destroy_empty();
        return Err(AllocError);
    };
    let Ok(seats) = Vec::with_capacity(alloc, shape.lanes as usize) else {
        slots.destroy_empty();
        spare_homes.destroy_empty();
        return Err(AllocError);
    };
    Ok(Memory {
        words,
        slots,
        spare_words,
        spare_homes,
        seats,
        counts,
    })
}

impl<H: Told<Note = Noted>> PoolTable<H> {
    // CutStep the first seats out of the opening view.
    fn first_seats(
        &self,
        mut rest: Seat<BareSlot<H>, SeatView>,
        mut seats: Vec<PoolSeat<H>>,
        mut counts: Vec<Vec<u64>>,
    ) -> Vec<PoolSeat<H>>
        requires own { rest.table_id ≡ self.now.table.shared.table_id }
        requires rest { let homes = self.now.table.shared.key.homes.value in
            rest.me ≡ (first_view self.now.layout (H.settles homes.items), []) }
        requires room { (seats.items ≡ []) × (self.now.layout.shape.lanes ≤ vec_capacity seats) }
        requires counts { vec_len counts ≡ self.now.layout.shape.lanes }
        requires none { All (λ c. AreNone LANES c.items) counts.items }
        ensures { let homes = self.now.table.shared.key.homes.value in
            AreFirstSeats self.now.layout (H.settles homes.items) self.now result.items }
    {
        for i in 0..self.layout.shape.lanes {
            let seat = self.table.shared.split_seat::<CutStep>(&mut rest);
            let Some(sent) = counts.pop() else {
                unreachable!()
            };
            let pushed = seats.push(PoolSeat {
                seat,
                number: Some(i),
                letter: None,
                sent,
            });
            let Ok(()) = pushed else { unreachable!() };
        }
        let_go(rest);
        seats
    }

    /// A table with one home value for each object, and a seat for each lane. It takes all memory
    /// that a table needs. Where memory is refused, the home values come back.
    pub fn new(
        alloc: Global,
        layout: Layout,
        mut homes: Vec<H>,
    ) -> Result<(PoolTable<H>, Vec<PoolSeat<H>>), Vec<H>>
        requires shape { IsTableShape layout.shape }
        requires homes { length homes.items ≡ objects_of layout.shape }
        requires stand { StandAtFirst H.stands layout.shape (H.settles homes.items) homes.items }
        requires moves { layout.shape.lanes * layout.moves < 2 ^ 30 }
        requires turns { layout.shape.lanes * layout.turns < 2 ^ 62 }
        ensures layout { IfOk result (λ r. r.0.layout ≡ layout) }
        ensures seats { IfOk result (λ r.
            AreFirstSeats layout (H.settles homes.items) r.0 r.1.items) }
        ensures err { IfErr result (λ h. h.items ≡ homes.items) }
    {
        let Ok(memory) = take_memory(alloc, &layout.shape) else {
            return Err(homes);
        };
        let Memory {
            words,
            slots,
            spare_words,
            spare_homes,
            seats,
            counts,
        } = memory;
        let opening = Opening {
            layout,
            homes: Snapshot::of(&homes),
        };
        let firsts = Firsts::of(&layout.shape);
        let slots = wrapped(&layout.shape, &mut homes, slots);
        match Table::new(alloc, words.as_slice(), slots, &opening) {
            Ok((table, rest)) => {
                homes.destroy_empty();
                let table = PoolTable {
                    table,
                    layout,
                    alloc,
                    firsts,
                    spare_homes,
                    spare_words,
                };
                let seats = table.first_seats(rest, seats, counts);
                Ok((table, seats))
            }
            Err(Refused { slots }) => {
                spare_homes.destroy_empty();
                seats.destroy_empty();
                Err(unwrapped(&layout.shape, slots, homes))
            }
        }
    }
}
