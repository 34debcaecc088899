//! The table, its seats and its sections.

ghost use Rattle.std.specs.Prelude.{◌≡◌, ◌≤◌, [], vec_capacity};
ghost use Rattle.pool_law.specs.Homes.{objects_of};
ghost use Rattle.pool_table.specs.Words.{listed_of, words_of};
ghost use Rattle.pool_table.specs.Slots.{slots_of};
ghost use Rattle.pool_table.specs.SeatFields.{IsSeatWith};
ghost use Rattle.pool_table.specs.Firsts.{AreFirsts};
ghost use Rattle.pool_table.specs.Sound.{IsTableShape};

use crate::bare_slot::{BareSlot, let_go};
use crate::firsts::Firsts;
use crate::rule::{Opening, Rule};
use crate::views::{Layout, Letter, SeatView};
use atomic_table::{Seat, Table};
use pool_law::{Noted, Object};
use std::alloc::Global;
use step_law::Told;

/// The greatest number of lanes.
pub(crate) const LANES: usize = 16;

/// One word for each object but the mails and for each root's count, and a slot for each such
/// object's home value.
pub struct PoolTable<H: Told<Note = Noted>> {
    pub(crate) table: Table<BareSlot<H>, SeatView, Opening<H>, Rule, Global>,
    pub(crate) layout: Layout,
    pub(crate) alloc: Global,
    pub(crate) firsts: Firsts,
    pub(crate) spare_homes: Vec<Option<H>>,
    pub(crate) spare_words: Vec<u64>,
    ghost room_for_homes: { (spare_homes.items ≡ [])
        × (objects_of layout.shape ≤ vec_capacity spare_homes) },
    ghost room_for_words: { (spare_words.items ≡ [])
        × (listed_of layout.shape ≤ vec_capacity spare_words) },
    ghost key: { table.shared.key.layout ≡ layout },
    ghost words: { table.shared.table_id.words ≡ words_of layout.shape },
    ghost slots: { table.shared.table_id.slots ≡ slots_of layout.shape },
    ghost shape: { IsTableShape layout.shape },
    ghost places: { AreFirsts layout.shape firsts },
}

/// The pass with which one thread makes steps. What a seat has that is dropped, notes, counts and
/// letters, no other seat gets.
pub struct PoolSeat<H: Told<Note = Noted>> {
    pub(crate) seat: Seat<BareSlot<H>, SeatView>,
    pub(crate) number: Option<u32>,
    /// The first letter that it holds.
    pub(crate) letter: Option<Letter>,
    /// How many letters a lane's seat has sent to each lane. Other seats have no counts.
    pub(crate) sent: Vec<u64>,
    ghost of_view: { IsSeatWith number letter sent.items seat.me.0 },
}

impl<H: Told<Note = Noted>> Drop for PoolSeat<H> {
    fn drop(self) {
        let PoolSeat {
            seat,
            number: _,
            letter: _,
            sent: _,
        } = self;
        let_go(seat);
    }
}

impl<H: Told<Note = Noted>> PoolSeat<H> {
    // The pass and the first letter. Only a method of the seat in this module can take it apart.
    #[inline(always)]
    pub(crate) fn into_parts(self) -> (Seat<BareSlot<H>, SeatView>, Option<Letter>)
        ensures { result ≡ (self.seat, self.letter) }
    {
        let PoolSeat {
            seat,
            number: _,
            letter,
            sent: _,
        } = self;
        (seat, letter)
    }
}

/// Where an object's home value and its word lie.
#[derive(Clone, Copy)]
pub(crate) struct HomeSlot {
    pub(crate) home: usize,
    pub(crate) word: usize,
}

/// A section that a seat is in, with the home value of its object. It must be spent, by `done` or
/// `idle`.
pub struct Section<H: Told<Note = Noted>> {
    pub(crate) home: H,
    pub(crate) object: Object,
    pub(crate) slot: HomeSlot,
}
