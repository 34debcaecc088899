//! The table, its seats and its sections.

ghost use Rattle.std.specs.Prelude.{◌≡◌, ◌*◌, ◌<◌, ◌≤◌, length};

use crate::rule::{Homed, Rule};
use crate::views::{BoardView, Opening};
use atomic_table::{Seat, Table};
use std::alloc::Global;

/// How far apart the words of different composites lie: no two of them share a cache line.
pub(crate) const APART: usize = 16;

/// Two words and a slot for each composite. It must be spent.
pub struct BoardTable<H: Homed<T>, T> {
    pub(crate) table: Table<Option<H>, BoardView, Opening<T>, Rule, Global>,
    pub(crate) composites: u32,
    ghost key: { table.shared.key.composites ≡ composites },
    ghost words: { table.shared.table_id.words ≡ 16 * composites },
    ghost slots: { table.shared.table_id.slots ≡ composites },
    ghost some: { 0 < composites },
}

/// The pass with which one thread makes steps. What a seat has that is dropped, no other seat gets.
#[derive(Drop)]
pub struct BoardSeat<H> {
    pub(crate) seat: Seat<Option<H>, BoardView>,
    ghost within: { 16 * length seat.me.0.stakes ≤ seat.table_id.words },
}

/// A section that a seat is in, with the home value of its composite. It must be spent, by `done` or
/// `take`.
pub struct Section<H> {
    pub(crate) home: H,
    pub(crate) composite: u32,
}
