//! Where the first root place's slot and words lie, reckoned once as a table is made.

ghost use Rattle.std.specs.Prelude.{◌≡◌, ◌≤◌, ◌<◌, ◌*◌, ◌%◌};
ghost use Rattle.pool_table.specs.Firsts.{AreFirsts};
ghost use Rattle.pool_table.specs.Sound.{IsTableShape};
ghost use Rattle.pool_table.specs.Words.{words_apart};

use crate::index::{SLOTS_APART, WORDS_APART, single_count};
use pool_law::Shape;

/// Where the first root place lies. Another that is packed behind it lies as much further on as its
/// number says.
#[derive(Clone, Copy)]
pub(crate) struct Firsts {
    /// How many root places are packed, their words too: all of them where the words of each lane
    /// fill their cache lines, and else none.
    pub(crate) packed: u32,
    pub(crate) slot: usize,
    pub(crate) word: usize,
    /// The word of its count.
    pub(crate) count: usize,
}

impl Firsts {
    pub(crate) fn of(shape: &Shape) -> Firsts
        requires { IsTableShape shape.now }
        ensures { AreFirsts shape.now result }
    {
        let single = single_count(shape);
        let packed = packed_count(shape);
        let places = shape.lanes as usize * shape.handles as usize;
        Firsts {
            packed,
            slot: single * SLOTS_APART,
            word: single * WORDS_APART,
            count: single * WORDS_APART + places,
        }
    }
}

// How many root places are packed.
fn packed_count(shape: &Shape) -> u32
    requires { IsTableShape shape.now }
    ensures within { result ≤ shape.now.lanes * shape.now.handles }
    ensures full { 0 < result → shape.now.handles % words_apart ≡ 0 }
{
    if shape.handles as usize % WORDS_APART == 0 {
        shape.lanes * shape.handles
    } else {
        0
    }
}
