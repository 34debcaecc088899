//! Moves on the way from one seat to another.

ghost use Rattle.std.specs.Prelude.{◌≡◌};
ghost use Rattle.shared_pool.specs.Handing.{HasMoves};

use crate::seat::TableSeat;
use std::mem::ManuallyDrop;

/// Moves of a pool on the way from one seat to another, by any channel. A share that is dropped
/// takes its moves with it: no seat gets them.
pub struct Share {
    pub(crate) seat: TableSeat,
    pub(crate) moves: u32,
    ghost has: { HasMoves moves seat },
}

impl Drop for Share {
    // A seat that has moves alone has nothing that is to be freed.
    fn drop(self) {
        let Share { seat, moves: _ } = self;
        let _seat = unsafe { ManuallyDrop::new_unchecked(seat) };
    }
}

impl Share {
    /// How many moves it has.
    pub fn moves(&self) -> u32
        ensures { result ≡ self.now.moves }
    {
        self.moves
    }

    // The seat, for `accept`.
    pub(crate) fn into_seat(self) -> TableSeat
        ensures { result ≡ self.seat }
    {
        let Share { seat, moves: _ } = self;
        seat
    }
}
