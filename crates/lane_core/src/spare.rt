//! Room for the seats of all lanes.

ghost use Rattle.std.specs.Prelude.{◌≡◌, ◌≤◌, [], IfOk, vec_capacity};

use shared_pool::PoolSeat;
use std::alloc::{AllocError, Global};

/// An empty list with room for seats, which each lane keeps, so that a pool can be closed, or given
/// up, when no memory is left.
pub(crate) struct Spare {
    seats: Vec<PoolSeat>,
    ghost empty: { seats.items ≡ [] },
}

impl Spare {
    /// Room for so many seats.
    pub(crate) fn new(alloc: Global, count: usize) -> Result<Spare, AllocError>
        ensures { IfOk result (λ spare. count ≤ vec_capacity spare.seats) }
    {
        Ok(Spare {
            seats: Vec::with_capacity(alloc, count)?,
        })
    }

    /// The list.
    pub(crate) fn into_seats(self) -> Vec<PoolSeat>
        ensures is { result ≡ self.seats }
        ensures empty { result.items ≡ [] }
    {
        let Spare { seats } = self;
        seats
    }

    /// Gives the room back.
    pub(crate) fn end(self) {
        self.into_seats().destroy_empty();
    }
}
