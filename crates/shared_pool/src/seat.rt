//! Seats: what a lane works on a pool with.

ghost use Rattle.std.specs.Prelude.{◌≡◌};
ghost use Rattle.shared_pool.specs.SeatViews.{view_of};

use crate::home::Home;
use crate::queue::MailPass;

// The seat of the table, by which the steps on its words are made.
pub(crate) type TableSeat = pool_table::PoolSeat<Home>;

/// The pass with which its holder makes steps on a pool. It has a lane's number, the notes that the
/// lane made, and the lane's ends of its mails. Only a lane that is over gives it back, to
/// `SharedPool::close`.
pub struct PoolSeat {
    pub(crate) seat: TableSeat,
    // By lane, the ends that post to it, and those that fetch from it.
    pub(crate) posts: Vec<MailPass>,
    pub(crate) fetches: Vec<MailPass>,
}

impl PoolSeat {
    /// The number of its lane.
    pub fn number(&self) -> Option<u32>
        ensures { result ≡ (view_of self.now).own.number }
    {
        self.seat.number()
    }
}
