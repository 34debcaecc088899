//! A thread of a pool, whatever the pool's name is.

ghost use Rattle.std.specs.Prelude.{◌≡◌};

use crate::account::Account;
use crate::pending::Unsettled;
use crate::watcher::Watcher;
use shared_pool::PoolSeat;

/// A thread of a pool: its seat, with the notes that it made, its account, and what it has still to
/// put away.
pub struct Member {
    /// Its seat.
    pub seat: PoolSeat,
    /// What it counts, and what it has left.
    pub account: Account,
    /// What it has still to put away.
    pub pending: Unsettled,
    /// Which of its allocations are watched.
    pub watcher: Watcher,
}
