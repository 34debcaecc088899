//! A buffer as C has it: plain numbers, which may be copied, changed or made up.

ghost use Rattle.std.specs.Prelude.{◌≡◌};
ghost use Rattle.pool_c.specs.Answers.{whole};
ghost use Rattle.pool_c.specs.Refusals.{has_range, root_of};

use pool_law::RootId;
use pool_member::Account;

/// A window on bytes of a pool, as `struct pool_buffer` has it. It stands for one count of its
/// thread, and nothing of it is believed: each call tests it against what the thread counts.
#[repr(C)]
#[derive(Clone, Copy, PartialEq, Eq, Drop)]
pub struct PoolBuffer {
    /// The name of its pool.
    pub pool: u32,
    /// The number of its thread.
    pub thread: u32,
    /// The place of the root that its bytes are of.
    pub place: u32,
    /// The how-many-eth root of that place it is.
    pub generation: u32,
    /// How many bytes that was allocated with.
    pub capacity: u32,
    /// Where the window begins there, in bytes.
    pub offset: u32,
    /// How many bytes it has.
    pub length: u32,
}

impl PoolBuffer {
    /// All of a new root of a thread of the pool with this name.
    pub(crate) fn whole(pool: u32, account: &Account, root: RootId) -> PoolBuffer
        ensures { result ≡ whole pool account.now.lane root }
    {
        PoolBuffer {
            pool,
            thread: account.lane,
            place: root.place,
            generation: root.generation,
            capacity: root.capacity,
            offset: 0,
            length: root.capacity,
        }
    }

    /// The root that its bytes would be of.
    pub(crate) fn root(&self) -> RootId
        ensures { result ≡ root_of self.now }
    {
        RootId {
            place: self.place,
            generation: self.generation,
            capacity: self.capacity,
        }
    }

    /// Whether so many bytes from `start` on are all in the window.
    pub(crate) fn has_range(&self, start: u32, count: usize) -> bool
        ensures { result ≡ has_range self.now start count }
    {
        start <= self.length && count <= (self.length - start) as usize
    }
}
