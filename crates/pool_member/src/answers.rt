//! Why a call was refused, and what is left of a pool.

use leak_records::LiveList;
use pool_law::ChunkEnds;

/// Why no pool was opened.
#[derive(Clone, Copy, PartialEq, Eq, Debug, Drop)]
pub enum OpenNo {
    /// A measure is outside its limits.
    Shape,
    /// All threads together have more moves or turns than a pool can count.
    Budget,
    /// There was no memory.
    Memory,
}

/// Why no buffer was allocated.
#[derive(Clone, Copy, PartialEq, Eq, Debug, Drop)]
pub enum AllocNo {
    /// It is larger than a chunk.
    TooLarge,
    /// The thread has used up its turns.
    Spent,
    /// All handles of the thread are at live buffers.
    NoHandle,
    /// The thread's arena has no region of that size left.
    Full,
    /// The place of the thread's next handle has had as many buffers as it has names for. Another
    /// call gets the next handle.
    Worn,
}

/// Why a call on a buffer was refused. Nothing has changed then.
#[derive(Clone, Copy, PartialEq, Eq, Debug, Drop)]
pub enum AccessNo {
    /// The buffer is another thread's. It comes where the number in the buffer isn't the thread's,
    /// the thread doesn't count the buffer's root, or it knows of less of the root's capacity than
    /// the buffer reaches up to. No buffer meets the last two that its thread got by these calls
    /// and has not given away.
    NotHere,
    /// The range passes a bound of the buffer.
    Range,
    /// The thread has used up its turns or its moves.
    Spent,
}

/// Why a buffer did not get the capacity that was asked. Nothing has changed then, but that turns
/// were taken where the arena was full.
#[derive(Clone, Copy, PartialEq, Eq, Debug, Drop)]
pub enum CapacityNo {
    /// The buffer is another thread's, as `AccessNo::NotHere` says it.
    NotHere,
    /// It is more than a chunk.
    TooLarge,
    /// The thread has used up its turns.
    Spent,
    /// The buffer's bytes lie in a region that does not hold so much, and the thread's arena has no
    /// region of that size left.
    Full,
}

/// Why a buffer did not get the capacity that was asked by a call that never waits.
#[derive(Clone, Copy, PartialEq, Eq, Debug, Drop)]
pub enum TryCapacityNo {
    /// Another thread was just then at the buffer's bytes or at the thread's arena. Made again, it
    /// may do its work.
    Busy,
    /// It was refused, as the call that waits would have been.
    Refused(CapacityNo),
}

/// Why a thread did not give back all that its caches keep.
#[derive(Clone, Copy, PartialEq, Eq, Debug, Drop)]
pub enum TrimNo {
    /// The thread has used up its turns.
    Spent,
}

/// The same for a call that never waits.
#[derive(Clone, Copy, PartialEq, Eq, Debug, Drop)]
pub enum TryTrimNo {
    /// Another thread was just then at one of the caches or at an arena. Made again, it goes on.
    Busy,
    /// The thread has used up its turns.
    Spent,
}

/// Why a call that never waits did not do its work.
#[derive(Clone, Copy, PartialEq, Eq, Debug, Drop)]
pub enum TryNo {
    /// Another thread was just then at what the call needs. Made again, it may do its work.
    Busy,
    /// It was refused, as the call that waits would have been.
    Refused(AccessNo),
}

impl From<AccessNo> for TryNo {
    ghost use Rattle.std.specs.Prelude.{◌≡◌};
    ghost use Rattle.pool_member.specs.declared.answers.TryNo.TheVariants.{Refused};

    ghost from_gives = { λ why no. no ≡ Refused why };

    fn from(why: AccessNo) -> TryNo {
        TryNo::Refused(why)
    }
}

/// Why no buffer was allocated by a call that never waits.
#[derive(Clone, Copy, PartialEq, Eq, Debug, Drop)]
pub enum TryAllocNo {
    /// Another thread was just then at the thread's handles or at its arena. Made again, it may do
    /// its work.
    Busy,
    /// It was refused, as the call that waits would have been.
    Refused(AllocNo),
}

/// Why a buffer was not parted with. Nothing has changed then.
#[derive(Clone, Copy, PartialEq, Eq, Debug, Drop)]
pub enum PartNo {
    /// There is no thread of that number.
    NoThread,
    /// The buffer is another thread's, as `AccessNo::NotHere` says it.
    NotHere,
    /// The thread has used up its turns.
    Spent,
}

/// Why a parcel was not accepted. Nothing has changed then.
#[derive(Clone, Copy, PartialEq, Eq, Debug, Drop)]
pub enum AcceptNo {
    /// It is for another thread.
    NotHere,
    /// A parcel that the same thread made for this one before it was not accepted yet.
    OutOfOrder,
    /// The thread has used up its turns.
    Spent,
}

/// Why a pool was not closed. Nothing has changed then.
#[derive(Clone, Copy, PartialEq, Eq, Debug, Drop)]
pub enum CloseNo {
    /// These are not all its threads, in the order of their numbers.
    Threads,
    /// One of them has something to put away, which a call that never waits began: it settles first.
    Unsettled,
    /// There was no memory.
    Memory,
}

/// What stands at the close of a pool.
#[derive(Drop)]
pub struct Closed {
    /// The chunks that were in use, by arena.
    pub chunks: ChunkEnds,
    /// The watched buffers whose counts were never all released, by root place.
    pub leaks: LiveList,
}
