//! What a step of a lane comes to, or of a core of a shared composite. No stage answers it: it
//! stands here as the crates of both stand on this one.

use pool_law::Held;

/// What a step did.
pub enum Stepped {
    /// A reply was added, or what one section and one step on a count note, or both.
    Went,
    /// Another seat was at the object where the lane's next note stands; it waits.
    Pending(Held),
    /// No parcel from that lane is there.
    Waiting {
        /// The lane that is to send it.
        from: u32,
    },
    /// All was done before: each command was answered, and all caches were closed and shed.
    Finished,
}
