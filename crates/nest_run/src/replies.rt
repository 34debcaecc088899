//! What calls on the views of a nest are answered.

use pool_law::{Bytes, Items};

/// The answer to a call.
#[derive(Drop)]
pub enum Reply {
    /// The number of the view that was made.
    Sliced(u32),
    /// A retain or a set was done.
    Done,
    /// The bytes that were read.
    Read(Bytes),
    /// A release after which all that was live before is live still.
    Kept,
    /// A release that ended so many views but the root, and the root or not.
    Freed { ended: u32, root: bool },
    /// There is no view of that number, or it is held no more.
    Gone,
    /// The range leaves the view.
    Range,
}

/// Replies in order.
pub type ReplyList = Items<Reply>;
