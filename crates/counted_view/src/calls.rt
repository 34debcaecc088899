//! The calls of a nest that are accepted, what a release answers, and why a call is refused.

use pool_table::EndToken;

/// Why a call of a nest is refused. They are tested in this order.
#[derive(Clone, Copy, PartialEq, Eq, Debug, Drop)]
pub enum NestNo {
    /// There is no view of that number, or it has no holds of its own.
    Gone = 1,
    /// The range leaves the view.
    Range = 2,
    /// As many slices were made as may be, or the view has as many holds as may be.
    Full = 3,
}

/// A call of a nest that was accepted. Views are named by their numbers.
#[derive(Clone, Copy, PartialEq, Eq, Debug, Drop)]
pub enum NestCall {
    /// A view was made of `len` bytes of the view `of`, from `start` on.
    Slice { of: u32, start: u32, len: u32 },
    /// A view got one hold more.
    Retain(u32),
    /// A view got one hold less.
    Release(u32),
}

/// What a release came to: how many views but 0 live no more, and the right to retire the root
/// where its count in the pool ended. The token must be spent.
pub struct NestEnd {
    /// How many views but 0 ended in this call.
    pub ended: u32,
    /// There exactly where the root's count ended, over all seats.
    pub token: Option<EndToken>,
}
