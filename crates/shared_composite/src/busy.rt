//! Why a read of a shared composite is to be tried again.

use pool_law::Held;

/// Another seat was in the way of a read.
#[derive(Clone, Copy, PartialEq, Eq, Debug, Drop)]
pub enum Busy {
    /// Another seat of the board was in the section of this composite, after so many sections. The
    /// read spent no turn.
    Board { composite: u32, number: u64 },
    /// Another seat of the pool was at the root of a component. The read spent its turn.
    Pool(Held),
}
