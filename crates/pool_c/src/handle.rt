//! The handle that C has for a thread of a pool.

ghost use Rattle.std.specs.Prelude.{IsSome, IsTrue, ◌==◌};

use crate::slot::Slot;

/// A handle, as `struct pool_thread` has it. All zeros, it is empty.
#[repr(C)]
#[derive(Drop)]
pub struct PoolThread {
    pub(crate) slot: Slot,
    pub(crate) state: u32,
    ghost tied: { IsTrue (state == 1) → IsSome slot.held },
}
