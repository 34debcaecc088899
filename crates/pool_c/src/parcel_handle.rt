//! The handle that C has for a parcel.

ghost use Rattle.std.specs.Prelude.{IsSome, IsTrue, ◌==◌};

use crate::parcel_slot::ParcelSlot;

/// A handle, as `struct pool_parcel` has it. All zeros, it is empty.
#[repr(C)]
#[derive(Drop)]
pub struct PoolParcel {
    pub(crate) slot: ParcelSlot,
    pub(crate) state: u32,
    ghost tied: { IsTrue (state == 1) → IsSome slot.held },
}
