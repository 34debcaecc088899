// A parcel's box as the pointer that C holds, or none.
ghost use Rattle.std.specs.Prelude.{◌≡◌, IsSome, Option, Some, None};
ghost use Rattle.pool_c.specs.declared.carried.Carried.{Carried};

use crate::carried::Carried;
use crate::loose::Loose;
use std::alloc::Global;
use std::marker::Model;

/// The pointer that C holds for a parcel. Let go, what is behind it stays.
#[repr(C)]
#[derive(Drop)]
pub struct ParcelSlot {
    at: *mut u8,
    ghost held: { Option Carried },
}

impl Model for ParcelSlot {
    ghost use Rattle.std.specs.Prelude.{Option};
    ghost use Rattle.pool_c.specs.declared.carried.Carried.{Carried};
    ghost use Rattle.pool_c.specs.ParcelSlots.{parcel_slot_owns};

    ghost also_owns = { λ s. parcel_slot_owns s.at s.held };
}

impl ParcelSlot {
    pub(crate) fn none() -> ParcelSlot
        ensures { result.held ≡ None }
    {
        ParcelSlot {
            at: std::ptr::null_mut(),
        }
    }

    pub(crate) fn of(loose: Loose<Carried, Global>) -> ParcelSlot
        ensures { result.held ≡ Some loose.value }
    {
        let Loose { at, alloc: _ } = loose;
        ParcelSlot { at: at as *mut u8 }
    }

    pub(crate) fn into_loose(self, alloc: Global) -> Loose<Carried, Global>
        requires { IsSome self.held }
        ensures { self.held ≡ Some result.value }
    {
        let ParcelSlot { at } = self;
        Loose {
            at: at as *mut Carried,
            alloc,
        }
    }
}
