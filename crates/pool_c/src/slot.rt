// A box as the pointer that C holds, or none.
ghost use Rattle.std.specs.Prelude.{◌≡◌, IsSome, Option, Some, None};
ghost use Rattle.pool_c.specs.Holding.{Holding};

use crate::held::Held;
use crate::loose::Loose;
use std::alloc::Global;
use std::marker::Model;

/// The pointer that C holds for a thread of a pool. Let go, what is behind it stays.
#[repr(C)]
#[derive(Drop)]
pub struct Slot {
    at: *mut u8,
    ghost held: { Option Holding },
}

impl Model for Slot {
    ghost use Rattle.std.specs.Prelude.{Option};
    ghost use Rattle.pool_c.specs.Holding.{Holding};
    ghost use Rattle.pool_c.specs.Slots.{slot_owns};

    ghost also_owns = { λ s. slot_owns s.at s.held };
}

impl Slot {
    pub(crate) fn none() -> Slot
        ensures { result.held ≡ None }
    {
        Slot {
            at: std::ptr::null_mut(),
        }
    }

    pub(crate) fn of(loose: Loose<Held, Global>) -> Slot
        ensures { result.held ≡ Some loose.value }
    {
        let Loose { at, alloc: _ } = loose;
        Slot { at: at as *mut u8 }
    }

    pub(crate) fn into_loose(self, alloc: Global) -> Loose<Held, Global>
        requires { IsSome self.held }
        ensures { self.held ≡ Some result.value }
    {
        let Slot { at } = self;
        Loose {
            at: at as *mut Held,
            alloc,
        }
    }
}
