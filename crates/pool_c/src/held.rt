//! What lies behind the handle of a thread.

ghost use Rattle.std.specs.Prelude.{◌≡◌};
ghost use Rattle.std.specs.Arc.{arc_value};
ghost use Rattle.pool_law.specs.Limits.{geometry_of};
ghost use Rattle.pool_member.specs.Threads.{HasOwnChannels, IsThread};

use pool_member::Member;
use shared_pool::SharedPool;
use size_classes::SizeClasses;
use std::alloc::Global;
use std::marker::Model;
use std::mem::ManuallyDrop;
use std::sync::Arc;

/// What the threads of a pool share. Let go, its memory stays taken until the program ends.
pub(crate) struct Common {
    pub(crate) shared: SharedPool,
    pub(crate) sizes: SizeClasses,
    pub(crate) threads: u32,
    pub(crate) name: u32,
    ghost sizes_are: { sizes ≡ geometry_of shared.table.layout.shape },
    ghost threads_are: { threads ≡ shared.table.layout.shape.lanes },
    ghost own: { HasOwnChannels shared },
}

impl Drop for Common {
    fn drop(self) {
        let Common {
            shared,
            sizes: _,
            threads: _,
            name: _,
        } = self;
        let _shared = unsafe { ManuallyDrop::new_unchecked(shared) };
    }
}

/// A thread of a pool, with its share of what the threads have in common.
pub(crate) struct Held {
    pub(crate) common: Arc<Common, Global>,
    pub(crate) member: Member,
}

impl Model for Held {
    ghost use Rattle.std.specs.Arc.{arc_value};
    ghost use Rattle.pool_member.specs.Threads.{IsThread};
    ghost use Rattle.pool_c.specs.Holding.{Holding};

    ghost Value = { Holding };

    ghost view = { λ h. record { common = arc_value h.common; member = h.member } };

    ghost invariant = { λ h. IsThread (arc_value h.common).shared h.member };
}

impl Drop for Held {
    fn drop(self) {
        let Held { common, member } = self;
        drop(common);
        let _member = unsafe { ManuallyDrop::new_unchecked(member) };
    }
}

impl Common {
    /// The pool, its sizes, how many threads it has, and its name.
    pub(crate) fn apart(self) -> (SharedPool, SizeClasses, u32, u32)
        ensures shared { (result.0 ≡ self.shared) × (result.1 ≡ self.sizes) }
        ensures rest { (result.2 ≡ self.threads) × (result.3 ≡ self.name) }
        ensures sizes_are { result.1 ≡ geometry_of result.0.table.layout.shape }
        ensures threads_are { result.2 ≡ result.0.table.layout.shape.lanes }
        ensures own { HasOwnChannels result.0 }
    {
        let Common {
            shared,
            sizes,
            threads,
            name,
        } = self;
        (shared, sizes, threads, name)
    }
}

impl Held {
    /// What its threads have in common, and the thread.
    pub(crate) fn apart(self) -> (Arc<Common, Global>, Member)
        ensures parts { (arc_value result.0 ≡ self.common) × (result.1 ≡ self.member) }
        ensures thread { IsThread (arc_value result.0).shared result.1 }
    {
        let Held { common, member } = self;
        (common, member)
    }
}
