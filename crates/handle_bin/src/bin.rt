//! A bin and its calls. Contracts see the handles in it from the front to the back.

ghost use Rattle.std.specs.Prelude.{◌≡◌, ◌<◌, ◌≤◌, [], ◌∷◌, ◌++◌, IfOk, OnOk, IfSome, IfNone, IsTrue};
ghost use Rattle.circular_buffer.specs.Buffer.{buffer};
ghost use Rattle.handle_bin.specs.Bins.{handles_below, is_of};

use crate::handle::Handle;
use circular_buffer::HeapCircularBuffer;
use std::alloc::{AllocError, Global};
use std::marker::Model;

/// The handles of a lane that nobody has, first in, first out (Netty: `Recycler`).
///
/// It must be spent. Each call but `new` and `leave` is one note of the bin's history.
pub struct Bin {
    lane: u32,
    handles: u32,
    ready: HeapCircularBuffer<Handle>,
}

impl Model for Bin {
    ghost use Rattle.handle_bin.specs.Bins.{BinValue};

    ghost Value = { BinValue };

    ghost use Rattle.handle_bin.specs.Kept.{bin_in, IsBin};

    ghost view = { bin_in };

    ghost invariant = { IsBin };
}

impl Bin {
    ghost use Rattle.pool_law.specs.declared.note.Did.{Did};
    ghost use Rattle.handle_bin.specs.Bins.{Makes, IsHomeless, full_bin};

    /// The bin of a lane with all of its handles, in ascending order of place.
    /// All memory is taken here.
    #[tactic(auto, using(crate::proofs::BinLaws::full_is_ready))]
    pub fn new(alloc: Global, lane: u32, handles: u32) -> Result<Bin, AllocError>
        requires lane { lane < 16 }
        requires handles { (1 ≤ handles) × (handles ≤ 4096) }
        ensures { IfOk result (λ bin. bin ≡ full_bin lane handles) }
    {
        let mut ready = HeapCircularBuffer::with_capacity(alloc, handles as usize)?;
        match fill(alloc, lane, handles, &mut ready) {
            Ok(()) => Ok(Bin {
                lane,
                handles,
                ready,
            }),
            Err(error) => {
                end_all(ready);
                Err(error)
            }
        }
    }

    /// Takes the front handle. None comes exactly where the bin is empty.
    #[tactic(auto, using(crate::proofs::BinLaws::rest_is_ready))]
    pub fn pop(&mut self) -> Option<Handle>
        ensures some { IfSome result (λ h. self.old.ready ≡ h ∷ self.new.ready) }
        ensures handle { IfSome result (λ h. Makes self.old (Did.Handle h.place) self.new) }
        ensures own { IfSome result (λ h. IsTrue (is_of self.old.lane self.old.handles h)) }
        ensures some_handle { 0 < self.old.handles }
        ensures none { IfNone result (self.new ≡ self.old) }
        ensures no_handle { IfNone result (Makes self.old Did.NoHandle self.new) }
    {
        self.ready.pop_front()
    }

    /// Puts a handle of this bin at the back.
    #[tactic(auto, using(crate::proofs::BinLaws::has_room))]
    pub fn put(&mut self, handle: Handle)
        requires { IsHomeless self.old handle }
        ensures ready { self.new.ready ≡ self.old.ready ++ handle ∷ [] }
        ensures home { Makes self.old (Did.Home handle.place) self.new }
    {
        let placed = self.ready.try_push_back(handle);
        let Ok(()) = placed else { unreachable!() };
    }

    /// Ends a bin, and the handles that are in it.
    pub fn leave(self) {
        let Bin {
            lane: _,
            handles: _,
            ready,
        } = self;
        end_all(ready);
    }
}

// Puts the handles of a lane into an empty queue.
#[tactic(auto, using(crate::proofs::BinLaws::one_more, crate::proofs::BinLaws::how_many))]
fn fill(
    alloc: Global,
    lane: u32,
    handles: u32,
    ready: &mut HeapCircularBuffer<Handle>,
) -> Result<(), AllocError>
    requires lane { lane < 16 }
    requires handles { handles ≤ 4096 }
    requires empty { ready.old ≡ buffer [] handles }
    ensures ok { OnOk result (ready.new ≡ buffer (handles_below lane handles handles) handles) }
{
    for index in 0..handles {
        let handle = Handle::new(alloc, lane, lane * handles + index)?;
        let placed = ready.try_push_back(handle);
        let Ok(()) = placed else { unreachable!() };
    }
    Ok(())
}

// Ends a queue, and the handles that are in it.
fn end_all(mut ready: HeapCircularBuffer<Handle>) {
    while let Some(handle) = ready.pop_front() {
        handle.leave();
    }
    ready.destroy_empty();
}
