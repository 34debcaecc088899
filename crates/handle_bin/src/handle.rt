//! A handle stands for one root place of its lane.

ghost use Rattle.std.specs.Prelude.{◌≡◌, IfOk};

use leak_records::Tracker;
use std::alloc::{AllocError, Global};
use std::marker::Model;

/// The right to one root place, with the tracker of the roots there (Netty: `Recycler.Handle`).
///
/// It must be spent: it goes back to the bin that made it. It is small to move, since its tracker
/// is behind a box.
pub struct Handle {
    lane: u32,
    place: u32,
    pub(crate) tracker: Box<Tracker>,
}

impl Model for Handle {
    ghost use Rattle.handle_bin.specs.Bins.{HandleValue};

    ghost Value = { HandleValue };

    ghost view = { λ h. record { lane = h.lane; place = h.place; tracker = h.tracker.value } };
}

impl Handle {
    ghost use Rattle.handle_bin.specs.Bins.{new_handle};

    /// The handle of a place, with a tracker of its own.
    pub(crate) fn new(alloc: Global, lane: u32, place: u32) -> Result<Handle, AllocError>
        ensures { IfOk result (λ handle. handle ≡ new_handle lane place) }
    {
        let tracker = Tracker::new(alloc)?;
        let tracker = Box::new(alloc, tracker)?;
        Ok(Handle {
            lane,
            place,
            tracker,
        })
    }

    /// The lane whose place it is.
    pub fn lane(&self) -> u32
        ensures { result ≡ self.now.lane }
    {
        self.lane
    }

    /// The place, by its number among all root places.
    pub fn place(&self) -> u32
        ensures { result ≡ self.now.place }
    {
        self.place
    }

    /// Ends a handle that no bin needs any more.
    pub fn leave(self) {
        let Handle {
            lane: _,
            place: _,
            tracker: _,
        } = self;
    }
}
