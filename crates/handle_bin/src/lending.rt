//! The tracker of a handle, lent.
//! Its clause names the row of `Handle`, which the file that declares the struct can't import.

ghost use Rattle.std.specs.Prelude.{◌≡◌};
ghost use Rattle.std.specs.Borrow.{sem};
ghost use Rattle.handle_bin.specs.Lending.{LendsTracker};

use crate::handle::Handle;
use leak_records::Tracker;

impl Handle {
    /// Lends the tracker. When the borrow ends, the handle has what was written through it.
    pub fn tracker(&mut self) -> &mut Tracker
        ensures* writes_back { sem 𝓛 (LendsTracker self.entry result) }
        ensures value { result.now ≡ self.old.tracker }
    {
        &mut self.tracker
    }
}
