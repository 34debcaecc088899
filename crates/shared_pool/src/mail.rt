//! The mail from one lane to another.

ghost use Rattle.std.specs.Prelude.{◌≡◌, ◌≤◌, IfOk};
ghost use Rattle.crossbeam_queue.specs.Passes.{view, IsPassOf, ruled_capacity};
ghost use Rattle.shared_pool.specs.MailEnds.{no_ends};

use crate::queue::{MailPass, Queue, new_queue};
use std::alloc::{AllocError, Global};

/// The mail from one lane to another: parcels that were posted and not fetched yet, first in, first
/// out.
#[derive(Drop)]
pub struct Mail {
    pub(crate) queue: Queue,
    /// How many parcels are posted there in all. Where there is no room, the pool's `post` and
    /// `fetch` aren't used between the two lanes, and `send` and `receive` may be.
    pub(crate) room: u32,
    ghost capacity: { room ≤ ruled_capacity queue },
}

impl Mail {
    // An empty mail with this room, and its first pass. All memory is taken here.
    pub(crate) fn new(alloc: Global, room: u32) -> Result<(Mail, MailPass), AllocError>
        ensures { IfOk result (λ r. (r.0.room ≡ room)
            × IsPassOf r.0.queue r.1 × (view r.1 ≡ no_ends)) }
    {
        let (queue, pass) = new_queue(alloc, room.max(1) as usize)?;
        Ok((Mail { queue, room }, pass))
    }
}
