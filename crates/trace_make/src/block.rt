//! The commands of one block.
ghost use Rattle.std.specs.Prelude.{◌≡◌, ◌<◌, ◌≤◌, ◌^◌, false, IfOk};
ghost use Rattle.trace_make.specs.Generated.{block_of, lane_after, lane_before};

use pool_law::{Bytes, Command};
use std::alloc::{AllocError, Global};

/// The commands of a block.
pub const BLOCK_LEN: u32 = 8;

/// So many bytes are written at the front of a block's buffer, and so many read.
const FRONT: u32 = 4;

/// The range of the buffer's slice.
const SLICE_AT: u32 = 2;

const SLICE_LEN: u32 = 8;

/// A lane of a ring of so many.
#[derive(Clone, Copy)]
pub struct RingLane {
    pub lanes: u32,
    pub lane: u32,
    ghost within: { lane < lanes },
    ghost few: { lanes ≤ 16 },
}

impl RingLane {
    /// The lane that it sends to.
    fn after(self) -> u32
        ensures { result ≡ lane_after self.lanes self.lane }
    {
        (self.lane + 1) % self.lanes
    }

    /// The lane that it receives from.
    fn before(self) -> u32
        ensures { result ≡ lane_before self.lanes self.lane }
    {
        (self.lane + self.lanes - 1) % self.lanes
    }
}

/// The commands of the block with this number.
pub fn block(
    alloc: Global,
    at: RingLane,
    number: u32,
    size: u32,
    byte: u8,
) -> Result<Vec<Command>, AllocError>
    requires { number < 2 ^ 16 }
    ensures { IfOk result (λ commands.
        commands.items ≡ block_of at.lanes at.lane number size byte) }
{
    let buffer = 3 * number;
    let slice = buffer + 1;
    let received = buffer + 2;
    let bytes = Bytes::of(vec![in alloc; byte; FRONT as usize]?);
    let commands = vec![in alloc;
        Command::Alloc { name: buffer, size },
        Command::Set {
            name: buffer,
            at: 0,
            bytes,
            tries: false,
        },
        Command::Slice {
            fresh: slice,
            name: buffer,
            at: SLICE_AT,
            len: SLICE_LEN,
            retained: false,
        },
        get_front(slice),
        Command::Send {
            name: buffer,
            lane: at.after(),
        },
        Command::Recv {
            fresh: received,
            lane: at.before(),
        },
        get_front(received),
        Command::Release { name: received },
    ]?;
    Ok(commands)
}

/// Reads the front of what has this name.
fn get_front(name: u32) -> Command
    ensures { result ≡ Command.Get name 0 4 false }
{
    Command::Get {
        name,
        at: 0,
        len: FRONT,
        tries: false,
    }
}
