//! The blocks of each lane, and the trace.
ghost use Rattle.std.specs.Prelude.{◌≡◌, ◌<◌, ◌≤◌, ◌^◌, ◌*◌, All, IfOk, length};
ghost use Rattle.trace_make.specs.Accepted.{IsAccepted};
ghost use Rattle.trace_make.specs.Draws.{state_after};
ghost use Rattle.trace_make.specs.Generated.{blocks_in, drawn_block, generated, joined};

use crate::block::{BLOCK_LEN, RingLane, block};
use crate::draws::Draws;
use pool_law::{CommandList, CommandLists, Trace};
use std::alloc::{AllocError, Global};

/// The least size of a buffer.
const LEAST_SIZE: u64 = 16;

/// A buffer has one of so many sizes.
const SIZE_COUNT: u64 = 1009;

/// A byte has one of so many values.
const BYTE_COUNT: u64 = 256;

/// The trace that is generated from a start number: a ring of so many lanes, each with as many
/// blocks of eight commands as these commands are enough for. In a block a lane makes a buffer and
/// hands it to the next lane; then it takes the buffer that the lane before made, and releases it.
///
/// The same numbers always give the same trace, and a run accepts it. Names are numbered as if the
/// trace had been read. An error is want of memory.
pub fn make(alloc: Global, start: u64, lanes: u32, commands: u32) -> Result<Trace, AllocError>
    requires lanes_least { 1 ≤ lanes }
    requires lanes_most { lanes ≤ 16 }
    requires commands_least { 8 * lanes ≤ commands }
    requires commands_most { commands ≤ 65536 }
    ensures trace { IfOk result (λ trace. trace.lanes ≡ generated start lanes commands) }

    // What a run asks of a trace, and its summary of the lanes.
    ensures accepted { IfOk result (λ trace. IsAccepted trace.lanes) }
    ensures lanes { IfOk result (λ trace. length trace.lanes ≡ lanes) }
    ensures blocks { IfOk result (λ trace.
        All (λ of_lane. length of_lane ≡ 8 * blocks_in lanes commands) trace.lanes) }
{
    let blocks = commands / (BLOCK_LEN * lanes);
    let mut draws = Draws::from_start(start);
    let mut made = Vec::with_capacity(alloc, lanes as usize)?;
    for lane in 0..lanes {
        let of_lane = commands_of(alloc, RingLane { lanes, lane }, blocks, &mut draws)?;
        made.push(of_lane)?;
    }
    Ok(Trace {
        lanes: CommandLists::of(made),
    })
}

/// The commands of a lane of so many blocks.
fn commands_of(
    alloc: Global,
    at: RingLane,
    blocks: u32,
    draws: &mut Draws,
) -> Result<CommandList, AllocError>
    requires { blocks ≤ 2 ^ 13 }
    ensures commands { IfOk result (λ commands.
        commands ≡ joined (drawn_block at.lanes at.lane draws.old) blocks) }
    ensures drawn { IfOk result (λ commands. draws.new ≡ state_after (2 * blocks) draws.old) }
{
    let mut commands = Vec::with_capacity(alloc, (BLOCK_LEN * blocks) as usize)?;
    for number in 0..blocks {
        let size = (LEAST_SIZE + draws.draw() % SIZE_COUNT) as u32;
        let byte = (draws.draw() % BYTE_COUNT) as u8;
        let mut made = block(alloc, at, number, size, byte)?;
        commands.append(&mut made)?;
    }
    Ok(CommandList::of(commands))
}
