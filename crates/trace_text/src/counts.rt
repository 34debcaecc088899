//! How many of the first commands of each lane send to each lane, or receive from it.
ghost use Rattle.std.specs.Prelude.{◌≡◌, IfOk, length, if◌then◌else◌};
ghost use Rattle.trace_text.specs.Counts.{AreCounts, AreRows, AreTables, meets};

use pool_law::{Command, CommandList};
use std::alloc::{AllocError, Global};

/// The side of a hand-over that a lane takes.
#[derive(Clone, Copy)]
pub enum Side {
    Sends,
    Receives,
}

/// For each lane, each lane that it may meet and each line: the number before that line.
pub fn tables(
    alloc: Global,
    side: Side,
    lanes: &[CommandList],
) -> Result<Vec<Vec<Vec<usize>>>, AllocError>
    ensures { IfOk result (λ tables. AreTables side lanes.now tables.items) }
{
    let mut list = Vec::new(alloc);
    for lane in lanes {
        list.push(rows(alloc, side, lanes.len(), lane.items())?)?;
    }
    Ok(list)
}

fn rows(
    alloc: Global,
    side: Side,
    lanes: usize,
    commands: &[Command],
) -> Result<Vec<Vec<usize>>, AllocError>
    ensures { IfOk result (λ rows. AreRows side lanes commands.now rows.items) }
{
    let mut list = Vec::new(alloc);
    for lane in 0..lanes {
        list.push(counts(alloc, side, lane, commands)?)?;
    }
    Ok(list)
}

fn counts(
    alloc: Global,
    side: Side,
    lane: usize,
    commands: &[Command],
) -> Result<Vec<usize>, AllocError>
    ensures { IfOk result (λ counts. AreCounts (meets side lane) commands.now counts.items) }
{
    let mut list = Vec::new(alloc);
    list.push(0usize)?;
    let mut total = 0usize;
    for command in commands {
        total += one_if(is_met(side, lane, command));
        list.push(total)?;
    }
    Ok(list)
}

fn one_if(test: bool) -> usize
    ensures { result ≡ (if test then 1 else 0) }
{
    if test { 1 } else { 0 }
}

/// Whether a command takes this side of a hand-over with the lane.
#[tactic(auto, unfolding(crate::specs::Counts::meets))]
fn is_met(side: Side, lane: usize, command: &Command) -> bool
    ensures { result ≡ meets side lane command.now }
{
    match (side, command) {
        (Side::Sends, Command::Send { lane: to, .. }) => *to as usize == lane,
        (Side::Receives, Command::Recv { lane: from, .. }) => *from as usize == lane,
        _ => false,
    }
}
