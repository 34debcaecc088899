//! The limits of a trace.
ghost use Rattle.std.specs.Prelude.{◌≡◌, ◌+◌, ◌-◌, ◌<◌, ◌≤◌, ◌^◌, IfOk, length, min};
ghost use Rattle.std.specs.List.{sum_by};
ghost use Rattle.pool_law.specs.Stuck.{command_count};
ghost use Rattle.pool_law.specs.Traces.{bytes_asked_by, bytes_asked, command_limit, lane_limit};
ghost use Rattle.trace_text.specs.Reading.{GivesLanes, limited};

use crate::{Limit, TraceNo};
use pool_law::{Command, CommandList, Trace};

/// The most lanes.
pub const LANE_LIMIT: usize = 16;

/// The most commands of all lanes together.
pub const COMMAND_LIMIT: usize = 65_536;

/// The most bytes that `get`, `tryget` and `read` ask to see, together.
pub const BYTE_LIMIT: u64 = 67_108_864;

/// The trace, where it passes no limit.
#[tactic(auto, unfolding(crate::specs::Reading::limited))]
pub fn limited(trace: Trace) -> Result<Trace, TraceNo>
    ensures trace { GivesLanes result (limited trace.lanes) }
    ensures lanes { IfOk result (λ trace. length trace.lanes ≤ lane_limit) }
    ensures commands { IfOk result (λ trace. command_count trace.lanes ≤ command_limit) }
{
    let lanes = trace.lanes.items();
    if lanes.len() > LANE_LIMIT {
        return Err(TraceNo::Limit(Limit::Lanes));
    }
    if command_total(lanes) > COMMAND_LIMIT {
        return Err(TraceNo::Limit(Limit::Commands));
    }
    if byte_total(lanes) > BYTE_LIMIT {
        return Err(TraceNo::Limit(Limit::Bytes));
    }
    Ok(trace)
}

/// The number of commands, or the greatest number where there are more.
pub fn command_total(lanes: &[CommandList]) -> usize
    ensures { result ≡ min (command_count lanes.now) (2 ^ 64 - 1) }
{
    let mut total = 0usize;
    for lane in lanes {
        total = total.saturating_add(lane.items().len());
    }
    total
}

/// The bytes asked, or the greatest number where they are more.
fn byte_total(lanes: &[CommandList]) -> u64
    ensures { result ≡ min (bytes_asked lanes.now) (2 ^ 64 - 1) }
{
    let mut total = 0u64;
    for lane in lanes {
        total = total.saturating_add(bytes_of_lane(lane.items()));
    }
    total
}

fn bytes_of_lane(commands: &[Command]) -> u64
    ensures { result ≡ min (sum_by bytes_asked_by commands.now) (2 ^ 64 - 1) }
{
    let mut total = 0u64;
    for command in commands {
        total = total.saturating_add(bytes_of_command(command));
    }
    total
}

fn bytes_of_command(command: &Command) -> u64
    ensures { result ≡ bytes_asked_by command.now }
{
    match command {
        Command::Get { len, .. } | Command::Read { len, .. } => u64::from(*len),
        _ => 0,
    }
}
