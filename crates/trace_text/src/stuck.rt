//! Which traces get stuck: the lanes are played until nothing moves.
ghost use Rattle.std.specs.Prelude.{◌≡◌, Some, ◌+◌, ◌<◌, ◌≤◌, IfOk, length, map, replicate, slice_index, if◌then◌else◌};
ghost use Rattle.pool_law.specs.Stuck.{command_count, first_waiting, how_many, may_pass, moved, next_of, passed, resting, stuck_at};
ghost use Rattle.trace_text.specs.declared.counts.Side.TheVariants.{Receives, Sends};
ghost use Rattle.trace_text.specs.Counts.{AreTables, meets};
ghost use Rattle.pool_law.specs.Traces.{command_limit, lane_limit};

use crate::counts::{Side, tables};
use crate::limits::command_total;
use pool_law::{Command, CommandList};
use std::alloc::{AllocError, Global};

/// The lane and the line at which a trace is stuck.
pub fn waiting_place(alloc: Global, lanes: &[CommandList]) -> Result<Option<(u32, u32)>, AllocError>
    requires few_lanes { length lanes.now ≤ lane_limit }
    requires few { command_count lanes.now ≤ command_limit }
    ensures { IfOk result (λ place. place ≡ stuck_at lanes.now) }
{
    let at = rest(alloc, lanes)?;
    Ok(first_place(lanes, &at))
}

/// The least lane that has not passed its last command, with the line at which it waits.
fn first_place(lanes: &[CommandList], at: &[usize]) -> Option<(u32, u32)>
    requires size { length at.now ≡ length lanes.now }
    requires few_lanes { length lanes.now ≤ lane_limit }
    requires few { command_count lanes.now ≤ command_limit }
    ensures { result ≡ first_waiting 0 lanes.now at.now }
{
    for lane in 0..lanes.len() {
        if at[lane] < lanes[lane].items().len() {
            return Some((lane as u32, at[lane] as u32));
        }
    }
    None
}

/// The lines at which the lanes are when nothing moves.
fn rest(alloc: Global, lanes: &[CommandList]) -> Result<Vec<usize>, AllocError>
    requires { command_count lanes.now ≤ command_limit }
    ensures lines { IfOk result (λ at. at.items ≡ resting lanes.now) }
    ensures size { IfOk result (λ at. length at.items ≡ length lanes.now) }
{
    let hand_overs = HandOvers {
        lanes,
        sends: tables(alloc, Side::Sends, lanes)?,
        receives: tables(alloc, Side::Receives, lanes)?,
    };
    let mut at = vec![in alloc; 0usize; lanes.len()]?;
    for _ in 0..command_total(lanes) {
        at = hand_overs.next_lines(alloc, &at)?;
    }
    Ok(at)
}

/// Lanes, with the number of their sends and of their receives before each line.
#[derive(Drop)]
struct HandOvers<'a> {
    lanes: &'a [CommandList],
    sends: Vec<Vec<Vec<usize>>>,
    receives: Vec<Vec<Vec<usize>>>,
    ghost sends_counted: { AreTables Sends lanes.now sends.items },
    ghost receives_counted: { AreTables Receives lanes.now receives.items },
}

impl HandOvers<'_> {
    /// Each lane passes its next command, if it may.
    fn next_lines(&self, alloc: Global, at: &[usize]) -> Result<Vec<usize>, AllocError>
        requires { length at.now ≡ length self.now.lanes.now }
        ensures lines { IfOk result
            (λ next. next.items ≡ moved self.now.lanes.now at.now 0 at.now) }
        ensures size { IfOk result (λ next. length next.items ≡ length self.now.lanes.now) }
    {
        let mut next = Vec::new(alloc);
        for lane in 0..at.len() {
            next.push(self.next_line(at, lane))?;
        }
        Ok(next)
    }

    #[tactic(auto, using(crate::proofs::StuckSteps::commands_at))]
    fn next_line(&self, at: &[usize], lane: usize) -> usize
        requires lane { lane < length self.now.lanes.now }
        requires size { length at.now ≡ length self.now.lanes.now }
        ensures { result ≡ (if may_pass self.now.lanes.now at.now lane
            (next_of self.now.lanes.now at.now lane)
            then slice_index at.now lane + 1 else slice_index at.now lane) }
    {
        let here = at[lane];
        let commands = self.lanes[lane].items();
        if commands.len() <= here {
            return here;
        }
        if self.may_pass(at, lane, &commands[here]) {
            here + 1
        } else {
            here
        }
    }

    /// Whether a lane may pass the command that is its next.
    #[tactic(auto, unfolding(crate::specs::Counts::meets))]
    fn may_pass(&self, at: &[usize], lane: usize, command: &Command) -> bool
        requires lane { lane < length self.now.lanes.now }
        requires size { length at.now ≡ length self.now.lanes.now }
        ensures { result ≡ may_pass self.now.lanes.now at.now lane (Some command.now) }
    {
        match command {
            Command::Recv { lane: from, .. } => {
                let from = *from as usize;
                from < self.lanes.len() && self.received(at, lane, from) < self.sent(at, from, lane)
            }
            _ => true,
        }
    }

    /// How many of the commands that a lane has passed send to the other.
    fn sent(&self, at: &[usize], lane: usize, other: usize) -> usize
        requires lane { lane < length self.now.lanes.now }
        requires other { other < length self.now.lanes.now }
        requires size { length at.now ≡ length self.now.lanes.now }
        ensures { result
            ≡ how_many (meets Side.Sends other) (passed self.now.lanes.now at.now lane) }
    {
        let here = at[lane].min(self.lanes[lane].items().len());
        let rows = &self.sends[lane];
        let counts = &rows[other];
        counts[here]
    }

    /// How many of the commands that a lane has passed receive from the other.
    fn received(&self, at: &[usize], lane: usize, other: usize) -> usize
        requires lane { lane < length self.now.lanes.now }
        requires other { other < length self.now.lanes.now }
        requires size { length at.now ≡ length self.now.lanes.now }
        ensures { result
            ≡ how_many (meets Side.Receives other) (passed self.now.lanes.now at.now lane) }
    {
        let here = at[lane].min(self.lanes[lane].items().len());
        let rows = &self.receives[lane];
        let counts = &rows[other];
        counts[here]
    }
}
