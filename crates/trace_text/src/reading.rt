//! From a text to a trace.
ghost use Rattle.std.specs.Prelude.{◌≡◌, ◌<◌, ◌≤◌, ◌^◌, [], All, IfOk, length, map};
ghost use Rattle.serde_json.specs.View.{view};
ghost use Rattle.pool_law.specs.Stuck.{command_count};
ghost use Rattle.trace_text.specs.Lane.{HasFewRows, lane_in};
ghost use Rattle.trace_text.specs.Steps.{TakesLane};
ghost use Rattle.pool_law.specs.Traces.{AreLanes, command_limit, lane_limit};
ghost use Rattle.trace_text.specs.Options.{AreOptions};
ghost use Rattle.trace_text.specs.Reading.{Gives, GivesAs, GivesLanes, IsShort, accepted, lanes_after, reading_of, trace_in, unstuck, value_of};

use crate::items::array_of;
use crate::lane::lane_of;
use crate::limits::limited;
use crate::options::parts_of;
use crate::stuck::waiting_place;
use crate::{Limit, Read, TraceNo};
use pool_law::{CommandList, CommandLists, Trace};
use serde_json::Value;
use std::alloc::Global;

/// The longest text that is read, in bytes.
pub const TEXT_LIMIT: usize = 16_777_216;

/// The trace that a text is. `Memory` may stand in place of any other answer.
#[tactic(auto, unfolding(crate::specs::Reading::reading_of))]
pub fn read_trace(alloc: Global, text: &[u8]) -> Result<Read, TraceNo>
    ensures reading { Gives result (reading_of text.now) }

    // What a run needs of the lanes and the options.
    ensures lanes { IfOk result (λ read. AreLanes read.trace.lanes) }
    ensures some_lane { IfOk result (λ read. 1 ≤ length read.trace.lanes) }
    ensures few_lanes { IfOk result (λ read. length read.trace.lanes ≤ lane_limit) }
    ensures options { IfOk result (λ read. AreOptions read.options) }
{
    if text.len() > TEXT_LIMIT {
        return Err(TraceNo::Limit(Limit::Text));
    }
    let value = value_from(alloc, text)?;
    let (lanes, options) = parts_of(&value)?;
    let trace = accepted(alloc, lanes)?;
    Ok(Read { trace, options })
}

/// The trace of the lanes, where it passes no limit and no lane gets stuck.
#[tactic(auto, unfolding(crate::specs::Reading::accepted))]
fn accepted(alloc: Global, lanes: &Value) -> Result<Trace, TraceNo>
    requires { IsShort (view lanes.now) }
    ensures { GivesLanes result (accepted (view lanes.now)) }
{
    let trace = trace_from(alloc, lanes)?;
    let trace = limited(trace)?;
    unstuck(alloc, trace)
}

/// The trace, where no lane gets stuck.
#[tactic(auto, unfolding(crate::specs::Reading::unstuck))]
fn unstuck(alloc: Global, trace: Trace) -> Result<Trace, TraceNo>
    requires lanes { length trace.lanes ≤ lane_limit }
    requires commands { command_count trace.lanes ≤ command_limit }
    ensures { GivesLanes result (unstuck trace.lanes) }
{
    match waiting_place(alloc, trace.lanes.items()) {
        Ok(None) => Ok(trace),
        Ok(Some((lane, line))) => Err(TraceNo::Stuck { lane, line }),
        Err(_) => Err(TraceNo::Memory),
    }
}

/// The JSON value of a text. It is refused as `Syntax`, or for want of memory.
pub fn value_from(alloc: Global, text: &[u8]) -> Result<Value, TraceNo>
    ensures { GivesAs view result (value_of text.now) }
{
    match Value::from_slice(alloc, text) {
        Ok(value) => Ok(value),
        Err(no) => {
            if no.is_memory() {
                Err(TraceNo::Memory)
            } else {
                Err(TraceNo::Syntax)
            }
        }
    }
}

/// The trace of a JSON value, whatever the limits are.
#[tactic(auto, unfolding(crate::specs::Reading::trace_in))]
fn trace_from(alloc: Global, value: &Value) -> Result<Trace, TraceNo>
    requires { IsShort (view value.now) }
    ensures { GivesLanes result (trace_in (view value.now)) }
{
    match array_of(value) {
        Some(values) if !values.is_empty() => lanes_from(alloc, values),
        _ => Err(TraceNo::Shape { lane: 0, line: 0 }),
    }
}

fn lanes_from(alloc: Global, values: &[Value]) -> Result<Trace, TraceNo>
    requires lanes { length values.now < 2 ^ 32 }
    requires rows { All HasFewRows (map view values.now) }
    ensures { GivesLanes result (lanes_after (length values.now) [] (map view values.now)) }
{
    let mut lanes = Vec::new(alloc);
    for value in values {
        push_lane(alloc, values.len(), &mut lanes, value)?;
    }
    Ok(Trace {
        lanes: CommandLists::of(lanes),
    })
}

fn push_lane(
    alloc: Global,
    count: usize,
    lanes: &mut Vec<CommandList>,
    value: &Value,
) -> Result<(), TraceNo>
    requires number { length lanes.old.items < 2 ^ 32 }
    requires rows { HasFewRows (view value.now) }
    ensures { TakesLane result lanes.old.items lanes.new.items
        (lane_in count (length lanes.old.items) (view value.now)) }
{
    let lane = lane_of(alloc, count, lanes.len() as u32, value)?;
    match lanes.push(lane) {
        Ok(()) => Ok(()),
        Err(_) => Err(TraceNo::Memory),
    }
}
