//! How many notes each command of each lane made.

ghost use Rattle.std.specs.Prelude.{◌≡◌, ◌<◌, ◌≤◌, ◌^◌, ◌↔◌, ℕ, List, Some, length, map, option_map, IsTrue, IfOk, IfSome};
ghost use Rattle.pool_law.specs.declared.run.Answered.{Answered};
ghost use Rattle.pool_law.specs.LaneLaw.{IsLaneLog, note_counts, replies_in};
ghost use Rattle.pool_law.specs.Legal.{AreCommands};
ghost use Rattle.pool_law.specs.Limits.{geometry_of};
ghost use Rattle.pool_law.specs.Logs.{of_lane, entries_of};
ghost use Rattle.run_check.specs.Cutting.{AreCuts, AreLaneLogs, counts_in, lists_in};
ghost use Rattle.run_check.specs.Entering.{AreTold};
ghost use Rattle.run_check.specs.ByObject.{notes_in};

use crate::entries::told_of_lanes;
use crate::fitting::all_are_commands;
use crate::histories::Histories;
use crate::lanes::log_at;
use lane_reader::cut;
use object_steps::{PlaceTold, Sizes};
use pool_law::{CommandList, LaneLog, Reply, Shape, is_shape};
use std::alloc::{AllocError, Global};

// Whether there are so many lists of commands, of replies and of notes as lanes.
fn are_as_many(shape: &Shape, lanes: usize, replies: usize, logs: usize) -> bool
    ensures { IsTrue result ↔ ((lanes ≡ shape.now.lanes) × (replies ≡ shape.now.lanes)
        × (logs ≡ shape.now.lanes)) }
{
    let count = shape.lanes as usize;
    lanes == count && replies == count && logs == count
}

// How many notes each command of each lane made, with what is told of the notes.
fn cuts_told(
    alloc: Global,
    shape: &Shape,
    sizes: &Sizes,
    lanes: &[CommandList],
    replies: &[Vec<Reply>],
    logs: &[LaneLog],
    told: &[Vec<PlaceTold>],
) -> Result<Option<Vec<Vec<usize>>>, AllocError>
    requires arenas { 1 ≤ shape.now.arenas }
    requires handles { 1 ≤ shape.now.handles }
    requires few { length logs.now ≤ 2 ^ 16 }
    requires asked { length lanes.now ≡ length logs.now }
    requires replied { length replies.now ≡ length logs.now }
    requires sizes { sizes.now ≡ geometry_of shape.now }
    requires commands { (lane : ℕ) → AreCommands shape.now (of_lane lanes.now lane) }
    requires told { AreTold (notes_in logs.now) told.now logs.now }
    ensures read { IfOk result (λ cuts. IfSome cuts (λ all. (lane : ℕ) → lane < length logs.now
        → AreCuts shape.now lanes.now (lists_in replies.now) (notes_in logs.now)
        (counts_in all.items) lane)) }
    ensures only { (answered : List (List Answered))
        → map replies_in answered ≡ lists_in replies.now
        → ((lane : ℕ) → lane < length logs.now
        → IsLaneLog shape.now lane (of_lane lanes.now lane) (of_lane answered lane)
        (of_lane (entries_of (notes_in logs.now)) lane))
        → IfOk result (λ cuts. option_map (λ all. counts_in all.items) cuts
        ≡ Some (map note_counts answered)) }
{
    let mut cuts = Vec::new(alloc);
    for lane in 0..logs.len() {
        let log = log_at(logs, told, lane);
        let commands = lanes[lane].items();
        let classes = sizes.classes();
        let counts = cut(
            alloc,
            shape,
            classes,
            lane as u32,
            commands,
            &replies[lane],
            &log,
        )?;
        if counts.len() != commands.len() {
            return Ok(None);
        }
        cuts.push(counts)?;
    }
    Ok(Some(cuts))
}

/// How many notes each command of each lane made, by the law, with these replies: those in the logs are not
/// looked at. None where the law does not read the notes of all commands so, and where nothing tells of
/// the notes: where the measures or the commands are no pool's, where there are not as many lists as lanes, or
/// where an object does not hold.
pub fn cuts_of(
    alloc: Global,
    shape: &Shape,
    lanes: &[CommandList],
    replies: &[Vec<Reply>],
    logs: &[LaneLog],
) -> Result<Option<Vec<Vec<usize>>>, AllocError>
    ensures read { IfOk result (λ cuts. IfSome cuts (λ all. (lane : ℕ) → lane < length logs.now
        → AreCuts shape.now lanes.now (lists_in replies.now) (notes_in logs.now)
        (counts_in all.items) lane)) }
    ensures only { (answered : List (List Answered))
        → map replies_in answered ≡ lists_in replies.now
        → AreLaneLogs shape.now lanes.now answered (notes_in logs.now)
        → IfOk result (λ cuts. option_map (λ all. counts_in all.items) cuts
        ≡ Some (map note_counts answered)) }
{
    if !is_shape(shape) {
        return Ok(None);
    }
    if !are_as_many(shape, lanes.len(), replies.len(), logs.len()) {
        return Ok(None);
    }
    if !all_are_commands(alloc, shape, lanes)? {
        return Ok(None);
    }
    let sizes = Sizes::new(alloc, shape.order, shape.page)?;
    let histories = match Histories::in_logs(alloc, shape, &sizes, logs)? {
        Ok(histories) => histories,
        Err(_) => return Ok(None),
    };
    let told = told_of_lanes(alloc, &histories, logs)?;
    cuts_told(alloc, shape, &sizes, lanes, replies, logs, &told)
}
