//! What the law asks of the log of each lane.

ghost use Rattle.std.specs.Prelude.{◌≡◌, ◌<◌, ◌≤◌, ◌^◌, ℕ, length, IsTrue, IfOk, MatchOption};
ghost use Rattle.std.specs.List.{AllZip, list_all};
ghost use Rattle.pool_law.specs.declared.id.RootId.{RootId};
ghost use Rattle.pool_law.specs.Limits.{geometry_of};
ghost use Rattle.pool_law.specs.Logs.{of_lane, note_stands, entries_of};
ghost use Rattle.run_check.specs.Placing.{BreaksFirst, IsAnswered, IsAnsweredTo};
ghost use Rattle.pool_law.specs.Busy.{BusyHolds};
ghost use Rattle.pool_law.specs.Counts.{CountsHold, count_in, count_over, is_birth, names_root};
ghost use Rattle.pool_law.specs.Legal.{AreCommands, LooksHold, others_retains};
ghost use Rattle.lane_reader.specs.Reading.{entries};
ghost use Rattle.run_check.specs.ByObject.{notes_in};
ghost use Rattle.run_check.specs.Storing.{history_in};
ghost use Rattle.run_check.specs.Tallying.{IsTally};
ghost use Rattle.run_check.specs.Entering.{AreTold};

use crate::breach::NoteSpot;
use crate::busy::mismarked_at;
use crate::counting::{miscounted_at, mislooked_at};
use crate::histories::Histories;
use crate::stands::astray_at;
use crate::tally::Tally;
use crate::totals::unborn_at;
use lane_reader::{Log, first_unlike};
use object_steps::{PlaceTold, Sizes};
use pool_law::{CommandList, LaneLog, Shape};
use std::alloc::{AllocError, Global};

/// The log of a lane, with what is told of its notes.
pub(crate) fn log_at<'a>(logs: &'a [LaneLog], told: &'a [Vec<PlaceTold>], lane: usize) -> Log<'a>
    requires told { AreTold (notes_in logs.now) told.now logs.now }
    requires there { lane < length logs.now }
    ensures entries { entries result ≡ of_lane (entries_of (notes_in logs.now)) lane }
    ensures as_many { length result.told.now ≡ length result.notes.now }
{
    Log {
        notes: logs[lane].notes.items(),
        told: &told[lane],
    }
}

// The note of a lane at a place.
fn spot(lane: usize, at: usize) -> NoteSpot
    requires { lane ≤ 2 ^ 16 }
    ensures { result ≡ record { lane = lane; at = at } }
{
    NoteSpot {
        lane: lane as u32,
        at,
    }
}

/// The first note that its lane may not make, if there is one.
pub fn first_astray(shape: &Shape, logs: &[LaneLog]) -> Option<NoteSpot>
    requires arenas { 1 ≤ shape.now.arenas }
    requires few { length logs.now ≤ 2 ^ 16 }
    ensures { MatchOption result
        ((lane : ℕ)
        → IsTrue (list_all (note_stands shape.now lane) (of_lane (notes_in logs.now) lane)))
        (BreaksFirst (λ lane ns. IsTrue (list_all (note_stands shape.now lane) ns))
        (notes_in logs.now)) }
{
    for lane in 0..logs.len() {
        if let Some(at) = astray_at(shape, lane as u32, logs[lane].notes.items()) {
            return Some(spot(lane, at));
        }
    }
    None
}

/// The first note with which the busy marks of its lane are not right, if there is one.
pub fn first_mismarked(
    alloc: Global,
    histories: &Histories,
    logs: &[LaneLog],
) -> Result<Option<NoteSpot>, AllocError>
    requires few { length logs.now ≤ 2 ^ 16 }
    ensures { IfOk result (λ found. MatchOption found
        ((lane : ℕ) → BusyHolds lane (history_in histories.now) (of_lane (notes_in logs.now) lane))
        (BreaksFirst (λ lane ns. BusyHolds lane (history_in histories.now) ns)
        (notes_in logs.now))) }
{
    for lane in 0..logs.len() {
        if let Some(at) = mismarked_at(alloc, histories, lane, logs[lane].notes.items())? {
            return Ok(Some(spot(lane, at)));
        }
    }
    Ok(None)
}

/// The first note by which a lane uses a root that it doesn't count, or ends one that it still counts, if there is
/// one.
pub fn first_miscounted(
    alloc: Global,
    logs: &[LaneLog],
    told: &[Vec<PlaceTold>],
) -> Result<Option<NoteSpot>, AllocError>
    requires few { length logs.now ≤ 2 ^ 16 }
    requires told { AreTold (notes_in logs.now) told.now logs.now }
    ensures { IfOk result (λ found. MatchOption found
        ((lane : ℕ) → (root : RootId)
        → CountsHold root 0 (of_lane (entries_of (notes_in logs.now)) lane))
        (BreaksFirst (λ lane es. (root : RootId) → CountsHold root 0 es)
        (entries_of (notes_in logs.now)))) }
{
    for lane in 0..logs.len() {
        if let Some(at) = miscounted_at(alloc, &log_at(logs, told, lane))? {
            return Ok(Some(spot(lane, at)));
        }
    }
    Ok(None)
}

/// The first note that names a root which was never born, if there is one.
pub fn first_unborn(tallies: &[Tally], logs: &[LaneLog]) -> Option<NoteSpot>
    requires few { length logs.now ≤ 2 ^ 16 }
    requires tallies { AllZip IsTally tallies.now logs.now }
    ensures { MatchOption result
        ((root : RootId) → 0 < count_over (names_root root) (entries_of (notes_in logs.now))
        → 0 < count_over (is_birth root) (entries_of (notes_in logs.now)))
        (BreaksFirst (λ lane es. (root : RootId) → 0 < count_in (names_root root) es
        → 0 < count_over (is_birth root) (entries_of (notes_in logs.now)))
        (entries_of (notes_in logs.now))) }
{
    for lane in 0..logs.len() {
        if let Some(at) = unborn_at(tallies, logs[lane].notes.items()) {
            return Some(spot(lane, at));
        }
    }
    None
}

/// The first note by which a lane looks up a count which can't be, if there is one.
pub fn first_mislooked(
    alloc: Global,
    tallies: &[Tally],
    logs: &[LaneLog],
    told: &[Vec<PlaceTold>],
) -> Result<Option<NoteSpot>, AllocError>
    requires few { length logs.now ≤ 2 ^ 16 }
    requires told { AreTold (notes_in logs.now) told.now logs.now }
    requires tallies { AllZip IsTally tallies.now logs.now }
    ensures { IfOk result (λ found. MatchOption found
        ((lane : ℕ) → (root : RootId)
        → LooksHold root (others_retains root lane 0 (entries_of (notes_in logs.now))) 0 0 0
        (of_lane (entries_of (notes_in logs.now)) lane))
        (BreaksFirst (λ lane es. (root : RootId)
        → LooksHold root (others_retains root lane 0 (entries_of (notes_in logs.now))) 0 0 0 es)
        (entries_of (notes_in logs.now)))) }
{
    for lane in 0..logs.len() {
        if let Some(at) = mislooked_at(alloc, tallies, lane, &log_at(logs, told, lane))? {
            return Ok(Some(spot(lane, at)));
        }
    }
    Ok(None)
}

/// The first lane whose replies and notes are not those of its commands, if there is one, and the first of these
/// commands of which they are not.
pub fn first_misanswered(
    alloc: Global,
    shape: &Shape,
    sizes: &Sizes,
    lanes: &[CommandList],
    logs: &[LaneLog],
    told: &[Vec<PlaceTold>],
) -> Result<Option<(u32, usize)>, AllocError>
    requires arenas { 1 ≤ shape.now.arenas }
    requires handles { 1 ≤ shape.now.handles }
    requires few { length logs.now ≤ 2 ^ 16 }
    requires as_many { length lanes.now ≡ length logs.now }
    requires sizes { sizes.now ≡ geometry_of shape.now }
    requires commands { (lane : ℕ) → AreCommands shape.now (of_lane lanes.now lane) }
    requires told { AreTold (notes_in logs.now) told.now logs.now }
    ensures { IfOk result (λ found. MatchOption found
        ((lane : ℕ) → lane < length logs.now → IsAnswered shape.now lanes.now logs.now lane)
        (λ f. IsAnsweredTo shape.now lanes.now logs.now f.0 f.1)) }
{
    for lane in 0..logs.len() {
        let log = log_at(logs, told, lane);
        let commands = lanes[lane].items();
        let replies = logs[lane].replies.items();
        let classes = sizes.classes();
        let found = first_unlike(alloc, shape, classes, lane as u32, commands, replies, &log)?;
        if let Some(command) = found {
            return Ok(Some((lane as u32, command)));
        }
    }
    Ok(None)
}
