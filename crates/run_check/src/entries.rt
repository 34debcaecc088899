//! What histories tell of the notes of lanes.

ghost use Rattle.std.specs.Prelude.{◌≡◌, ◌-◌, ℕ, length, map, slice_get, unwrap_or, IfOk};
ghost use Rattle.pool_law.specs.declared.run.Shape.{Shape};
ghost use Rattle.pool_law.specs.Logs.{Logs, of_lane, entry_of};
ghost use Rattle.lane_reader.specs.Reading.{untold, entry, entries_in};
ghost use Rattle.run_check.specs.ByObject.{notes_in};
ghost use Rattle.run_check.specs.Storing.{AreHistories};
ghost use Rattle.run_check.specs.Entering.{IsNotedIn, AreTold};

use crate::histories::Histories;
use object_steps::PlaceTold;
use pool_law::{LaneLog, Note, Object};
use std::alloc::{AllocError, Global};

// What is told of the note with this number.
fn told_of(told: &[PlaceTold], number: u64) -> PlaceTold
    ensures { result ≡ unwrap_or (slice_get told.now (number - 1)) untold }
{
    let at = number.saturating_sub(1) as usize;
    if at < told.len() {
        told[at]
    } else {
        PlaceTold {
            root: None,
            region: None,
        }
    }
}

// What is told of a note in the logs.
fn told_at(histories: &Histories, note: &Note) -> PlaceTold
    ensures { (shape : Shape) → (logs : Logs) → AreHistories shape logs histories.now
        → IsNotedIn logs note.now → entry note.now result ≡ entry_of logs note.now }
{
    let untold = PlaceTold {
        root: None,
        region: None,
    };
    match note {
        Note::At {
            object,
            number,
            did: _,
        } => match object {
            Object::Root(place) => told_of(histories.told(*place), *number),
            _ => untold,
        },
        _ => untold,
    }
}

/// What is told of the notes of a lane.
pub fn told_of_lane(
    alloc: Global,
    histories: &Histories,
    notes: &[Note],
) -> Result<Vec<PlaceTold>, AllocError>
    ensures { (shape : Shape) → (logs : Logs) → (lane : ℕ) → AreHistories shape logs histories.now
        → notes.now ≡ of_lane logs lane
        → IfOk result (λ told. (entries_in notes.now told.items ≡ map (entry_of logs) notes.now)
        × (length told.items ≡ length notes.now)) }
{
    let mut told = Vec::new(alloc);
    for note in notes {
        told.push(told_at(histories, note))?;
    }
    Ok(told)
}

/// What is told of the notes of each lane.
pub fn told_of_lanes(
    alloc: Global,
    histories: &Histories,
    logs: &[LaneLog],
) -> Result<Vec<Vec<PlaceTold>>, AllocError>
    ensures { (shape : Shape) → AreHistories shape (notes_in logs.now) histories.now
        → IfOk result (λ told. AreTold (notes_in logs.now) told.items logs.now) }
{
    let mut told = Vec::new(alloc);
    for log in logs {
        let lane = told_of_lane(alloc, histories, log.notes.items())?;
        told.push(lane)?;
    }
    Ok(told)
}
