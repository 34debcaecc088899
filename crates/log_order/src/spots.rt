//! Places of notes.

ghost use Rattle.std.specs.Prelude.{◌≡◌, ◌+◌, ◌^◌, ◌<◌, None, slice_get, IfSome, MatchOption};
ghost use Rattle.log_order.specs.Spots.{notes_in};
ghost use Rattle.pool_law.specs.Lives.{StandsAt};
ghost use Rattle.pool_law.specs.Logs.{of_lane};

use pool_law::{LaneLog, Note};

/// The place of a note in the logs of a run.
#[derive(Clone, Copy, PartialEq, Eq, Debug, Drop)]
pub struct Spot {
    /// The lane.
    pub lane: usize,
    /// How many notes stand before it in the lane's log.
    pub at: usize,
}

/// The note at a place, if there is one.
pub(crate) fn note_at<'a>(logs: &'a [LaneLog], spot: &Spot) -> Option<&'a Note>
    ensures stands { MatchOption result
        (slice_get (of_lane (notes_in logs.now) spot.now.lane) spot.now.at ≡ None)
        (λ note. StandsAt (notes_in logs.now) spot.now.lane spot.now.at note.now) }
    // The number of notes up to it fits.
    ensures few { IfSome result (λ note. spot.now.at + 1 < 2 ^ 64) }
{
    if spot.lane >= logs.len() {
        return None;
    }
    let notes = logs[spot.lane].notes.items();
    if spot.at >= notes.len() {
        return None;
    }
    Some(&notes[spot.at])
}
