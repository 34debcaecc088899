//! The notes of a lane at an object.

ghost use Rattle.std.specs.Prelude.{◌<◌, ◌↔◌, length, IsTrue, MatchOption};
ghost use Rattle.run_check.specs.Gathering.{notes_data, left_of, HasNext, IsStuck};

use pool_law::Did;

/// A note at an object: its number there, and what was done.
#[derive(Clone, Copy, Drop)]
pub struct HistoryNote<'a> {
    pub number: u64,
    pub did: &'a Did,
}

/// The first lane whose next note has this number.
pub fn lane_with(left: &[&[HistoryNote]], number: u64) -> Option<usize>
    ensures { MatchOption result (IsStuck number (left_of left.now))
        (λ lane. HasNext number (left_of left.now lane) × (lane < length left.now)) }
{
    for lane in 0..left.len() {
        if has_next(left[lane], number) {
            return Some(lane);
        }
    }
    None
}

// Whether the first of these notes has this number.
fn has_next(notes: &[HistoryNote], number: u64) -> bool
    ensures { IsTrue result ↔ HasNext number (notes_data notes.now) }
{
    if notes.is_empty() {
        return false;
    }
    notes[0].number == number
}
