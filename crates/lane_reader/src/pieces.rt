//! Pieces of a log.

ghost use Rattle.std.specs.Prelude.{◌≡◌, ◌-◌, ◌≤◌, [], length, take, drop, is_some};
ghost use Rattle.pool_law.specs.LaneStates.{new_lane, log_at};
ghost use Rattle.pool_law.specs.Readers.{Reader, read_all};
ghost use Rattle.lane_reader.specs.Reading.{entries, passes};

use crate::log::{At, Log};

impl<'a> Log<'a> {
    /// Its first notes, so many.
    pub(crate) fn first(&self, count: usize) -> Log<'a>
        requires { count ≤ length self.now.notes.now }
        ensures entries { entries result ≡ take count (entries self.now) }
        ensures count { length result.notes.now ≡ count }
    {
        Log {
            notes: &self.notes[..count],
            told: self.told,
        }
    }

    /// Its notes behind the first, so many.
    pub(crate) fn behind(&self, count: usize) -> Log<'a>
        requires { count ≤ length self.now.notes.now }
        ensures entries { entries result ≡ drop count (entries self.now) }
        ensures count { length result.notes.now ≡ length self.now.notes.now - count }
    {
        Log {
            notes: &self.notes[count..],
            told: &self.told[count.min(self.told.len())..],
        }
    }

    /// Whether a reading, which came to this place, took all of the notes.
    pub(crate) fn is_all_read(&self, behind: Option<At>) -> bool
        ensures { (r : Reader (Unit {0}))
            → r (log_at new_lane (entries self.now)) ≡ passes [] self.now behind
            → result ≡ is_some (read_all r (log_at new_lane (entries self.now))) }
    {
        match behind {
            Some(at) => at.place >= self.notes.len(),
            None => false,
        }
    }
}
