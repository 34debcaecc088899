//! How a run breaks the law of the pool.

use pool_law::{Object, RootId};

/// A note of a lane: so many of the lane's notes stand before it.
#[derive(Clone, Copy, PartialEq, Eq, Debug, Drop)]
pub struct NoteSpot {
    /// The lane, from 0.
    pub lane: u32,
    /// How many notes of the lane stand before the note.
    pub at: usize,
}

/// What of the law a run doesn't keep, and where first. Lanes are gone through from 0 on, and each lane's notes
/// in the order of its log.
#[derive(Clone, Copy, PartialEq, Eq, Debug, Drop)]
pub enum Breach {
    /// Its measures are past the limits of a pool.
    Measures,
    /// It hasn't a list of commands and a log for each lane.
    Lanes,
    /// Some lane's commands are none that a lane may be given.
    Commands,
    /// The notes at an object can't stand from this number on: none has it while a later number is there, two have
    /// it, a greater one stands before it in its lane, or the object doesn't accept the note. Of a mail it is the
    /// first place, from 1, whose post has another number or whose fetch isn't that post.
    History {
        /// The object, or the mail.
        object: Object,
        /// The first number, or place, at which it doesn't hold.
        number: u64,
    },
    /// This is the first note that its lane may not make.
    Notes(NoteSpot),
    /// Up to this note the busy marks can be, and with it they can't.
    Marks(NoteSpot),
    /// The chunks that are reported aren't those that the arenas have at the end: the first that differs, counted
    /// from 0.
    Chunks(usize),
    /// The replies and notes of a lane are those that its commands have before this one, and not with it.
    Answers {
        /// The lane, from 0.
        lane: u32,
        /// The command, from 0. Where it is the number of the lane's commands, what stands behind these is
        /// wrong.
        command: usize,
    },
    /// This is the first note by which a lane uses a root that it doesn't count, or ends one that it counts.
    Uses(NoteSpot),
    /// The counts of this root, which was born, don't add up over all lanes.
    Totals(RootId),
    /// This is the first note that names a root which was never born.
    Unborn(NoteSpot),
    /// This is the first note that looks up a count of a root which can't be.
    Looks(NoteSpot),
    /// The leaks that are reported aren't those of the live roots: the first that differs, counted from 0.
    Leaks(usize),
}
