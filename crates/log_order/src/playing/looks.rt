//! Which notes may be played, by what the lanes are to look up.

ghost use Rattle.std.specs.Prelude.{◌≡◌, true};
ghost use Rattle.log_order.specs.declared.playing.Eager.TheVariants.{Any};

use super::{Eager, Playing};
use crate::spots::{Spot, note_at};
use pool_law::{LaneLog, Note, RefDid};

impl Playing {
    // Whether a lane is to look up more counts than there are, or less.
    fn looks_for(&self, note: &Note) -> Option<bool> {
        let Note::Ref { root, did } = note else {
            return None;
        };
        let RefDid::Look(found) = did else {
            return None;
        };
        self.tally.has_less(root, *found)
    }

    // Whether a step on a count is one that no lane's next look speaks against.
    fn helps(&self, logs: &[LaneLog], note: &Note) -> bool {
        for lane in 0..self.next.len() {
            let spot = Spot {
                lane,
                at: self.next[lane],
            };
            if let Some(other) = note_at(logs, &spot) {
                if is_of_one_root(note, other) && self.looks_for(other) == Some(gives_up(note)) {
                    return false;
                }
            }
        }
        true
    }

    /// Whether a note may be played.
    pub(crate) fn may_go(&self, logs: &[LaneLog], note: &Note, eager: Eager) -> bool
        ensures { eager ≡ Any → result ≡ true }
    {
        match eager {
            Eager::Quiet => !changes_count(note),
            Eager::Helpful => self.helps(logs, note),
            Eager::Any => true,
        }
    }
}

// Whether a note changes the count of a root that lives on.
fn changes_count(note: &Note) -> bool {
    let Note::Ref { root: _, did } = note else {
        return false;
    };
    matches!(did, RefDid::Retain | RefDid::Kept)
}

// Whether a note gives up a count.
fn gives_up(note: &Note) -> bool {
    let Note::Ref { root: _, did } = note else {
        return false;
    };
    matches!(did, RefDid::Kept)
}

// Whether two notes are on the count of one root.
fn is_of_one_root(note: &Note, other: &Note) -> bool {
    let Note::Ref { root, did: _ } = note else {
        return false;
    };
    let Note::Ref { root: r, did: _ } = other else {
        return false;
    };
    root == r
}
