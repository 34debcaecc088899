#![tactic(auto, using(crate::proofs::ReadingLemmas::note_says, crate::proofs::ReadingLemmas::step_says))]
//! Single notes of steps on the count of a root.

ghost use Rattle.std.specs.Prelude.{◌≡◌};
ghost use Rattle.pool_law.specs.Dids as says;
ghost use Rattle.pool_law.specs.Readers.{ToldNotes, step};
ghost use Rattle.lane_reader.specs.Reading.{log_from, reads, passes};

use crate::log::{At, Log};
use pool_law::{RefDid, RootId};

impl Log<'_> {
    /// The word is set.
    pub(crate) fn born(&self, at: At, root: &RootId) -> Option<At>
        ensures { (before : ToldNotes) → step root.now says.born (log_from before self.now at)
            ≡ passes before self.now result }
    {
        match self.step(at, root)? {
            (RefDid::Born, behind) => Some(behind),
            _ => None,
        }
    }

    /// A count is added.
    pub(crate) fn retain(&self, at: At, root: &RootId) -> Option<At>
        ensures { (before : ToldNotes) → step root.now says.retain (log_from before self.now at)
            ≡ passes before self.now result }
    {
        match self.step(at, root)? {
            (RefDid::Retain, behind) => Some(behind),
            _ => None,
        }
    }

    /// A count is taken away, and others stay.
    pub(crate) fn count_kept(&self, at: At, root: &RootId) -> Option<At>
        ensures { (before : ToldNotes) → step root.now says.count_kept (log_from before self.now at)
            ≡ passes before self.now result }
    {
        match self.step(at, root)? {
            (RefDid::Kept, behind) => Some(behind),
            _ => None,
        }
    }

    /// The last count is taken away.
    pub(crate) fn ended(&self, at: At, root: &RootId) -> Option<At>
        ensures { (before : ToldNotes) → step root.now says.ended (log_from before self.now at)
            ≡ passes before self.now result }
    {
        match self.step(at, root)? {
            (RefDid::Ended, behind) => Some(behind),
            _ => None,
        }
    }

    /// The word is vacated.
    pub(crate) fn vacated(&self, at: At, root: &RootId) -> Option<At>
        ensures { (before : ToldNotes) → step root.now says.vacated (log_from before self.now at)
            ≡ passes before self.now result }
    {
        match self.step(at, root)? {
            (RefDid::Vacated, behind) => Some(behind),
            _ => None,
        }
    }

    /// The count that is looked up.
    pub(crate) fn look(&self, at: At, root: &RootId) -> Option<(u32, At)>
        ensures { (before : ToldNotes) → step root.now says.look (log_from before self.now at)
            ≡ reads before self.now result }
    {
        match self.step(at, root)? {
            (RefDid::Look(count), behind) => Some((count, behind)),
            _ => None,
        }
    }
}
