#![tactic(auto, using(crate::proofs::ReadingLemmas::note_says, crate::proofs::ReadingLemmas::step_says))]
//! Notes of each kind, read.

ghost use Rattle.std.specs.Prelude.{◌≡◌};
ghost use Rattle.pool_law.specs.Dids as says;
ghost use Rattle.pool_law.specs.Readers.{ToldNotes, note};
ghost use Rattle.lane_reader.specs.Reading.{log_from, reads, passes};

use crate::log::{At, Log};
use pool_law::{Did, Object, Parcel, RegionId};

impl Log<'_> {
    /// The region of a hit.
    pub(crate) fn hit(&self, at: At, object: &Object) -> Option<(RegionId, At)>
        ensures { (before : ToldNotes) → note object.now says.hit (log_from before self.now at)
            ≡ reads before self.now result }
    {
        match self.note(at, object)? {
            (Did::Hit(region), behind) => Some((*region, behind)),
            _ => None,
        }
    }

    /// The cache is empty.
    pub(crate) fn miss(&self, at: At, object: &Object) -> Option<At>
        ensures { (before : ToldNotes) → note object.now says.miss (log_from before self.now at)
            ≡ passes before self.now result }
    {
        match self.note(at, object)? {
            (Did::Miss, behind) => Some(behind),
            _ => None,
        }
    }

    /// The region of a take of the class.
    pub(crate) fn take(&self, at: At, object: &Object, class: u32) -> Option<(RegionId, At)>
        ensures { (before : ToldNotes) →
            note object.now (says.take class) (log_from before self.now at)
            ≡ reads before self.now result }
    {
        match self.note(at, object)? {
            (
                Did::Take {
                    class: other,
                    region,
                },
                behind,
            ) => (class == *other).then_some((*region, behind)),
            _ => None,
        }
    }

    /// The arena has nothing of the class.
    pub(crate) fn full(&self, at: At, object: &Object, class: u32) -> Option<At>
        ensures { (before : ToldNotes) →
            note object.now (says.full class) (log_from before self.now at)
            ≡ passes before self.now result }
    {
        match self.note(at, object)? {
            (Did::Full { class: other }, behind) => (class == *other).then_some(behind),
            _ => None,
        }
    }

    /// The bin is empty.
    pub(crate) fn no_handle(&self, at: At, object: &Object) -> Option<At>
        ensures { (before : ToldNotes) →
            note object.now says.no_handle (log_from before self.now at)
            ≡ passes before self.now result }
    {
        match self.note(at, object)? {
            (Did::NoHandle, behind) => Some(behind),
            _ => None,
        }
    }

    /// The place of a handle.
    pub(crate) fn handle(&self, at: At, object: &Object) -> Option<(u32, At)>
        ensures { (before : ToldNotes) → note object.now says.handle (log_from before self.now at)
            ≡ reads before self.now result }
    {
        match self.note(at, object)? {
            (Did::Handle(place), behind) => Some((*place, behind)),
            _ => None,
        }
    }

    /// This place comes home.
    pub(crate) fn home(&self, at: At, object: &Object, place: u32) -> Option<At>
        ensures { (before : ToldNotes) →
            note object.now (says.home place) (log_from before self.now at)
            ≡ passes before self.now result }
    {
        match self.note(at, object)? {
            (Did::Home(other), behind) => (place == *other).then_some(behind),
            _ => None,
        }
    }

    /// This region comes back.
    #[tactic(auto, using(crate::proofs::ReadingLemmas::note_says, crate::proofs::RegionLemmas::region_tests))]
    pub(crate) fn given(&self, at: At, object: &Object, region: &RegionId) -> Option<At>
        ensures { (before : ToldNotes) →
            note object.now (says.give region.now) (log_from before self.now at)
            ≡ passes before self.now result }
    {
        match self.note(at, object)? {
            (Did::Give(other), behind) => (region == other).then_some(behind),
            _ => None,
        }
    }

    /// This region is kept.
    #[tactic(auto, using(crate::proofs::ReadingLemmas::note_says, crate::proofs::RegionLemmas::region_tests))]
    pub(crate) fn kept(&self, at: At, object: &Object, region: &RegionId) -> Option<At>
        ensures { (before : ToldNotes) →
            note object.now (says.kept region.now) (log_from before self.now at)
            ≡ passes before self.now result }
    {
        match self.note(at, object)? {
            (Did::Kept(other), behind) => (region == other).then_some(behind),
            _ => None,
        }
    }

    /// This region is sent back.
    pub(crate) fn back(&self, at: At, object: &Object, region: &RegionId) -> Option<At>
        ensures { (before : ToldNotes) →
            note object.now (says.back region.now) (log_from before self.now at)
            ≡ passes before self.now result }
    {
        match self.note(at, object)? {
            (
                Did::Back {
                    region: other,
                    no: _,
                },
                behind,
            ) => (region == other).then_some(behind),
            _ => None,
        }
    }

    /// The region of a shed.
    pub(crate) fn shed(&self, at: At, object: &Object) -> Option<(RegionId, At)>
        ensures { (before : ToldNotes) → note object.now says.shed (log_from before self.now at)
            ≡ reads before self.now result }
    {
        match self.note(at, object)? {
            (Did::Shed(region), behind) => Some((*region, behind)),
            _ => None,
        }
    }

    /// The quota of a trim.
    pub(crate) fn trim(&self, at: At, object: &Object) -> Option<(u32, At)>
        ensures { (before : ToldNotes) → note object.now says.trim (log_from before self.now at)
            ≡ reads before self.now result }
    {
        match self.note(at, object)? {
            (Did::Trim(quota), behind) => Some((*quota, behind)),
            _ => None,
        }
    }

    /// The quota of a close.
    pub(crate) fn close(&self, at: At, object: &Object) -> Option<(u32, At)>
        ensures { (before : ToldNotes) → note object.now says.close (log_from before self.now at)
            ≡ reads before self.now result }
    {
        match self.note(at, object)? {
            (Did::Close(quota), behind) => Some((*quota, behind)),
            _ => None,
        }
    }

    /// This parcel is posted.
    pub(crate) fn post(&self, at: At, object: &Object, parcel: &Parcel) -> Option<At>
        ensures { (before : ToldNotes) →
            note object.now (says.post parcel.now) (log_from before self.now at)
            ≡ passes before self.now result }
    {
        match self.note(at, object)? {
            (Did::Post(other), behind) => (parcel == other).then_some(behind),
            _ => None,
        }
    }

    /// The parcel of a fetch.
    pub(crate) fn fetch(&self, at: At, object: &Object) -> Option<(Parcel, At)>
        ensures { (before : ToldNotes) → note object.now says.fetch (log_from before self.now at)
            ≡ reads before self.now result }
    {
        match self.note(at, object)? {
            (Did::Fetch(parcel), behind) => Some((*parcel, behind)),
            _ => None,
        }
    }
}
