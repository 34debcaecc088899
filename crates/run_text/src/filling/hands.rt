//! What comes to the hands of lanes.

ghost use Rattle.std.specs.Prelude.{◌≡◌, ℕ, List};
ghost use Rattle.run_text.specs.Lines.{Line, brought};
ghost use Rattle.run_text.specs.Knowing.{IsAt};

use super::{Filler, place_of};
use pool_law::{Did, Note, RegionId};

impl Filler {
    /// What comes to a lane's hands by a note: nothing, where a root place leaves a region that isn't known.
    pub(crate) fn brought(&self, note: &Note) -> Option<Option<RegionId>>
        ensures { (arenas : ℕ) (all before : List Line) → IsAt arenas all before self.now
            → result ≡ brought all note.now }
    {
        match note {
            Note::At {
                did: Did::Take { region, .. },
                ..
            } => Some(Some(*region)),
            Note::At {
                did: Did::Hit(region),
                ..
            } => Some(Some(*region)),
            Note::At {
                did: Did::Shed(region),
                ..
            } => Some(Some(*region)),
            Note::At {
                object,
                number,
                did: Did::Grow { .. },
            } => Some(self.known.left(place_of(object), *number)),
            Note::At {
                object,
                number,
                did: Did::End(_),
            } => Some(self.known.left(place_of(object), *number)),
            _ => None,
        }
    }
}
