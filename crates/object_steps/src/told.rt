//! What the history of a root place tells of a note.

use pool_law::{RegionId, RootId};

/// What only its place's history tells of a note.
#[derive(Clone, Copy, Drop)]
pub struct PlaceTold {
    /// The root that an access is to; none for another note.
    pub root: Option<RootId>,
    /// The region that an end takes out; none for another note.
    pub region: Option<RegionId>,
}
