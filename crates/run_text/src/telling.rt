//! What the line of a note tells of a root or a region.

ghost use Rattle.std.specs.Prelude.{◌≡◌};
ghost use Rattle.run_text.specs.Knowing.{begin_told, birth_told, taking_told};

use pool_law::{Did, Note, Object, RegionId, RootId};

/// What the line of a taking tells: its arena, its class, and the region.
pub fn taking_told(note: &Note) -> Option<(u32, u32, RegionId)>
    ensures { result ≡ taking_told note.now }
{
    match note {
        Note::At {
            object: Object::Arena(arena),
            did: Did::Take { class, region },
            ..
        } => Some((*arena, *class, *region)),
        _ => None,
    }
}

/// The root whose birth a line tells.
pub fn birth_told(note: &Note) -> Option<RootId>
    ensures { result ≡ birth_told note.now }
{
    match note {
        Note::At {
            object: Object::Root(place),
            did: Did::Birth { root, .. },
            ..
        } => Some(RootId {
            place: *place,
            generation: root.generation,
            capacity: root.capacity,
        }),
        _ => None,
    }
}

/// What the line of a birth or a growth tells: the root's place, the number of the note there, and the region.
pub fn begin_told(note: &Note) -> Option<(u32, u64, RegionId)>
    ensures { result ≡ begin_told note.now }
{
    match note {
        Note::At {
            object: Object::Root(place),
            number,
            did: Did::Birth { region, .. },
        } => Some((*place, *number, *region)),
        Note::At {
            object: Object::Root(place),
            number,
            did: Did::Grow { region, .. },
        } => Some((*place, *number, *region)),
        _ => None,
    }
}
