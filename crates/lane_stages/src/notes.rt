//! Notes, and how they are written into a log.

ghost use Rattle.std.specs.Prelude.{◌≡◌, ◌<◌, [], ◌∷◌, length, Some, IsSome, vec_capacity};
ghost use Rattle.pool_law.specs.declared.note.Note.TheVariants.{At, Ref};
ghost use Rattle.shared_pool.specs.SeatViews.{view_of};
ghost use Rattle.shared_pool.specs.SeatLanes.{lane_of};
ghost use Rattle.lane_stages.specs.Logs.{HasWritten};

use pool_law::{Did, Note, Object, RefDid, RootId};
use shared_pool::PoolSeat;

/// Writes a note into a log that has room for it.
pub fn write_note(log: &mut Vec<Note>, note: Note)
    requires { length log.old.items < vec_capacity log.old }
    ensures { HasWritten log.old log.new (note ∷ []) }
{
    log.push_reserved(note);
}

/// The note of what was done to an object.
pub fn note_at(object: Object, number: u64, did: Did) -> Note
    ensures { result ≡ At object number did }
{
    Note::At {
        object,
        number,
        did,
    }
}

/// The note of a step on the count of a root.
pub fn note_to(root: RootId, did: RefDid) -> Note
    ensures { result ≡ Ref root did }
{
    Note::Ref { root, did }
}

/// The lane of a seat that has one.
pub fn lane_of(seat: &PoolSeat) -> u32
    requires { IsSome (view_of seat.now).own.number }
    ensures lane { result ≡ lane_of seat.now }
    ensures number { (view_of seat.now).own.number ≡ Some result }
{
    let Some(lane) = seat.number() else {
        unreachable!()
    };
    lane
}
