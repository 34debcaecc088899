//! A region that is left over once a root has more capacity: it is put into its owner's cache, or
//! else given to its arena.

ghost use Rattle.std.specs.Prelude.{◌≡◌, ◌<◌, length, vec_capacity};
ghost use Rattle.lane_stages.specs.Growings.{MayGrow, HasGrown, leaving};
ghost use Rattle.lane_stages.specs.declared.growing.Growing.{Growing};

use crate::growing::{Growing, Regrown, Want};
use crate::notes::{note_at, write_note};
use crate::stage_step::StageStep;
use pool_law::{Did, Note, Object, Region};
use shared_pool::{PoolSeat, Put, SharedPool, Went};
use size_classes::CACHED_CLASSES;

// Where a region that is left over goes first, once the root has this capacity.
pub(crate) fn leaving(capacity: u32, region: Region) -> Growing
    ensures { result ≡ leaving capacity region }
{
    if region.id.class < CACHED_CLASSES {
        Growing::Put(capacity, region)
    } else {
        Growing::Give(capacity, region)
    }
}

pub(crate) fn put_away(
    pool: &SharedPool,
    seat: &mut PoolSeat,
    log: &mut Vec<Note>,
    want: Want,
    capacity: u32,
    region: Region,
) -> StageStep<Growing, Regrown>
    requires may { MayGrow pool.now seat.old want.root want.size want.class
        (Growing.Put capacity region) }
    requires room { length log.old.items < vec_capacity log.old }
    ensures { HasGrown pool.now seat.old seat.new log.old log.new want.root want.size want.class
        (Growing.Put capacity region) result }
{
    let id = region.id;
    let cache = Object::Cache {
        lane: id.owner,
        class: id.class,
    };
    match pool.put_cached(seat, region) {
        Went::Did(number, Put::Kept) => {
            write_note(log, note_at(cache, number, Did::Kept(id)));
            StageStep::Done(Regrown::Has(capacity))
        }
        Went::Did(number, Put::Back(region, no)) => {
            write_note(log, note_at(cache, number, Did::Back { region: id, no }));
            StageStep::More(Growing::Give(capacity, region))
        }
        Went::Held(held, region) => {
            write_note(log, Note::Busy(held));
            StageStep::More(Growing::Give(capacity, region))
        }
    }
}

pub(crate) fn give_back(
    pool: &SharedPool,
    seat: &mut PoolSeat,
    log: &mut Vec<Note>,
    want: Want,
    capacity: u32,
    region: Region,
) -> StageStep<Growing, Regrown>
    requires may { MayGrow pool.now seat.old want.root want.size want.class
        (Growing.Give capacity region) }
    requires room { length log.old.items < vec_capacity log.old }
    ensures { HasGrown pool.now seat.old seat.new log.old log.new want.root want.size want.class
        (Growing.Give capacity region) result }
{
    let id = region.id;
    let arena = Object::Arena(id.place.arena);
    match pool.give(seat, region) {
        Went::Did(number, ()) => {
            write_note(log, note_at(arena, number, Did::Give(id)));
            StageStep::Done(Regrown::Has(capacity))
        }
        Went::Held(held, region) => StageStep::Held(held, Growing::Give(capacity, region)),
    }
}
