//! The parts of a composite are copied to a root of its own, one after another: each is got from
//! its root and then set in the new one. (Netty: `CompositeByteBuf.consolidate`)

ghost use Rattle.std.specs.Prelude.{◌+◌, ◌<◌, ◌≤◌, length, vec_capacity};
ghost use Rattle.lane_stages.specs.Copyings.{HasCopied, MayCopy, left_of};
ghost use Rattle.lane_stages.specs.declared.copying.Copying.{Copying};

use crate::notes::{note_at, write_note};
use crate::stage_step::StageStep;
use pool_law::{Bytes, Did, Note, Object, Part, RootId};
use shared_pool::{PoolSeat, SharedPool, Went};

/// A part that is to be copied, with the memory for the two notes of that.
#[derive(Drop)]
pub struct Transfer {
    /// Where its bytes lie.
    pub part: Part,
    /// As many bytes as the part has, into which it is got.
    pub got: Vec<u8>,
    /// As many again, which are set in the root.
    pub set: Vec<u8>,
}

/// What is still to be copied to a root, from an index on.
#[derive(Drop)]
pub enum Copying {
    /// This part is got next, and then set; behind it these are copied.
    Get {
        /// The root that they are copied to.
        root: RootId,
        /// The index in it at which this part begins.
        at: u32,
        /// The part that is got.
        first: Transfer,
        /// The parts behind it, in order.
        later: Vec<Transfer>,
    },
    /// These bytes were got, and are set next.
    Set {
        /// The root that they are copied to.
        root: RootId,
        /// The index in it at which they begin.
        at: u32,
        /// The bytes of the part that was got.
        bytes: Vec<u8>,
        /// The parts that are still to be copied, in order.
        later: Vec<Transfer>,
    },
}

/// Gets or sets the next part, and writes its note into the log. It is done once all are copied.
pub fn copy(
    pool: &SharedPool,
    seat: &mut PoolSeat,
    log: &mut Vec<Note>,
    stage: Copying,
) -> StageStep<Copying, ()>
    requires may { MayCopy pool.now seat.old stage }
    requires room { length log.old.items + (left_of stage).notes ≤ vec_capacity log.old }
    ensures { HasCopied pool.now seat.old seat.new log.old log.new stage result }
{
    match stage {
        Copying::Get {
            root,
            at,
            first,
            later,
        } => get_next(pool, seat, log, (root, at), first, later),
        Copying::Set {
            root,
            at,
            bytes,
            later,
        } => set_next(pool, seat, log, (root, at), bytes, later),
    }
}

fn get_next(
    pool: &SharedPool,
    seat: &mut PoolSeat,
    log: &mut Vec<Note>,
    goal: (RootId, u32),
    mut first: Transfer,
    later: Vec<Transfer>,
) -> StageStep<Copying, ()>
    requires may { MayCopy pool.now seat.old (Copying.Get goal.0 goal.1 first later) }
    requires room { length log.old.items < vec_capacity log.old }
    ensures { HasCopied pool.now seat.old seat.new log.old log.new
        (Copying.Get goal.0 goal.1 first later) result }
{
    let Part {
        root,
        offset,
        len: _,
    } = first.part;
    match pool.read(seat, root, offset, &mut first.got, false) {
        Went::Did(number, ()) => {
            let mut bytes = first.set;
            bytes.copy_from_slice(&first.got);
            let got = Bytes::of(first.got);
            let did = Did::Get { offset, bytes: got };
            write_note(log, note_at(Object::Root(root.place), number, did));
            StageStep::More(Copying::Set {
                root: goal.0,
                at: goal.1,
                bytes,
                later,
            })
        }
        Went::Held(held, ()) => StageStep::Held(
            held,
            Copying::Get {
                root: goal.0,
                at: goal.1,
                first,
                later,
            },
        ),
    }
}

fn set_next(
    pool: &SharedPool,
    seat: &mut PoolSeat,
    log: &mut Vec<Note>,
    goal: (RootId, u32),
    bytes: Vec<u8>,
    mut later: Vec<Transfer>,
) -> StageStep<Copying, ()>
    requires may { MayCopy pool.now seat.old (Copying.Set goal.0 goal.1 bytes later) }
    requires room { length log.old.items < vec_capacity log.old }
    ensures { HasCopied pool.now seat.old seat.new log.old log.new
        (Copying.Set goal.0 goal.1 bytes later) result }
{
    let (root, offset) = goal;
    match pool.write(seat, root, offset, &bytes, false) {
        Went::Did(number, ()) => {
            let behind = offset + bytes.len() as u32;
            let bytes = Bytes::of(bytes);
            let did = Did::Set { offset, bytes };
            write_note(log, note_at(Object::Root(root.place), number, did));
            if later.is_empty() {
                return StageStep::Done(());
            }
            let first = later.remove(0);
            StageStep::More(Copying::Get {
                root,
                at: behind,
                first,
                later,
            })
        }
        Went::Held(held, ()) => StageStep::Held(
            held,
            Copying::Set {
                root,
                at: offset,
                bytes,
                later,
            },
        ),
    }
}
