//! Bytes of a composite, which lie in parts of several roots: one part is set or got after another.
//! (Netty: `CompositeByteBuf.setBytes`, `getBytes`)

ghost use Rattle.std.specs.Prelude.{◌≡◌, ◌+◌, ◌<◌, ◌≤◌, ◌++◌, length, vec_capacity};
ghost use Rattle.lane_stages.specs.Crossings.{HasCrossed, MayCross, left_of};
ghost use Rattle.lane_stages.specs.declared.crossing.Crossing.{Crossing};

use crate::lists::next_of;
use crate::notes::{note_at, write_note};
use crate::stage_step::StageStep;
use pool_law::{Bytes, Did, Note, Object, Part};
use shared_pool::{PoolSeat, SharedPool, Went};

/// A part whose bytes are set or got, with the memory for the note of that.
#[derive(Drop)]
pub struct Stretch {
    /// Where its bytes lie.
    pub part: Part,
    /// The bytes that it is set to, or as many, into which it is got.
    pub bytes: Vec<u8>,
}

/// What is still to be done to the bytes of a range: to this part, and then to those behind it.
#[derive(Drop)]
pub enum Crossing {
    /// Each is set to its bytes.
    Set(Stretch, Vec<Stretch>),
    /// Each is got, behind the bytes that were got before.
    Get(Stretch, Vec<Stretch>, Vec<u8>),
}

/// What the parts of a range answer, once all are done.
pub enum Crossed {
    /// They are set.
    Set,
    /// They are got, and these are their bytes.
    Got(Vec<u8>),
}

/// Does the next part, and writes its note into the log.
pub fn cross(
    pool: &SharedPool,
    seat: &mut PoolSeat,
    log: &mut Vec<Note>,
    stage: Crossing,
) -> StageStep<Crossing, Crossed>
    requires may { MayCross pool.now seat.old stage }
    requires room { length log.old.items + (left_of stage).notes ≤ vec_capacity log.old }
    ensures { HasCrossed pool.now seat.old seat.new log.old log.new stage result }
{
    match stage {
        Crossing::Set(first, later) => set_next(pool, seat, log, first, later),
        Crossing::Get(first, later, got) => get_next(pool, seat, log, first, later, got),
    }
}

fn set_next(
    pool: &SharedPool,
    seat: &mut PoolSeat,
    log: &mut Vec<Note>,
    first: Stretch,
    later: Vec<Stretch>,
) -> StageStep<Crossing, Crossed>
    requires may { MayCross pool.now seat.old (Crossing.Set first later) }
    requires room { length log.old.items < vec_capacity log.old }
    ensures { HasCrossed pool.now seat.old seat.new log.old log.new
        (Crossing.Set first later) result }
{
    let Part {
        root,
        offset,
        len: _,
    } = first.part;
    match pool.write(seat, root, offset, &first.bytes, false) {
        Went::Did(number, ()) => {
            let bytes = Bytes::of(first.bytes);
            let did = Did::Set { offset, bytes };
            write_note(log, note_at(Object::Root(root.place), number, did));
            match next_of(later) {
                Some((first, later)) => StageStep::More(Crossing::Set(first, later)),
                None => StageStep::Done(Crossed::Set),
            }
        }
        Went::Held(held, ()) => StageStep::Held(held, Crossing::Set(first, later)),
    }
}

fn get_next(
    pool: &SharedPool,
    seat: &mut PoolSeat,
    log: &mut Vec<Note>,
    mut first: Stretch,
    later: Vec<Stretch>,
    mut got: Vec<u8>,
) -> StageStep<Crossing, Crossed>
    requires may { MayCross pool.now seat.old (Crossing.Get first later got) }
    requires room { length log.old.items < vec_capacity log.old }
    ensures { HasCrossed pool.now seat.old seat.new log.old log.new
        (Crossing.Get first later got) result }
{
    let Part {
        root,
        offset,
        len: _,
    } = first.part;
    match pool.read(seat, root, offset, &mut first.bytes, false) {
        Went::Did(number, ()) => {
            append(&mut got, &first.bytes);
            let bytes = Bytes::of(first.bytes);
            let did = Did::Get { offset, bytes };
            write_note(log, note_at(Object::Root(root.place), number, did));
            match next_of(later) {
                Some((first, later)) => StageStep::More(Crossing::Get(first, later, got)),
                None => StageStep::Done(Crossed::Got(got)),
            }
        }
        Went::Held(held, ()) => StageStep::Held(held, Crossing::Get(first, later, got)),
    }
}

// Puts bytes behind others, where there is room for them.
fn append(bytes: &mut Vec<u8>, more: &[u8])
    requires { length bytes.old.items + length more.now ≤ vec_capacity bytes.old }
    ensures items { bytes.new.items ≡ bytes.old.items ++ more.now }
    ensures room { vec_capacity bytes.new ≡ vec_capacity bytes.old }
{
    for byte in more {
        bytes.push_reserved(*byte);
    }
}
