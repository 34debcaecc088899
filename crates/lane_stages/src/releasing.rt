//! The parts of a composite are released in order, each once, if the lane then counts its root.
//! (Netty: `CompositeByteBuf.deallocate`)

ghost use Rattle.std.specs.Prelude.{◌≡◌, ◌+◌, ◌≤◌, ◌⊎◌, IsTrue, IfSome, IfNone, length, vec_capacity};
ghost use Rattle.lane_stages.specs.Releasings.{AreUncounted, HasReleased, IsOver, MayRelease, NextCounted, left_of};
ghost use Rattle.lane_stages.specs.declared.releasing.Releasing.{Releasing};

use crate::counts::OwnCounts;
use crate::notes::{note_to, write_note};
use crate::retirement::{Ending, end};
use crate::stage_step::StageStep;
use pool_law::{Note, Part, RefDid, RootId};
use shared_pool::{PoolSeat, Release, SharedPool};

/// What is still to be released: first what is left of a root that ended, and then these parts.
pub struct Releasing {
    pub ending: Option<Ending>,
    pub left: Vec<Part>,
}

/// Does the next thing, and writes its notes into the log. It is done where no part is left whose
/// root the lane counts: then nothing is noted.
pub fn release(
    pool: &SharedPool,
    seat: &mut PoolSeat,
    counts: &mut OwnCounts,
    log: &mut Vec<Note>,
    stage: Releasing,
) -> StageStep<Releasing, ()>
    requires may { MayRelease pool.now seat.old counts.old stage }
    requires room { length log.old.items + (left_of stage).notes ≤ vec_capacity log.old }
    ensures { HasReleased pool.now seat.old seat.new counts.old counts.new log.old log.new
        stage result }
{
    let Releasing { ending, mut left } = stage;
    if let Some(ending) = ending {
        return match end(pool, seat, log, ending) {
            StageStep::More(ending) => StageStep::More(ended_with(Some(ending), left)),
            StageStep::Held(held, ending) => StageStep::Held(held, ended_with(Some(ending), left)),
            StageStep::Done(()) => StageStep::More(ended_with(None, left)),
        };
    }
    let Some(root) = next_counted(counts, &mut left) else {
        return StageStep::Done(());
    };
    let release = pool.release(seat, root);
    counts.take(root);
    match release {
        Release::Kept => {
            write_note(log, note_to(root, RefDid::Kept));
            StageStep::More(ended_with(None, left))
        }
        Release::Ended(token) => {
            write_note(log, note_to(root, RefDid::Ended));
            StageStep::More(ended_with(Some(Ending::Root(token)), left))
        }
    }
}

/// The same, if an end is under way or a part is left whose root is counted.
pub fn unfinished(counts: &OwnCounts, stage: Releasing) -> Option<Releasing>
    ensures some { IfSome result (λ s. (s ≡ stage) × (IsOver counts.now stage → ⊥)) }
    ensures none { IfNone result (IsOver counts.now stage) }
{
    let Releasing { ending, left } = stage;
    if let Some(ending) = ending {
        return Some(ended_with(Some(ending), left));
    }
    if has_counted(counts, &left) {
        return Some(ended_with(None, left));
    }
    None
}

// The root of some part is counted.
fn has_counted(counts: &OwnCounts, parts: &[Part]) -> bool
    ensures some { IsTrue result → AreUncounted counts.now parts.now → ⊥ }
    ensures none { IsTrue result ⊎ AreUncounted counts.now parts.now }
{
    for part in parts {
        if counts.of(part.root) > 0 {
            return true;
        }
    }
    false
}

fn ended_with(ending: Option<Ending>, left: Vec<Part>) -> Releasing
    ensures { result ≡ record { ending = ending; left = left } }
{
    Releasing { ending, left }
}

// The root of the first of these parts that the lane counts; those up to there are taken out.
fn next_counted(counts: &OwnCounts, left: &mut Vec<Part>) -> Option<RootId>
    ensures { NextCounted counts.now left.old.items left.new.items result }
{
    while !left.is_empty() {
        let part = left.remove(0);
        if counts.of(part.root) > 0 {
            return Some(part.root);
        }
    }
    None
}
