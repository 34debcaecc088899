//! The calling thread, which has a machine of its own.
ghost use Rattle.work_table.specs.Places.{IsSameRelation};

use crate::event_count::EventCount;
use crate::machine::Machine;
use crate::pace::Pace;
use crate::table::{Playing, Status, Table};
use crate::worker::{Turn, Worker, go_on, is_over, rest, take_turn};
use std::mem::ManuallyDrop;
use std::sync::{Mutex, Wait};
use std::thread;

/// What the calling thread does beside its own machine.
#[derive(Clone, Copy, PartialEq, Eq, Debug)]
pub enum Duty {
    /// Nothing, once another thread has begun to help: each machine of the table has a worker.
    Alone,
    /// It steps the machines of the table too.
    Table,
}

/// The calling thread at work, until the table is over: it steps `own`, which no other thread does.
/// Before another thread helps it steps the machines of the table too, whatever its duty is, since none
/// ever does where no thread can be made.
pub fn step_own<E, O: Machine<E>, M: Machine<E>, T: Playing<M>, R: Wait>(
    rt: &R,
    shared: &E,
    own: &mut O,
    lock: &Mutex<ManuallyDrop<Table<M, T>>>,
    changes: &EventCount,
    mine: &mut Worker<T>,
    duty: Duty,
)
    requires relation { IsSameRelation T.comes (M.comes shared.now) }
    requires own { (first : O) × O.comes shared.now first own.old }
    ensures { (first : O) →
        O.comes shared.now first own.old → O.comes shared.now first own.new }
{
    work_beside(rt, shared, own, lock, changes, mine, duty);
    if duty == Duty::Alone && !is_over(rt, lock) {
        work_alone(rt, shared, own, lock, changes, mine.pace);
    }
}

// Steps the machines of the table until all have finished or one finds no memory, and before each
// turn `own`, which no other worker does, until that cannot go on. Where the table is over first `own`
// stands as it stands. A thread that is to step `own` alone leaves the table once another one has
// begun to help.
fn work_beside<E, O: Machine<E>, M: Machine<E>, T: Playing<M>, R: Wait>(
    rt: &R,
    shared: &E,
    own: &mut O,
    table: &Mutex<ManuallyDrop<Table<M, T>>>,
    changes: &EventCount,
    worker: &mut Worker<T>,
    duty: Duty,
)
    requires relation { IsSameRelation T.comes (M.comes shared.now) }
    requires own { (first : O) × O.comes shared.now first own.old }
    ensures { (first : O) → O.comes shared.now first own.old → O.comes shared.now first own.new }
{
    let pace = worker.pace;
    let mut from = 0;
    let mut idle = 0u32;
    let mut status = Status::Ready;
    for _ in rt.forever() {
        if duty == Duty::Alone && changes.has_help() {
            return;
        }
        if status.can_go(changes.read()) {
            status = go_on(rt, shared, changes, pace, own);
            tell(rt, table, changes, status);
            idle = 0;
        }
        match take_turn(rt, shared, table, changes, pace, from, &mut worker.share) {
            Turn::Stepped(next) => {
                from = next;
                idle = 0;
            }
            Turn::Idle(seen) => {
                if !status.can_go(seen) {
                    idle = rest(rt, changes, idle, seen);
                }
            }
            Turn::Over => return,
        }
    }
}

// This thread steps `own` alone, which no other does, until the table is over: each machine of the
// table has a worker of its own. Where the table is over first `own` stands as it stands.
fn work_alone<E, O: Machine<E>, M, T: Playing<M>, R: Wait>(
    rt: &R,
    shared: &E,
    own: &mut O,
    table: &Mutex<ManuallyDrop<Table<M, T>>>,
    changes: &EventCount,
    pace: Pace,
)
    requires { (first : O) × O.comes shared.now first own.old }
    ensures { (first : O) → O.comes shared.now first own.old → O.comes shared.now first own.new }
{
    let mut status = Status::Ready;
    for _ in rt.forever() {
        let seen = changes.read();
        if status.can_go(seen) {
            status = go_on(rt, shared, changes, pace, own);
            tell(rt, table, changes, status);
        } else if is_over(rt, table) {
            return;
        } else {
            changes.wait(rt, seen);
        }
    }
}

// Tells the other workers where a machine that is not in the table has come to its end.
fn tell<M, T: Playing<M>, R: Wait>(
    rt: &R,
    table: &Mutex<ManuallyDrop<Table<M, T>>>,
    changes: &EventCount,
    status: Status,
) {
    match status {
        Status::Ready => thread::yield_now(),
        Status::Since(_) => {}
        Status::Finished => {
            changes.advance();
        }
        Status::Failed => {
            table.lock(rt).fail();
            changes.advance();
        }
    }
}
