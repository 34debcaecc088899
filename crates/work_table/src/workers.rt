//! How workers step machines together.
ghost use Rattle.std.specs.Prelude.{◌≡◌, ◌+◌, ◌<◌, All, length, vec_len, OnOk};
ghost use Rattle.work_table.specs.Places.{EachCame, IsSameRelation};

use crate::event_count::EventCount;
use crate::idler::Idler;
use crate::machine::Machine;
use crate::own::{Duty, step_own};
use crate::pace::Pace;
use crate::shares::{merged, with_shares};
use crate::steps::step_all;
use crate::table::{Playing, Status, Table};
use crate::worker::{Worker, work};
use std::alloc::{AllocError, Global};
use std::marker::Brand;
use std::mem::ManuallyDrop;
use std::sync::ledger::{Blank, Share};
use std::sync::{Mutex, Wait};
use std::thread;
use std::thread::Threads;

/// Steps the machines on so many threads, or as many as there are machines, until all have finished
/// or one finds no memory. All machines come back, each at its place.
pub fn step_together<R: Threads + Wait + Sync, E: Sync, M: Machine<E> + Send>(
    rt: &R,
    alloc: Global,
    shared: &E,
    machines: Vec<M>,
    threads: u32,
) -> (Vec<M>, Result<(), AllocError>)
    requires { All (λ m. M.comes shared.now m m) machines.items }
    ensures machines { EachCame (M.comes shared.now) machines.items result.0.items }
    ensures count { vec_len result.0 ≡ vec_len machines }
    ensures finished { OnOk result.1 (All M.finished result.0.items) }
{
    let count = machines.len().min(threads as usize).max(1);
    let blank = Blank::new(count as u64);
    let pace = Pace::together(count, machines.len());
    step_as::<Brand, R, E, Idler, M>(rt, alloc, shared, &mut Idler, machines, blank, count, pace)
}

/// The same, and this thread steps `own` too, which no other does.
pub fn step_beside<R: Threads + Wait + Sync, E: Sync, O: Machine<E>, M: Machine<E> + Send>(
    rt: &R,
    alloc: Global,
    shared: &E,
    own: &mut O,
    machines: Vec<M>,
    threads: u32,
) -> (Vec<M>, Result<(), AllocError>)
    requires own { (first : O) × O.comes shared.now first own.old }
    requires machines { All (λ m. M.comes shared.now m m) machines.items }
    ensures own { (first : O) →
        O.comes shared.now first own.old → O.comes shared.now first own.new }
    ensures machines { EachCame (M.comes shared.now) machines.items result.0.items }
    ensures count { vec_len result.0 ≡ vec_len machines }
    ensures finished { OnOk result.1 (O.finished own.new × All M.finished result.0.items) }
{
    let count = machines
        .len()
        .saturating_add(1)
        .min(threads as usize)
        .max(1);
    let blank = Blank::new(count as u64);
    let pace = Pace::beside();
    step_as::<Brand, R, E, O, M>(rt, alloc, shared, own, machines, blank, count, pace)
}

// Steps the machines of this play on workers, and then by itself each that has not finished.
fn step_as<
    T: Playing<M> + Send + Sync,
    R: Threads + Wait + Sync,
    E: Sync,
    O: Machine<E>,
    M: Machine<E> + Send,
>(
    rt: &R,
    alloc: Global,
    shared: &E,
    own: &mut O,
    machines: Vec<M>,
    blank: Blank,
    worker_count: usize,
    pace: Pace,
) -> (Vec<M>, Result<(), AllocError>)
    requires name { blank.name ≡ T.name }
    requires parts { (blank.parts ≡ T.parts) × (T.parts ≡ worker_count) }
    requires worker_count { 0 < worker_count }
    requires relation { IsSameRelation T.comes (M.comes shared.now) }
    requires own { (first : O) × O.comes shared.now first own.old }
    requires machines { EachCame T.comes T.firsts machines.items }
    requires count { vec_len machines ≡ length T.firsts }
    ensures own { (first : O) →
        O.comes shared.now first own.old → O.comes shared.now first own.new }
    ensures machines { EachCame T.comes T.firsts result.0.items }
    ensures count { vec_len result.0 ≡ length T.firsts }
    ensures finished { OnOk result.1 (O.finished own.new × All M.finished result.0.items) }
{
    let count = machines.len();
    let (Ok(statuses), Ok(workers)) = (
        vec![in alloc; Status::Ready; count],
        Vec::with_capacity(alloc, worker_count),
    ) else {
        return (machines, Err(AllocError));
    };
    let Ok(places) = Vec::with_capacity(alloc, count) else {
        return (machines, Err(AllocError));
    };
    let (book, all) = blank.open::<T>();
    let (others, share) = with_shares(workers, all, worker_count - 1, pace);
    let (table, machines) = Table::<M, T>::of(machines, places, statuses, book);
    let mine = Worker { share, pace };
    let changes = EventCount::new();
    let (table, all) = at_work(rt, shared, own, table, &changes, others, mine);
    let failed = table.has_failed();
    let mut machines = table.into_machines(machines, all);
    if failed {
        return (machines, Err(AllocError));
    }
    let ended = step_all(rt, shared, own, &mut machines);
    (machines, ended)
}

// All workers at work, until each has ended: this thread is one of them, and steps `own` too. Their
// shares come back.
fn at_work<
    T: Playing<M> + Send + Sync,
    R: Threads + Wait + Sync,
    E: Sync,
    O: Machine<E>,
    M: Machine<E> + Send,
>(
    rt: &R,
    shared: &E,
    own: &mut O,
    table: Table<M, T>,
    changes: &EventCount,
    mut others: Vec<Worker<T>>,
    mut mine: Worker<T>,
) -> (Table<M, T>, Share<T>)
    requires relation { IsSameRelation T.comes (M.comes shared.now) }
    requires own { (first : O) × O.comes shared.now first own.old }
    ensures own { (first : O) →
        O.comes shared.now first own.old → O.comes shared.now first own.new }
    ensures share { (result.1.parts ≡ vec_len others + 1) × (result.1.amount ≡ 0) }
{
    let duty = if table.count() <= others.len() {
        Duty::Alone
    } else {
        Duty::Table
    };
    let lock = lock_of(table);
    if others.is_empty() {
        step_own(rt, shared, own, &lock, changes, &mut mine, Duty::Table);
    } else {
        work_with(
            rt,
            shared,
            own,
            &lock,
            changes,
            &mut mine,
            others.as_mut_slice(),
            duty,
        );
    }
    let Worker { share, pace: _ } = mine;
    let all = merged(others, share);
    (ManuallyDrop::into_inner(lock.into_inner()), all)
}

// This worker at work on this thread, beside its own machine or at that alone, and the others on
// others.
fn work_with<
    'a,
    T: Playing<M> + Send + Sync,
    R: Threads + Wait + Sync,
    E: Sync,
    O: Machine<E>,
    M: Machine<E> + Send,
>(
    rt: &'a R,
    shared: &'a E,
    own: &'a mut O,
    lock: &'a Mutex<ManuallyDrop<Table<M, T>>>,
    changes: &'a EventCount,
    mine: &'a mut Worker<T>,
    others: &'a mut [Worker<T>],
    duty: Duty,
)
    requires relation { IsSameRelation T.comes (M.comes shared.now) }
    requires own { (first : O) × O.comes shared.now first own.old }
    ensures { (first : O) →
        O.comes shared.now first own.old → O.comes shared.now first own.new }
{
    let mut helping = ||
        requires { IsSameRelation T.comes (M.comes shared.now) }
    { help(rt, shared, lock, changes, others) };
    let mut working = ||
        requires relation { IsSameRelation T.comes (M.comes shared.now) }
        requires own { (first : O) × O.comes shared.now first own.now }
        ensures { (first : O) →
            O.comes shared.entry.now first own.entry.now →
            O.comes shared.entry.now first own.exit.now }
    { step_own(rt, shared, own, lock, changes, mine, duty) };
    thread::join_mut(rt, &mut helping, &mut working);
}

// These workers at work, each on a thread.
fn help<T: Playing<M> + Send + Sync, R: Threads + Wait + Sync, E: Sync, M: Machine<E> + Send>(
    rt: &R,
    shared: &E,
    lock: &Mutex<ManuallyDrop<Table<M, T>>>,
    changes: &EventCount,
    workers: &mut [Worker<T>],
)
    requires { IsSameRelation T.comes (M.comes shared.now) }
{
    changes.begin();
    let threads = workers.len().max(1);
    thread::for_each_mut(
        rt,
        workers,
        threads,
        &|_i, worker: &mut Worker<T>|
            requires { IsSameRelation T.comes (M.comes shared.now) }
        { work(rt, shared, lock, changes, worker) },
    );
}

// A lock round a table, which comes out of it again.
fn lock_of<M, T: Playing<M>>(table: Table<M, T>) -> Mutex<ManuallyDrop<Table<M, T>>> {
    Mutex::new(unsafe { ManuallyDrop::new_unchecked(table) })
}
