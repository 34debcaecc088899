//! How a pool is closed with its threads.

ghost use Rattle.std.specs.Prelude.{◌≡◌, ◌≤◌, [], All, IfErr, IfOk, IsTrue, ◌↔◌, map, vec_capacity, vec_len};
ghost use Rattle.size_classes.specs.Sizes.{below};
ghost use Rattle.pool_law.specs.Legal.{ends_from};
ghost use Rattle.shared_pool.specs.Closing.{logs_in};
ghost use Rattle.shared_pool.specs.Live.{AreLiveRoots};
ghost use Rattle.pool_member.specs.Closing.{AreAll, AreAllOf, MayRefuse, parts_of, records_of};
ghost use Rattle.pool_member.specs.Threads.{IsSettled, IsThread};

use crate::account::Account;
use crate::answers::{CloseNo, Closed};
use crate::member::Member;
use crate::pending::Unsettled;
use crate::watcher::Watcher;
use crate::work::settling::{is_nothing, spend};
use shared_pool::{PoolSeat, SharedPool};
use std::alloc::{AllocError, Global};

/// What a thread keeps beside its seat.
#[derive(Drop)]
pub struct Records {
    /// What it counts, and what it has left.
    pub account: Account,
    /// Which of its allocations are watched.
    pub watcher: Watcher,
}

/// The memory for the close of a pool: three empty lists with room for each of its threads.
pub struct CloseMemory {
    /// For the threads.
    pub members: Vec<Member>,
    /// For their seats.
    pub seats: Vec<PoolSeat>,
    /// For what they keep beside their seats.
    pub records: Vec<Records>,
}

impl CloseMemory {
    /// That for so many threads.
    pub fn take(alloc: Global, threads: usize) -> Result<CloseMemory, AllocError>
        ensures empty { IfOk result (λ r. (r.members.items ≡ []) × (r.seats.items ≡ [])
            × (r.records.items ≡ [])) }
        ensures room { IfOk result (λ r. (threads ≤ vec_capacity r.members)
            × (threads ≤ vec_capacity r.seats) × (threads ≤ vec_capacity r.records)) }
    {
        let records = Vec::with_capacity(alloc, threads)?;
        let members = Vec::with_capacity(alloc, threads)?;
        let Ok(seats) = Vec::with_capacity(alloc, threads) else {
            members.destroy_empty();
            return Err(AllocError);
        };
        Ok(CloseMemory {
            members,
            seats,
            records,
        })
    }
}

/// Closes the pool of so many threads with these, if they are all, by number, in these lists. A
/// refusal hands the pool and the threads back as they were.
pub fn close_all(
    alloc: Global,
    lanes: u32,
    shared: SharedPool,
    members: Vec<Member>,
    seats: Vec<PoolSeat>,
    records: Vec<Records>,
) -> Result<Closed, (CloseNo, SharedPool, Vec<Member>)>
    requires lanes { lanes ≡ shared.table.layout.shape.lanes }
    requires members { All (IsThread shared) members.items }
    requires empty { (seats.items ≡ []) × (records.items ≡ []) }
    requires room { (vec_len members ≤ vec_capacity seats)
        × (vec_len members ≤ vec_capacity records) }
    ensures all { IfOk result (λ closed. AreAll shared members.items) }
    ensures chunks { IfOk result (λ closed. let shape = shared.table.layout.shape in
        closed.chunks ≡ ends_from shape (logs_in (parts_of members.items)) (below shape.arenas)) }
    ensures leaks { IfOk result (λ closed. AreLiveRoots (parts_of members.items) closed.leaks) }
    ensures cause { IfErr result (λ back. MayRefuse shared members.items back.0) }
    ensures back { IfErr result (λ back.
        (back.1 ≡ shared) × (back.2.items ≡ members.items)) }
{
    if !are_all(lanes, &members) {
        seats.destroy_empty();
        return Err((CloseNo::Threads, shared, members));
    }
    if !are_settled(&members) {
        seats.destroy_empty();
        return Err((CloseNo::Unsettled, shared, members));
    }
    let (seats, records, members) = parted(members, seats, records);
    match shared.close_at_once(alloc, seats) {
        Ok(end) => {
            members.destroy_empty();
            Ok(Closed {
                chunks: end.chunks,
                leaks: end.live,
            })
        }
        Err((shared, seats)) => {
            let members = joined(seats, records, members);
            Err((CloseNo::Memory, shared, members))
        }
    }
}

// Whether these are all threads, in the order of their numbers.
fn are_all(lanes: u32, members: &[Member]) -> bool
    ensures { IsTrue result ↔ AreAllOf lanes members.now }
{
    if members.len() != lanes as usize {
        return false;
    }
    for lane in 0..lanes {
        if members[lane as usize].account.lane != lane {
            return false;
        }
    }
    true
}

// Whether none of these threads has anything to put away.
fn are_settled(members: &[Member]) -> bool
    ensures { IsTrue result ↔ All IsSettled members.now }
{
    for member in members {
        if !is_nothing(&member.pending) {
            return false;
        }
    }
    true
}

// The seats of these threads and the rest of each, and the list that had them, emptied.
fn parted(
    mut members: Vec<Member>,
    mut seats: Vec<PoolSeat>,
    mut records: Vec<Records>,
) -> (Vec<PoolSeat>, Vec<Records>, Vec<Member>)
    requires settled { All IsSettled members.items }
    requires empty { (seats.items ≡ []) × (records.items ≡ []) }
    requires room { (vec_len members ≤ vec_capacity seats)
        × (vec_len members ≤ vec_capacity records) }
    ensures seats { result.0.items ≡ map (λ m. m.seat) members.items }
    ensures records { result.1.items ≡ map records_of members.items }
    ensures left { (result.2.items ≡ []) × (vec_len result.0 ≤ vec_capacity result.2) }
{
    for _made in 0..members.len() {
        let Member {
            seat,
            account,
            pending,
            watcher,
        } = members.remove(0);
        spend(pending.into_pending());
        seats.push_reserved(seat);
        records.push_reserved(Records { account, watcher });
    }
    (seats, records, members)
}

// The threads with these seats and the rest of each, in a list with room for them.
fn joined(
    mut seats: Vec<PoolSeat>,
    mut records: Vec<Records>,
    mut members: Vec<Member>,
) -> Vec<Member>
    requires many { vec_len seats ≡ vec_len records }
    requires empty { members.items ≡ [] }
    requires room { vec_len seats ≤ vec_capacity members }
    ensures settled { All IsSettled result.items }
    ensures seats { map (λ m. m.seat) result.items ≡ seats.items }
    ensures records { map records_of result.items ≡ records.items }
{
    for _made in 0..seats.len() {
        let seat = seats.remove(0);
        let Records { account, watcher } = records.remove(0);
        members.push_reserved(Member {
            seat,
            account,
            pending: Unsettled::nothing(),
            watcher,
        });
    }
    seats.destroy_empty();
    members
}
