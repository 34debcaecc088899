//! How a pool is closed.

ghost use Rattle.std.specs.Prelude.{◌≡◌, ◌<◌, ◌≤◌, [], All, ◌⊎◌, IfErr, IfOk, length, map, box_value, vec_capacity, vec_len};
ghost use Rattle.std.specs.Arc.{arc_value};
ghost use Rattle.pool_member.specs.Threads.{IsThread};
ghost use Rattle.pool_c.specs.Closing.{AreEmpty, AreKnown, AreOne, ClosesAs, HasEndedAs, AreTaken, IsLate, IsReady};
ghost use Rattle.pool_c.specs.Holding.{behind};
ghost use Rattle.pool_c.specs.Opening.{ArePut};

use crate::closable::{are_ready, may_close};
use crate::codes::Refusal;
use crate::handle::PoolThread;
use crate::held::{Common, Held};
use crate::opening::{boxes, leave, place};
use pool_member::{CloseMemory, Member, close_all};
use std::alloc::Global;
use std::sync::Arc;

/// What stood as a pool was closed, as `struct pool_end` has it.
#[repr(C)]
#[derive(Clone, Copy, Drop)]
pub struct PoolEnd {
    /// How many chunks were in use.
    pub chunks: u64,
    /// How many watched buffers had a count that was never given back.
    pub leaks: u64,
}

/// Closes the pool whose threads are behind these handles, by number.
pub(crate) fn close(alloc: Global, threads: &mut [PoolThread]) -> Result<PoolEnd, Refusal>
    requires { AreKnown threads.old }
    ensures { ClosesAs threads.old threads.new result }
{
    are_ready(&*threads)?;
    let Ok(all) = Vec::with_capacity(alloc, threads.len()) else {
        return Err(Refusal::NoMemory);
    };
    let all = take_all(alloc, threads, all);
    if let Err(why) = may_close(&all) {
        place(threads, all);
        return Err(why);
    }
    let Ok(room) = CloseMemory::take(alloc, all.len()) else {
        place(threads, all);
        return Err(Refusal::NoMemory);
    };
    close_taken(alloc, threads, all, room)
}

// Takes what is behind each handle.
fn take_all(
    alloc: Global,
    threads: &mut [PoolThread],
    mut all: Vec<Box<Held, Global>>,
) -> Vec<Box<Held, Global>>
    requires ready { All IsReady threads.old }
    requires room { length threads.old ≤ vec_capacity all }
    requires empty { all.items ≡ [] }
    ensures had { ArePut (map box_value result.items) threads.old }
    ensures taken { AreTaken threads.new }
    ensures many { vec_len result ≡ length threads.new }
{
    for thread in threads {
        let Ok(held) = thread.take(alloc) else {
            unreachable!()
        };
        all.push_reserved(held);
    }
    all
}

// Closes the pool of these threads, which are all.
fn close_taken(
    alloc: Global,
    threads: &mut [PoolThread],
    all: Vec<Box<Held, Global>>,
    room: CloseMemory,
) -> Result<PoolEnd, Refusal>
    requires many { vec_len all ≡ length threads.old }
    requires some { 0 < vec_len all }
    requires taken { AreTaken threads.old }
    requires one { AreOne (map box_value all.items) }
    requires empty { (room.members.items ≡ []) × (room.seats.items ≡ [])
        × (room.records.items ≡ []) }
    requires room { (vec_len all ≤ vec_capacity room.members)
        × (vec_len all ≤ vec_capacity room.seats) × (vec_len all ≤ vec_capacity room.records) }
    ensures ended { IfOk result (HasEndedAs (map box_value all.items)) }
    ensures empty { IfOk result (λ _. AreEmpty threads.new) }
    ensures back { IfErr result (λ why. IsLate why
        × (ArePut (map box_value all.items) threads.new ⊎ AreEmpty threads.new)) }
{
    let CloseMemory {
        members,
        seats,
        records,
    } = room;
    let (common, members) = unboxed(all, members);
    let common = match Arc::try_unwrap(common) {
        Ok(common) => common,
        Err(common) => {
            seats.destroy_empty();
            restore(alloc, threads, &common, members);
            return Err(Refusal::Shared);
        }
    };
    let (shared, sizes, lanes, name) = common.apart();
    match close_all(alloc, lanes, shared, members, seats, records) {
        Ok(closed) => {
            empty_all(threads);
            Ok(PoolEnd {
                chunks: closed.chunks.items().len() as u64,
                leaks: closed.leaks.items().len() as u64,
            })
        }
        Err((_why, shared, members)) => {
            let common = Common {
                shared,
                sizes,
                threads: lanes,
                name,
            };
            join_again(alloc, threads, common, members);
            Err(Refusal::NoMemory)
        }
    }
}

// Has these threads share again what they have in common.
fn join_again(alloc: Global, threads: &mut [PoolThread], common: Common, members: Vec<Member>)
    requires many { vec_len members ≡ length threads.old }
    requires taken { AreTaken threads.old }
    requires members { All (IsThread common.shared) members.items }
    ensures { ArePut (map (behind common) members.items) threads.new ⊎ AreEmpty threads.new }
{
    match Arc::new(alloc, common) {
        Ok(common) => restore(alloc, threads, &common, members),
        Err(_no) => {
            leave(members);
            empty_all(threads);
        }
    }
}

// What these threads have in common, and each of them.
fn unboxed(
    mut all: Vec<Box<Held, Global>>,
    mut members: Vec<Member>,
) -> (Arc<Common, Global>, Vec<Member>)
    requires some { 0 < vec_len all }
    requires one { AreOne (map box_value all.items) }
    requires empty { members.items ≡ [] }
    requires room { vec_len all ≤ vec_capacity members }
    ensures threads { All (IsThread (arc_value result.0).shared) result.1.items }
    ensures held { map (behind (arc_value result.0)) result.1.items ≡ map box_value all.items }
{
    let (common, member) = Box::into_inner(all.remove(0)).apart();
    members.push_reserved(member);
    for _more in 0..all.len() {
        let (own, member) = Box::into_inner(all.remove(0)).apart();
        drop(own);
        members.push_reserved(member);
    }
    (common, members)
}

// Puts these threads behind the handles again, or leaves them for want of memory.
fn restore(
    alloc: Global,
    threads: &mut [PoolThread],
    common: &Arc<Common, Global>,
    members: Vec<Member>,
)
    requires many { vec_len members ≡ length threads.old }
    requires taken { AreTaken threads.old }
    requires members { All (IsThread (arc_value common.now).shared) members.items }
    ensures { ArePut (map (behind (arc_value common.now)) members.items) threads.new
        ⊎ AreEmpty threads.new }
{
    match boxes(alloc, common, members) {
        Some(all) => place(threads, all),
        None => empty_all(threads),
    }
}

// Nothing is behind these handles, whose threads were taken, from now on.
fn empty_all(threads: &mut [PoolThread])
    requires { AreTaken threads.old }
    ensures { AreEmpty threads.new }
{
    for thread in threads {
        thread.empty();
    }
}
