//! How a pool and its threads begin.

ghost use Rattle.std.specs.Prelude.{◌≡◌, ◌*◌, ◌<◌, ◌≤◌, ◌^◌, [], All, IfOk, map, vec_capacity, vec_len};
ghost use Rattle.pool_law.specs.Limits.{IsShape, geometry_of};
ghost use Rattle.pool_member.specs.Opening.{AreNew, AreNewThreads, ArePaired, IsNew};
ghost use Rattle.pool_member.specs.Threads.{HasOwnChannels, IsSettled, IsThread};

use crate::account::Account;
use crate::counts::OwnCounts;
use crate::member::Member;
use crate::pending::Unsettled;
use crate::watcher::Watcher;
use pool_law::Shape;
use pool_table::Layout;
use shared_pool::{PoolSeat, SharedPool};
use size_classes::SizeClasses;
use std::alloc::{AllocError, Global};

/// A pool whose letters go by channels of its user, and its threads, by number.
pub fn new_pool(
    alloc: Global,
    layout: Layout,
) -> Result<(SharedPool, SizeClasses, Vec<Member>), AllocError>
    requires shape { IsShape layout.shape }
    requires moves { layout.shape.lanes * layout.moves < 2 ^ 30 }
    requires turns { layout.shape.lanes * layout.turns < 2 ^ 62 }
    ensures layout { IfOk result (λ r. r.0.table.layout ≡ layout) }
    ensures sizes { IfOk result (λ r. r.1 ≡ geometry_of layout.shape) }
    ensures own { IfOk result (λ r. HasOwnChannels r.0) }
    ensures members { IfOk result (λ r. All (IsThread r.0) r.2.items) }
    ensures new { IfOk result (λ r. AreNewThreads layout r.2.items) }
{
    let lanes = layout.shape.lanes;
    let sizes = SizeClasses::new(alloc, layout.shape.order, layout.shape.page)?;
    let mail = vec![in alloc; 0u32; (lanes * lanes) as usize]?;
    let accounts = new_accounts(alloc, &layout)?;
    let members = Vec::with_capacity(alloc, lanes as usize)?;
    match SharedPool::new(alloc, layout, mail.as_slice()) {
        Ok((shared, seats)) => {
            let members = members_of(&shared, &layout.shape, seats, accounts, members);
            Ok((shared, sizes, members))
        }
        Err(AllocError) => {
            members.destroy_empty();
            Err(AllocError)
        }
    }
}

// The accounts of threads that did nothing yet, by number.
fn new_accounts(alloc: Global, layout: &Layout) -> Result<Vec<Account>, AllocError>
    requires shape { IsShape layout.now.shape }
    ensures { IfOk result (λ accounts. AreNew layout.now accounts.items) }
{
    let lanes = layout.shape.lanes;
    let mut accounts = Vec::with_capacity(alloc, lanes as usize)?;
    for lane in 0..lanes {
        accounts.push(new_account(alloc, layout, lane)?)?;
    }
    Ok(accounts)
}

// The account of a thread that did nothing yet.
fn new_account(alloc: Global, layout: &Layout, lane: u32) -> Result<Account, AllocError>
    requires shape { IsShape layout.now.shape }
    ensures { IfOk result (IsNew layout.now lane) }
{
    let lanes = layout.shape.lanes;
    Ok(Account {
        lane,
        turns: layout.turns,
        moves: layout.moves,
        counts: OwnCounts::new(alloc, lanes * layout.shape.handles)?,
        received: vec![in alloc; 0u64; lanes as usize]?,
    })
}

// The threads with these seats and accounts.
fn members_of(
    pool: &SharedPool,
    shape: &Shape,
    mut seats: Vec<PoolSeat>,
    mut accounts: Vec<Account>,
    mut members: Vec<Member>,
) -> Vec<Member>
    requires paired { ArePaired pool.now accounts.items seats.items }
    requires interval { 1 ≤ shape.now.interval }
    requires empty { members.items ≡ [] }
    requires room { vec_len seats ≤ vec_capacity members }
    ensures members { All (IsThread pool.now) result.items }
    ensures accounts { map (λ m. m.account) result.items ≡ accounts.items }
    ensures seats { map (λ m. m.seat) result.items ≡ seats.items }
    ensures settled { All IsSettled result.items }
{
    for _made in 0..seats.len() {
        let seat = seats.remove(0);
        let account = accounts.remove(0);
        let watcher = Watcher::new(account.lane, shape);
        members.push_reserved(Member {
            seat,
            account,
            pending: Unsettled::nothing(),
            watcher,
        });
    }
    seats.destroy_empty();
    members
}
