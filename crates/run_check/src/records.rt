//! The accesses to a root, and the report of it.

ghost use Rattle.std.specs.Prelude.{◌≡◌, ◌-◌, ◌+◌, ◌++◌, ◌↔◌, false, IsTrue, IfOk, OnOk};
ghost use Rattle.pool_law.specs.Leaks.{keeps_records, accesses};
ghost use Rattle.run_check.specs.Merging.{dones_in};
ghost use Rattle.run_check.specs.Reporting.{accesses_in, access_by, live_after, touched, kept_by, dropped_by, leak_by};

use crate::merging::Done;
use crate::tally::Totals;
use pool_law::{Access, Did, Leak, Level, RootId};
use std::alloc::{AllocError, Global};

// Whether a root is present after a note at its place.
fn live_after(root: &RootId, live: bool, did: &Did) -> bool
    ensures { result ≡ live_after root.now live did.now }
{
    match did {
        Did::Birth {
            root: born,
            region: _,
        } => born == root,
        Did::End(_) => false,
        _ => live,
    }
}

// An access, if it is one to a root that is present.
fn push_access<'a>(all: &mut Vec<Done<'a>>, live: bool, done: &Done<'a>) -> Result<(), AllocError>
    ensures { OnOk result (accesses_in all.new.items
        ≡ accesses_in all.old.items ++ touched live (done.now.lane, done.now.did.now)) }
{
    if !live {
        return Ok(());
    }
    match done.did {
        Did::Set {
            offset: _,
            bytes: _,
        }
        | Did::Get {
            offset: _,
            bytes: _,
        }
        | Did::Touch => all.push(*done)?,
        _ => {}
    }
    Ok(())
}

/// The accesses to a root, in order of its place's history.
pub fn accesses_to<'a>(
    alloc: Global,
    root: &RootId,
    dones: &[Done<'a>],
) -> Result<Vec<Done<'a>>, AllocError>
    ensures { IfOk result (λ all. accesses_in all.items
        ≡ accesses root.now false (dones_in dones.now)) }
{
    let mut all = Vec::new(alloc);
    let mut live = false;
    for done in dones {
        push_access(&mut all, live, done)?;
        live = live_after(root, live, done.did);
    }
    Ok(all)
}

// Whether a record is of this access.
fn is_record(kept: &Access, done: &Done) -> bool
    ensures { IsTrue result ↔ (kept.now ≡ access_by (done.now.lane, done.now.did.now)) }
{
    match done.did {
        Did::Set { offset: at, bytes } => match *kept {
            Access::Set { lane, offset, len } => {
                lane as usize == done.lane && offset == *at && len as usize == bytes.items().len()
            }
            _ => false,
        },
        Did::Get { offset: at, bytes } => match *kept {
            Access::Get { lane, offset, len } => {
                lane as usize == done.lane && offset == *at && len as usize == bytes.items().len()
            }
            _ => false,
        },
        _ => match *kept {
            Access::Touch { lane } => lane as usize == done.lane,
            _ => false,
        },
    }
}

// Whether records are of these accesses.
fn are_records(records: &[Access], dones: &[Done]) -> bool
    ensures { IsTrue result ↔ (records.now ≡ accesses_in dones.now) }
{
    if records.len() != dones.len() {
        return false;
    }
    for at in 0..records.len() {
        if !is_record(&records[at], &dones[at]) {
            return false;
        }
    }
    true
}

// Whether a count is what all retains and releases leave of a root.
fn is_count(count: u32, sums: &Totals) -> bool
    ensures { IsTrue result ↔ (count ≡ (1 + sums.now.retains) - sums.now.releases) }
{
    if sums.releases >= 1 {
        u128::from(count) == sums.retains.saturating_sub(sums.releases - 1)
    } else {
        count >= 1 && u128::from(count - 1) == sums.retains
    }
}

// Whether the records of a leak are the last four accesses, and the others are dropped.
fn keeps_last(leak: &Leak, keeps: bool, dones: &[Done]) -> bool
    ensures { IsTrue result ↔ ((leak.now.records ≡ kept_by keeps (accesses_in dones.now))
        × (leak.now.dropped ≡ dropped_by keeps (accesses_in dones.now))) }
{
    if !keeps {
        return leak.records.items().is_empty() && leak.dropped == 0;
    }
    let dropped = dones.len().saturating_sub(4);
    leak.dropped == dropped as u64 && are_records(leak.records.items(), &dones[dropped..])
}

/// Whether this is the report of a root of this capacity, with these sums and accesses, of which a level keeps the
/// last or none.
pub fn is_leak(
    leak: &Leak,
    level: Level,
    lane: usize,
    serial: u64,
    capacity: usize,
    sums: &Totals,
    dones: &[Done],
) -> bool
    ensures { IsTrue result
        ↔ (leak.now ≡ leak_by level lane serial capacity sums.now (accesses_in dones.now)) }
{
    leak.lane as usize == lane
        && u64::from(leak.serial) == serial
        && leak.capacity as usize == capacity
        && is_count(leak.count, sums)
        && keeps_last(leak, keeps_records(level), dones)
}

// Whether a level keeps the accesses of a sampled root.
fn keeps_records(level: Level) -> bool
    ensures { result ≡ keeps_records level }
{
    match level {
        Level::Disabled | Level::Simple => false,
        Level::Advanced | Level::Paranoid => true,
    }
}
