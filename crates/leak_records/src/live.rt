//! What the end of a pool tells of the sampled roots that are live.

ghost use Rattle.std.specs.Prelude.{◌≡◌, map, IfOk};
ghost use Rattle.leak_records.specs.Reports.{leak_of, IsReport};

use pool_law::{Items, Leak, LeakList, Records, Watch};
use std::alloc::{AllocError, Global};

/// A sampled root that is live at the end, with the watch of its birth. `count` is its count over
/// all seats and parcels. Of its accesses the last four are kept and the others dropped, where its
/// watch keeps any.
#[derive(Drop)]
pub struct LiveRoot {
    pub capacity: u32,
    pub count: u32,
    pub watch: Watch,
    pub records: Records,
    pub dropped: u64,
}

/// The sampled roots that are live, by root place.
pub type LiveList = Items<LiveRoot>;

/// The report of leaks: each live root once, by the lane of its birth and then its serial.
pub fn report(alloc: Global, live: &LiveList) -> Result<LeakList, AllocError>
    ensures { IfOk result (λ leaks. IsReport live.now leaks) }
{
    let mut leaks = all_leaks(alloc, live.items())?;
    leaks.sort_by_key(|leak| (leak.lane, leak.serial))?;
    Ok(LeakList::of(leaks))
}

// What is reported of each live root, by root place.
fn all_leaks(alloc: Global, live: &[LiveRoot]) -> Result<Vec<Leak>, AllocError>
    ensures { IfOk result (λ leaks. leaks.items ≡ map leak_of live.now) }
{
    let mut leaks = Vec::with_capacity(alloc, live.len())?;
    for root in live {
        leaks.push(leak(alloc, root)?)?;
    }
    Ok(leaks)
}

// What is reported of one live root.
fn leak(alloc: Global, root: &LiveRoot) -> Result<Leak, AllocError>
    ensures { IfOk result (λ leak. leak ≡ leak_of root.now) }
{
    let records = Vec::from_slice(alloc, root.records.items())?;
    Ok(Leak {
        lane: root.watch.lane,
        serial: root.watch.serial,
        capacity: root.capacity,
        count: root.count,
        records: Records::of(records),
        dropped: root.dropped,
    })
}
