//! What all threads count together, and what they tell each other of the buffers that they hand over.

use crate::held::Known;
use buffer_pool::{Closed, Parcel, PoolName};
use std::alloc::Global;
use std::collections::HashMap;
use std::sync::atomic::{AtomicU64, Ordering};
use std::sync::{Mutex, OnceLock, Wait};

/// The counts, what is wrong, and what is on its way.
#[derive(Drop)]
pub struct Tally {
    /// Allocations, and those that were refused.
    pub born: AtomicU64,
    pub refused: AtomicU64,
    /// Buffers that were retained or sliced, that were put into a mail, and that were accepted.
    pub retained: AtomicU64,
    pub posted: AtomicU64,
    pub accepted: AtomicU64,
    /// Releases, and those of the last count.
    pub released: AtomicU64,
    pub ended: AtomicU64,
    wrong: OnceLock<&'static str>,
    sent: Mutex<HashMap<Way, Known>>,
}

// From which thread a parcel goes, to which, and its number there.
type Way = (u32, u32, u64);

impl Tally {
    /// Nothing was done yet.
    pub fn new(alloc: Global) -> Tally {
        Tally {
            born: AtomicU64::new(0),
            refused: AtomicU64::new(0),
            retained: AtomicU64::new(0),
            posted: AtomicU64::new(0),
            accepted: AtomicU64::new(0),
            released: AtomicU64::new(0),
            ended: AtomicU64::new(0),
            wrong: OnceLock::new(),
            sent: Mutex::new(HashMap::new(alloc)),
        }
    }

    /// What isn't as it must be is kept, the first time.
    pub fn must<R: Wait>(&self, rt: &R, is_so: bool, what: &'static str) {
        if !is_so {
            let _first = self.wrong.set(rt, what);
        }
    }

    /// What wasn't as it must be, if anything.
    pub fn wrong(&self) -> Option<&'static str> {
        self.wrong.get().copied()
    }

    /// About how many buffers are on their way.
    pub fn on_way(&self) -> u64 {
        read(&self.posted).saturating_sub(read(&self.accepted))
    }

    /// Tells what is known of a parcel. False for want of memory.
    pub fn tell<B: PoolName, R: Wait>(&self, rt: &R, parcel: &Parcel<B>, known: Known) -> bool {
        self.sent.lock(rt).insert(way_of(parcel), known).is_ok()
    }

    /// What was told of a parcel.
    pub fn told<B: PoolName, R: Wait>(&self, rt: &R, parcel: &Parcel<B>) -> Option<Known> {
        self.sent.lock(rt).remove(&way_of(parcel))
    }

    /// Whether the close tells each buffer that was not given back, and how often it is counted.
    pub fn is_told(&self, closed: &Closed) -> bool {
        let leaks = closed.leaks.items();
        let mut counted = 0u64;
        for leak in leaks {
            counted = counted.saturating_add(leak.count as u64);
        }
        let live = read(&self.born).saturating_sub(read(&self.ended));
        let all = read(&self.born).saturating_add(read(&self.retained));
        leaks.len() as u64 == live && counted == all.saturating_sub(read(&self.released))
    }
}

fn way_of<B: PoolName>(parcel: &Parcel<B>) -> Way {
    (parcel.from(), parcel.to(), parcel.number())
}

/// One more.
pub fn count(of: &AtomicU64) {
    of.fetch_add(1, Ordering::SeqCst);
}

/// How many there are.
pub fn read(of: &AtomicU64) -> u64 {
    of.load(Ordering::SeqCst)
}
