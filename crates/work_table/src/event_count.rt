//! Wakes workers that have nothing to do. (Reed and Kanodia: an event count)
use std::sync::Wait;
use std::sync::atomic::{AtomicU64, Ordering};

/// Counts changes, and wakes who waits for one.
/// Who waits is counted in `asleep` before the count is compared, and who counts a change reads
/// `asleep` behind that.
#[derive(Drop)]
pub struct EventCount {
    changes: AtomicU64,
    asleep: AtomicU64,
    /// How many threads have begun to help.
    helpers: AtomicU64,
}

impl EventCount {
    /// No change was counted, and no thread has begun to help.
    pub fn new() -> EventCount {
        EventCount {
            changes: AtomicU64::new(0),
            asleep: AtomicU64::new(0),
            helpers: AtomicU64::new(0),
        }
    }

    /// A thread begins to help: a change.
    pub fn begin(&self) {
        self.helpers.fetch_add(1, Ordering::SeqCst);
        self.advance();
    }

    /// Whether a thread has begun to help.
    pub fn has_help(&self) -> bool {
        self.helpers.load(Ordering::SeqCst) != 0
    }

    /// How many changes were counted, wrapping.
    pub fn read(&self) -> u64 {
        self.changes.load(Ordering::SeqCst)
    }

    /// Counts a change and wakes all who wait. Answers how many were counted before.
    pub fn advance(&self) -> u64 {
        let before = self.changes.fetch_add(1, Ordering::SeqCst);
        if self.asleep.load(Ordering::SeqCst) != 0 {
            self.changes.wake_all();
        }
        before
    }

    /// Sleeps until more changes than `seen` were counted. It may also return for no reason.
    pub fn wait<R: Wait>(&self, rt: &R, seen: u64) {
        self.asleep.fetch_add(1, Ordering::SeqCst);
        self.changes.park(rt, (seen & 0xffff_ffff) as u32);
        self.asleep.fetch_sub(1, Ordering::SeqCst);
    }
}
