//! The accesses to one root: the last four are kept, the others counted.

ghost use Rattle.std.specs.Prelude.{◌≡◌, ◌<◌, ◌^◌, List, [], ◌∷◌, ◌++◌, IfOk, slice_get};
ghost use Rattle.pool_law.specs.declared.report.Access.{Access};

use circular_buffer::HeapCircularBuffer;
use pool_law::{Access, Watch};
use std::alloc::{AllocError, Global};
use std::marker::Model;

/// How many accesses are kept.
const KEPT: usize = 4;

/// The watch of a root, and the last accesses to it (Netty: `ResourceLeakTracker`).
///
/// It serves the roots of one place, one after another.
#[derive(Drop)]
pub struct Tracker {
    watch: Option<Watch>,
    records: HeapCircularBuffer<Access>,
    dropped: u64,
}

impl Model for Tracker {
    ghost use Rattle.std.specs.Prelude.{◌≡◌, ◌≤◌, length};
    ghost use Rattle.leak_records.specs.Records.{Tracked};

    ghost Value = { Tracked };

    ghost view = { λ t. record { watch = t.watch; kept = t.records.items; dropped = t.dropped } };

    ghost invariant = { λ t. (t.records.capacity ≡ 4) × (length t.records.items ≤ 4) };
}

impl Tracker {
    ghost use Rattle.leak_records.specs.Records.{new_tracker, is_keeping, with_access, HasRecords};

    /// A tracker that watches nothing.
    pub fn new(alloc: Global) -> Result<Tracker, AllocError>
        ensures { IfOk result (λ t. t ≡ new_tracker None) }
    {
        let records = HeapCircularBuffer::with_capacity(alloc, KEPT)?;
        Ok(Tracker {
            watch: None,
            records,
            dropped: 0,
        })
    }

    /// Forgets the root before, and begins with this watch of the next.
    #[tactic(auto, using(crate::proofs::RecordLaws::records_new))]
    pub fn start(&mut self, watch: Option<Watch>)
        ensures new { self.new ≡ new_tracker watch }
        ensures records { HasRecords [] self.new }
    {
        self.watch = watch;
        self.records.clear();
        self.dropped = 0;
    }

    /// The watch with which it was started.
    pub fn watch(&self) -> Option<Watch>
        ensures { result ≡ self.now.watch }
    {
        self.watch
    }

    /// Adds an access to the root. Nothing is kept or counted where the watch keeps no accesses.
    #[tactic(auto, using(crate::proofs::RecordLaws::records_more))]
    pub fn add(&mut self, access: Access)
        requires { self.old.dropped < 2 ^ 63 }
        ensures access { self.new ≡ with_access self.old access }

        // So it has what is kept of all accesses since it was started.
        ensures records { (all : List Access) → HasRecords all self.old →
            HasRecords (all ++ access ∷ []) self.new }
    {
        if !self.is_keeping() {
            return;
        }
        if self.records.is_full() {
            self.dropped += 1;
        }
        let _ = self.records.push_back(access);
    }

    /// The kept access at the index. The oldest has index 0.
    pub fn kept(&self, i: u32) -> Option<Access>
        ensures { result ≡ slice_get self.now.kept i }
    {
        self.records.get(i as usize).copied()
    }

    /// How many accesses were added and are not kept.
    pub fn dropped(&self) -> u64
        ensures { result ≡ self.now.dropped }
    {
        self.dropped
    }

    // Whether the watch keeps accesses.
    fn is_keeping(&self) -> bool
        ensures { result ≡ is_keeping self.now.watch }
    {
        match self.watch {
            Some(watch) => watch.keeps,
            None => false,
        }
    }
}
