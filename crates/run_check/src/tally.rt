//! How often logs note each root's birth, retains, releases and end.

ghost use Rattle.std.specs.Prelude.{◌≡◌, ◌+◌, ◌-◌, ◌<◌, ◌==◌, ◌^◌, IfOk, OnOk, if◌then◌else◌};
ghost use Rattle.std.specs.List.{AllZip};
ghost use Rattle.pool_law.specs.declared.id.RootId.{RootId};
ghost use Rattle.pool_law.specs.Same.{same_root};
ghost use Rattle.run_check.specs.Tallying.{no_sums, sums_in, sums_after, sums_from, total_sums, others_sum, AreAtMost, IsTally};

mod root_sums;

use pool_law::{Did, LaneLog, Note, RootId};
use std::alloc::{AllocError, Global};
use std::collections::BTreeMap;

/// How often a log notes a root to be born, to have its word set, retained, released, and ended.
#[derive(Clone, Copy, Drop)]
pub struct Sums {
    pub births: u64,
    pub borns: u64,
    pub retains: u64,
    pub releases: u64,
    pub ends: u64,
}

/// How often all logs do.
#[derive(Clone, Copy, Drop)]
pub struct Totals {
    pub births: u128,
    pub borns: u128,
    pub retains: u128,
    pub releases: u128,
    pub ends: u128,
}

/// The sums of each root, by place, generation and capacity.
#[derive(Drop)]
pub struct Tally {
    map: BTreeMap<(u32, u32, u32), Sums>,
}

impl Tally {
    /// Nothing is noted.
    pub fn new(alloc: Global) -> Tally
        ensures { (root : RootId) → sums_in result root ≡ no_sums }
    {
        Tally {
            map: BTreeMap::new(alloc),
        }
    }

    /// The sums of a root.
    pub fn of(&self, root: &RootId) -> Sums
        ensures { result ≡ sums_in self.now root.now }
    {
        let key = (root.place, root.generation, root.capacity);
        match self.map.get(&key) {
            Some(sums) => *sums,
            None => Sums::none(),
        }
    }

    // A root has these sums.
    fn put(&mut self, root: &RootId, sums: Sums) -> Result<(), AllocError>
        ensures { (other : RootId) → OnOk result (sums_in self.new other
            ≡ (if same_root root.now other then sums else sums_in self.old other)) }
    {
        let key = (root.place, root.generation, root.capacity);
        self.map.insert(key, sums)?;
        Ok(())
    }

    /// The sums after a note.
    pub fn pass(&mut self, note: &Note) -> Result<(), AllocError>
        requires { (root : RootId) → AreAtMost (2 ^ 64 - 2) (sums_in self.old root) }
        ensures { (other : RootId) → OnOk result (sums_in self.new other
            ≡ sums_after other (sums_in self.old other) note.now) }
    {
        match note {
            Note::Ref { root, did } => {
                let sums = self.of(root).step(*did);
                self.put(root, sums)
            }
            Note::At {
                object: _,
                number: _,
                did,
            } => match did {
                Did::Birth { root, region: _ } => {
                    let sums = self.of(root).more_births();
                    self.put(root, sums)
                }
                _ => Ok(()),
            },
            Note::Busy(_) => Ok(()),
        }
    }

    /// The sums of a log.
    pub fn of_notes(alloc: Global, notes: &[Note]) -> Result<Tally, AllocError>
        ensures { (root : RootId) → IfOk result (λ tally.
            sums_in tally root ≡ sums_from root no_sums notes.now) }
    {
        let mut tally = Tally::new(alloc);
        for note in notes {
            tally.pass(note)?;
        }
        Ok(tally)
    }
}

/// The sums of each log.
pub fn tallies_of(alloc: Global, logs: &[LaneLog]) -> Result<Vec<Tally>, AllocError>
    ensures { IfOk result (λ tallies. AllZip IsTally tallies.items logs.now) }
{
    let mut tallies = Vec::new(alloc);
    for log in logs {
        let tally = Tally::of_notes(alloc, log.notes.items())?;
        tallies.push(tally)?;
    }
    Ok(tallies)
}

/// The sums of a root over all logs.
pub fn total_of(tallies: &[Tally], root: &RootId) -> Totals
    ensures { result ≡ total_sums tallies.now root.now }
{
    let mut totals = Totals::none();
    for tally in tallies {
        totals = totals.plus(&tally.of(root));
    }
    totals
}

// The retains of a root in the log at a place, and 0 for this lane's.
fn other_retains(tally: &Tally, root: &RootId, at: usize, lane: usize) -> u64
    ensures { result ≡ (if at == lane then 0 else (sums_in tally.now root.now).retains) }
{
    if at == lane {
        0
    } else {
        tally.of(root).retains
    }
}

/// The retains of a root in the logs other than this lane's. The sum with those of one more log has
/// 128 bits too.
pub fn others_of(tallies: &[Tally], root: &RootId, lane: usize) -> u128
    ensures sum { result ≡ others_sum root.now lane 0 tallies.now }
    ensures room { result + 2 ^ 64 < 2 ^ 128 }
{
    let mut all = 0;
    for at in 0..tallies.len() {
        let more = other_retains(&tallies[at], root, at, lane);
        all += u128::from(more);
    }
    all
}
