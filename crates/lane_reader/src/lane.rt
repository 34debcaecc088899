//! A lane between two commands: its names, its counts, and how many allocations asked a cache.

ghost use Rattle.std.specs.Prelude.{◌≡◌, ◌+◌, ◌-◌, ◌^◌, ℕ, length, map, option_map, IfSome, OnOk};
ghost use Rattle.std.specs.Option.{option_copied};
ghost use Rattle.pool_law.specs.declared.id.RootId.{RootId};
ghost use Rattle.pool_law.specs.Counts.{count_from};
ghost use Rattle.pool_law.specs.Names.{is_usable, is_counted};
ghost use Rattle.pool_law.specs.LaneStates.{LaneState, new_lane, named, counts};
ghost use Rattle.lane_reader.specs.Reading.{entries};
ghost use Rattle.lane_reader.specs.Viewing.{part_of, bound_of};
ghost use Rattle.std.specs.List.{list_all};
ghost use Rattle.lane_reader.specs.Counting.{count_in, AreWithin};
ghost use Rattle.lane_reader.specs.Bounding.{AreBounded, IsBounded, ChangeIsBounded, UpdateIsBounded};
ghost use Rattle.lane_reader.specs.Standing.{IsLane, AreNames, rebound, changed};

use crate::bound::{Bound, Change, Update};
use crate::counts::Counts;
use crate::log::Log;
use crate::view::Range;
use pool_law::RootId;
use std::alloc::{AllocError, Global};
use std::collections::BTreeMap;

/// The names that are bound, how often each root is counted, and the allocations that asked a cache
/// since the last sweep.
#[derive(Drop)]
pub(crate) struct Lane {
    pub(crate) names: BTreeMap<u32, Bound>,
    pub(crate) counts: Counts,
    pub(crate) asked: u32,
}

impl Lane {
    /// A lane at first.
    pub(crate) fn new(alloc: Global) -> Lane
        ensures { IsLane result new_lane }
    {
        Lane {
            names: BTreeMap::new(alloc),
            counts: Counts::new(alloc),
            asked: 0,
        }
    }

    /// What a name is bound to.
    pub(crate) fn named(&self, name: u32) -> Option<&Bound>
        ensures is { (s : LaneState) → IsLane self.now s
            → named s name ≡ option_map bound_of (option_copied result) }
        ensures bounded { (most : ℕ) → AreBounded most self.now
            → IfSome (option_copied result) (IsBounded most) }
    {
        self.names.get(&name)
    }

    /// Whether the lane counts a root.
    pub(crate) fn counts(&self, root: &RootId) -> bool
        ensures { (s : LaneState) → IsLane self.now s → result ≡ counts s root.now }
    {
        self.counts.of(root) >= 1
    }

    // Whether the lane counts the roots of parts.
    fn counts_all(&self, parts: &[Range]) -> bool
        ensures { (s : LaneState) → IsLane self.now s
            → result ≡ list_all (λ p. counts s p.root) (map part_of parts.now) }
    {
        for part in parts {
            if !self.counts(&part.root) {
                return false;
            }
        }
        true
    }

    /// Whether the lane counts what the bytes of a name need.
    pub(crate) fn is_usable(&self, bound: &Bound) -> bool
        ensures { (s : LaneState) → IsLane self.now s
            → result ≡ is_usable (counts s) (bound_of bound.now) }
    {
        match bound {
            Bound::Plain(view) => self.counts(&view.root),
            Bound::Composed(composite) => {
                composite.count >= 1 && self.counts_all(&composite.parts)
            }
        }
    }

    /// Whether the lane has a count of what is bound.
    pub(crate) fn is_counted(&self, bound: &Bound) -> bool
        ensures { (s : LaneState) → IsLane self.now s
            → result ≡ is_counted (counts s) (bound_of bound.now) }
    {
        match bound {
            Bound::Plain(view) => self.counts(&view.root),
            Bound::Composed(composite) => composite.count >= 1,
        }
    }

    // What a name is bound to changes.
    fn update(&mut self, name: u32, update: Update) -> Result<(), AllocError>
        ensures names { (s : LaneState) → IsLane self.old s
            → OnOk result (AreNames self.new (rebound name update s.names)) }
        ensures bounded { (most : ℕ) → AreBounded most self.old → UpdateIsBounded most update
            → OnOk result (AreBounded most self.new) }
        ensures counts { self.new.counts ≡ self.old.counts }
        ensures asked { self.new.asked ≡ self.old.asked }
    {
        if let Some(bound) = self.names.remove(&name) {
            self.names.insert(name, bound.updated(update))?;
        }
        Ok(())
    }

    /// The names after a command.
    pub(crate) fn change(&mut self, change: Change) -> Result<(), AllocError>
        ensures names { (s : LaneState) → IsLane self.old s
            → OnOk result (AreNames self.new (changed change s.names)) }
        ensures bounded { (most : ℕ) → AreBounded most self.old → ChangeIsBounded most change
            → OnOk result (AreBounded most self.new) }
        ensures counts { self.new.counts ≡ self.old.counts }
        ensures asked { self.new.asked ≡ self.old.asked }
    {
        match change {
            Change::Same => Ok(()),
            Change::Bind { name, bound } => {
                self.names.insert(name, bound)?;
                Ok(())
            }
            Change::Unbind { name } => {
                let _bound = self.names.remove(&name);
                Ok(())
            }
            Change::Update { name, update } => self.update(name, update),
        }
    }

    /// The counts after the notes of a command.
    pub(crate) fn pass(&mut self, log: &Log) -> Result<(), AllocError>
        requires { AreWithin self.old.counts (2 ^ 64 - 1 - length log.now.notes.now) }
        ensures counts { (root : RootId) → OnOk result (count_in self.new.counts root
            ≡ count_from root (count_in self.old.counts root) (entries log.now)) }
        ensures within { (most : ℕ) → AreWithin self.old.counts most
            → OnOk result (AreWithin self.new.counts (most + length log.now.notes.now)) }
        ensures names { self.new.names ≡ self.old.names }
        ensures asked { self.new.asked ≡ self.old.asked }
    {
        for note in log.notes {
            self.counts.pass(note)?;
        }
        Ok(())
    }
}
