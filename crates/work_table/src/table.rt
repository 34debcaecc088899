//! The table of machines, from which workers take machines and to which they bring them back.
ghost use Rattle.std.specs.Prelude.{◌≡◌, ℕ, ◌+◌, ◌^◌, ◌<◌, ◌≤◌, [], List, length, map, vec_len, vec_capacity, Some, None, OnSome, IfSome, IfNone, Option};
ghost use Rattle.work_table.specs.Places.{AllStand, BelongsAt, EachCame, empties};

use std::marker::{Brand, Model};
use std::mem;
use std::sync::ledger::{Book, Ledger, Share};

/// Names what is played: which machine has come of which, and how each of them stood at first. Its
/// ledger counts the machines that workers hold.
pub trait Playing<M>: Ledger {
    ghost use Rattle.std.specs.Prelude.{List};

    ghost comes: { M → M → Type 0 };

    ghost firsts: { List M };
}

impl<M> Playing<M> for Brand {
    ghost use Rattle.std.specs.Prelude.{⊤, []};

    ghost comes = { λ first machine. ⊤ };

    ghost firsts = { [] };
}

/// What is known of a machine that stands at its place.
#[derive(Clone, Copy, PartialEq, Eq, Debug)]
pub enum Status {
    /// It can go on.
    Ready,
    /// It could not go on when so many changes had been counted.
    Since(u64),
    Finished,
    /// It found no memory.
    Failed,
}

impl Status {
    /// Whether it can go on, now that so many changes were counted.
    pub fn can_go(self, changes: u64) -> bool {
        match self {
            Status::Ready => true,
            Status::Since(seen) => seen != changes,
            Status::Finished | Status::Failed => false,
        }
    }
}

/// The machines at their places. Contracts see how many places are empty.
pub struct Table<M, T: Playing<M>> {
    places: Vec<Option<M>>,
    statuses: Vec<Status>,
    /// One found no memory.
    failed: bool,
    out: Book<T>,
}

impl<M, T: Playing<M>> Model for Table<M, T> {
    ghost use Rattle.std.specs.Prelude.{◌≡◌, ℕ, length, vec_len};
    ghost use Rattle.work_table.specs.Places.{AllStand, empties};

    ghost Value = { ℕ };

    ghost view = { λ t. t.out.total };

    ghost invariant = { λ t.
        AllStand T.comes T.firsts t.places.items
        × (t.out.total ≡ empties t.places.items)
        × (vec_len t.places ≡ length T.firsts)
        × (vec_len t.statuses ≡ length T.firsts) };
}

impl<M, T: Playing<M>> Table<M, T> {
    /// A machine that can go on, now that so many changes were counted, with its place. The places
    /// are tried from `from` on.
    pub fn take(&mut self, from: usize, changes: u64, mine: &mut Share<T>) -> Option<(usize, M)>
        requires { 0 < mine.old.parts }
        ensures machine { IfSome result
            (λ r. BelongsAt T.comes T.firsts r.0 r.1) }
        ensures place { IfSome result (λ r. r.0 + 1 < 2 ^ 64) }
        ensures some { OnSome result (mine.new.amount ≡ mine.old.amount + 1) }
        ensures none { IfNone result (mine.new.amount ≡ mine.old.amount) }
        ensures parts { mine.new.parts ≡ mine.old.parts }
    {
        let at = self.next(from, changes)?;
        if self.places[at].is_none() {
            return None;
        }
        let Some(machine) = self.places[at].take() else {
            unreachable!()
        };
        self.out.add(mine, 1);
        Some((at, machine))
    }

    /// Brings a machine back to its place. Where the place is not empty the machine is handed back.
    pub fn put(&mut self, at: usize, machine: M, status: Status, mine: &mut Share<T>) -> Option<M>
        requires machine { BelongsAt T.comes T.firsts at machine }
        requires amount { 0 < mine.old.amount }
        ensures put { IfNone result (mine.new.amount + 1 ≡ mine.old.amount) }
        ensures kept { IfSome result
            (λ m. (m ≡ machine) × (mine.new.amount ≡ mine.old.amount)) }
        ensures parts { mine.new.parts ≡ mine.old.parts }
    {
        if at >= self.places.len() || self.places[at].is_some() {
            return Some(machine);
        }
        fill(&mut self.places[at], machine);
        self.statuses[at] = status;
        self.failed |= status == Status::Failed;
        self.out.sub(mine, 1);
        None
    }

    /// Ends the play: one that is not in the table found no memory.
    pub fn fail(&mut self) {
        self.failed = true;
    }

    /// Whether all machines stand there finished, or one found no memory.
    pub fn is_over(&self) -> bool {
        if self.failed {
            return true;
        }
        for status in &self.statuses {
            if *status != Status::Finished {
                return false;
            }
        }
        true
    }

    /// How many machines it is for.
    pub fn count(&self) -> usize {
        self.places.len()
    }

    /// Whether one found no memory.
    pub fn has_failed(&self) -> bool {
        self.failed
    }

    /// The table with all machines in it, and the list that held them, empty.
    pub fn of(
        machines: Vec<M>,
        places: Vec<Option<M>>,
        statuses: Vec<Status>,
        out: Book<T>,
    ) -> (Table<M, T>, Vec<M>)
        requires machines { EachCame T.comes T.firsts machines.items }
        requires count { vec_len machines ≡ length T.firsts }
        requires places { (places.items ≡ []) × (vec_len machines ≤ vec_capacity places) }
        requires statuses { vec_len statuses ≡ length T.firsts }
        requires out { out.total ≡ 0 }
        ensures { (result.1.items ≡ []) × (length T.firsts ≤ vec_capacity result.1) }
    {
        let (places, machines) = into_places(machines, places);
        let table = Table {
            places,
            statuses,
            failed: false,
            out,
        };
        (table, machines)
    }

    /// All machines, by place. The share has every part of the ledger, and stands for no machine
    /// that is out.
    pub fn into_machines(self, machines: Vec<M>, mut all: Share<T>) -> Vec<M>
        requires all { (all.parts ≡ T.parts) × (all.amount ≡ 0) }
        requires room { (machines.items ≡ []) × (length T.firsts ≤ vec_capacity machines) }
        ensures machines { EachCame T.comes T.firsts result.items }
        ensures count { vec_len result ≡ length T.firsts }
    {
        let Table {
            places,
            statuses: _,
            failed: _,
            mut out,
        } = self;
        out.audit(&mut all);
        out_of_places(places, machines)
    }

    // The place of a machine that can go on.
    fn next(&self, from: usize, changes: u64) -> Option<usize>
        ensures { IfSome result (λ i. i < length T.firsts) }
    {
        let count = self.places.len();
        let mut found = None;
        for i in 0..count {
            if self.places[i].is_some() && self.statuses[i].can_go(changes) {
                if i >= from {
                    return Some(i);
                }
                if found.is_none() {
                    found = Some(i);
                }
            }
        }
        found
    }
}

// Puts a machine into an empty place.
fn fill<M>(place: &mut Option<M>, machine: M)
    requires { place.old ≡ None }
    ensures { place.new ≡ Some machine }
{
    match mem::replace(place, Some(machine)) {
        None => {}
        Some(_) => unreachable!(),
    }
}

// Moves the machines to places.
fn into_places<M>(mut machines: Vec<M>, mut places: Vec<Option<M>>) -> (Vec<Option<M>>, Vec<M>)
    requires { (places.items ≡ []) × (vec_len machines ≤ vec_capacity places) }
    ensures places { result.0.items ≡ map Some machines.items }
    ensures count { vec_len result.0 ≡ vec_len machines }
    ensures empty { (result.1.items ≡ []) × (vec_len machines ≤ vec_capacity result.1) }
{
    let count = machines.len();
    for _i in 0..count {
        let machine = machines.remove(0);
        places.push_reserved(Some(machine));
    }
    (places, machines)
}

// Moves the machines from their places, of which none is empty.
fn out_of_places<M>(mut places: Vec<Option<M>>, mut machines: Vec<M>) -> Vec<M>
    requires whole { empties places.items ≡ 0 }
    requires room { (machines.items ≡ []) × (vec_len places ≤ vec_capacity machines) }
    ensures { map Some result.items ≡ places.items }
{
    let count = places.len();
    for _i in 0..count {
        match places.remove(0) {
            Some(machine) => machines.push_reserved(machine),
            None => unreachable!(),
        }
    }
    places.destroy_empty();
    machines
}
