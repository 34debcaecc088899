//! Whether lanes count roots as they must.

ghost use Rattle.std.specs.Prelude.{◌≡◌, ◌+◌, ◌<◌, ◌≤◌, ◌^◌, ◌↔◌, true, length, IsTrue, IfOk, MatchOption};
ghost use Rattle.pool_law.specs.declared.id.RootId.{RootId};
ghost use Rattle.pool_law.specs.Counts.{root_is, note_needs, CountsHold, LookHolds};
ghost use Rattle.pool_law.specs.Legal.{LookAt, LooksHold};
ghost use Rattle.lane_reader.specs.Counting.{count_in};
ghost use Rattle.run_check.specs.Needing.{EndHolds, NeedsHold};
ghost use Rattle.run_check.specs.Placing.{BreaksAt};
ghost use Rattle.lane_reader.specs.Reading.{entry, entries};
ghost use Rattle.run_check.specs.Tallying.{sums_in, others_sum};

use crate::tally::{Sums, Tally, others_of};
use lane_reader::{Counts, Log};
use object_steps::PlaceTold;
use pool_law::{Did, Note, RefDid, RootId};
use std::alloc::{AllocError, Global};

// The root that a note needs, if it needs one.
fn needed(note: &Note) -> Option<RootId>
    ensures { (root : RootId) → note_needs root note.now ≡ root_is root result }
{
    match note {
        Note::Ref { root, did } => match did {
            RefDid::Born | RefDid::Vacated => None,
            _ => Some(*root),
        },
        Note::At {
            object: _,
            number: _,
            did,
        } => match did {
            Did::Post(parcel) => match parcel.view {
                Some(view) => Some(view.root),
                None => None,
            },
            _ => None,
        },
        Note::Busy(_) => None,
    }
}

// Whether a root, if there is one, is counted.
fn is_counted(counts: &Counts, root: &Option<RootId>) -> bool
    ensures { IsTrue result
        ↔ ((r : RootId) → root_is r root.now ≡ true → 1 ≤ count_in counts.now r) }
{
    match root {
        Some(root) => counts.of(root) >= 1,
        None => true,
    }
}

// Whether a note that ends a count leaves none.
fn ends_well(counts: &Counts, note: &Note) -> bool
    ensures { IsTrue result
        ↔ ((root : RootId) → EndHolds root (count_in counts.now root) note.now) }
{
    match note {
        Note::Ref { root, did } => match did {
            RefDid::Ended => counts.of(root) <= 1,
            _ => true,
        },
        _ => true,
    }
}

// Whether a lane with these counts may note this.
fn may_note(counts: &Counts, note: &Note, told: &PlaceTold) -> bool
    ensures { IsTrue result
        ↔ ((root : RootId) → NeedsHold root (count_in counts.now root) (entry note.now told.now)) }
{
    is_counted(counts, &needed(note)) && is_counted(counts, &told.root) && ends_well(counts, note)
}

/// The place of the first note by which a lane uses a root that it doesn't count, or ends one that it still
/// counts, if there is one.
pub fn miscounted_at(alloc: Global, log: &Log) -> Result<Option<usize>, AllocError>
    requires { length log.now.told.now ≡ length log.now.notes.now }
    ensures { IfOk result (λ found. MatchOption found
        ((root : RootId) → CountsHold root 0 (entries log.now))
        (BreaksAt (λ es. (root : RootId) → CountsHold root 0 es) (entries log.now))) }
{
    let mut counts = Counts::new(alloc);
    for at in 0..log.notes.len() {
        let note = &log.notes[at];
        if !may_note(&counts, note, &log.told[at]) {
            return Ok(Some(at));
        }
        counts.pass(note)?;
    }
    Ok(None)
}

// Whether a count that a lane with these sums looks up is in its bounds.
fn is_within(found: u64, count: u64, sums: &Sums, others: u128) -> bool
    requires { others + 2 ^ 64 < 2 ^ 128 }
    ensures { (root : RootId) → IsTrue result
        ↔ LookHolds root sums.now.retains sums.now.releases count others found }
{
    let least = u128::from(found) + u128::from(sums.releases);
    let most = u128::from(sums.retains) + others + 1;
    count <= found && least <= most
}

// Whether what a lane looks up is in its bounds.
fn look_holds(counts: &Counts, own: &Tally, tallies: &[Tally], lane: usize, note: &Note) -> bool
    ensures { IsTrue result ↔ ((root : RootId) → LookAt root
        (sums_in own.now root).retains (sums_in own.now root).releases
        (count_in counts.now root) (others_sum root lane 0 tallies.now) note.now) }
{
    let Note::Ref { root, did } = note else {
        return true;
    };
    let RefDid::Look(found) = did else {
        return true;
    };
    let sums = own.of(root);
    let count = counts.of(root);
    let others = others_of(tallies, root, lane);
    is_within(u64::from(*found), count, &sums, others)
}

/// The place of the first note by which a lane looks up of a root what is not in its bounds, if there is one.
pub fn mislooked_at(
    alloc: Global,
    tallies: &[Tally],
    lane: usize,
    log: &Log,
) -> Result<Option<usize>, AllocError>
    ensures { IfOk result (λ found. MatchOption found
        ((root : RootId)
        → LooksHold root (others_sum root lane 0 tallies.now) 0 0 0 (entries log.now))
        (BreaksAt (λ es. (root : RootId)
        → LooksHold root (others_sum root lane 0 tallies.now) 0 0 0 es) (entries log.now))) }
{
    let mut counts = Counts::new(alloc);
    let mut own = Tally::new(alloc);
    for (at, note) in log.notes.iter().enumerate() {
        if !look_holds(&counts, &own, tallies, lane, note) {
            return Ok(Some(at));
        }
        counts.pass(note)?;
        own.pass(note)?;
    }
    Ok(None)
}
