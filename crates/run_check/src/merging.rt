//! The history of an object, merged from the notes of all lanes.

ghost use Rattle.std.specs.Prelude.{◌≡◌, [], ◌∷◌, ◌<◌, ◌≤◌, ℕ, drop, length, ◌↔◌, IsTrue, IfOk, MatchOption, MatchResult};
ghost use Rattle.std.specs.List.{All};
ghost use Rattle.run_check.specs.Gathering.{AreNumbered, note_data, notes_data, left_of};
ghost use Rattle.run_check.specs.Merging.{dones_in};
ghost use Rattle.run_check.specs.Fronts.{StopsAt};

use crate::gathering::{HistoryNote, lane_with};
use pool_law::Did;
use std::alloc::{AllocError, Global};

/// What was done at an object, and by which lane.
#[derive(Clone, Copy, Drop)]
pub struct Done<'a> {
    pub lane: usize,
    pub did: &'a Did,
}

/// Where the notes at an object stop being a history.
#[derive(Drop)]
pub struct Stop<'a> {
    /// What was done before the number, in order.
    pub dones: Vec<Done<'a>>,
    /// The first number that is 0, missing, there twice, or behind a greater one in its lane.
    pub number: u64,
}

/// The history in which each note stands at its number, or how far there is one.
pub fn merged<'a>(
    alloc: Global,
    mut left: Vec<&[HistoryNote<'a>]>,
) -> Result<Result<Vec<Done<'a>>, Stop<'a>>, AllocError>
    ensures { IfOk result (λ h. MatchResult h
        (λ h. AreNumbered 1 (left_of left.entry.items) (dones_in h.items))
        (λ stop. StopsAt (left_of left.entry.items) (dones_in stop.dones.items) stop.number)) }
{
    let mut dones = Vec::new(alloc);
    let mut number: u64 = 1;
    while let Some(lane) = lane_with(&left, number) {
        let notes = left[lane];
        let Some(first) = first_of(notes) else {
            return Ok(Err(Stop { dones, number }));
        };
        let done = Done {
            lane,
            did: first.did,
        };
        dones.push(done)?;
        left[lane] = &notes[1..];
        number = dones.len() as u64 + 1;
    }
    if none_left(&left) {
        return Ok(Ok(dones));
    }
    let number = least_left(&left, number);
    dones.truncate(number.saturating_sub(1) as usize);
    Ok(Err(Stop { dones, number }))
}

// The first of these notes.
fn first_of<'a>(notes: &[HistoryNote<'a>]) -> Option<HistoryNote<'a>>
    ensures { MatchOption result (notes_data notes.now ≡ [])
        (λ s. (notes_data notes.now ≡ note_data s ∷ notes_data (drop 1 notes.now))
        × (1 ≤ length notes.now)) }
{
    let first = notes.first()?;
    Some(*first)
}

// Whether no lane has a note left.
fn none_left(left: &[&[HistoryNote]]) -> bool
    ensures { IsTrue result ↔ ((lane : ℕ) → left_of left.now lane ≡ []) }
{
    for notes in left {
        if !notes.is_empty() {
            return false;
        }
    }
    true
}

// The least of this number and those of these notes.
fn least_of(notes: &[HistoryNote], number: u64) -> u64
    ensures most { result ≤ number }
    ensures least { All (λ x. result ≤ x.0) (notes_data notes.now) }
    ensures there { result < number → All (λ x. result < x.0) (notes_data notes.now) → ⊥ }
{
    let mut least = number;
    for note in notes {
        least = least.min(note.number);
    }
    least
}

// The least of this number and those of the notes that are left.
fn least_left(left: &[&[HistoryNote]], number: u64) -> u64
    ensures most { result ≤ number }
    ensures least { (lane : ℕ) → All (λ x. result ≤ x.0) (left_of left.now lane) }
    ensures there { result < number
        → ((lane : ℕ) → All (λ x. result < x.0) (left_of left.now lane)) → ⊥ }
{
    let mut least = number;
    for notes in left {
        least = least_of(notes, least);
    }
    least
}
