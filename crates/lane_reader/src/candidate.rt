//! The composite that a command makes, before it is consolidated.

ghost use Rattle.std.specs.Prelude.{◌≤◌, ◌^◌, ℕ, length, map, vec_len, IfOk};
ghost use Rattle.pool_law.specs.Composites.{size_of};
ghost use Rattle.pool_law.specs.LaneStates.{LaneState, composite_from, composite_with};
ghost use Rattle.lane_reader.specs.Bounding.{AreBounded};
ghost use Rattle.lane_reader.specs.Candidates.{candidate_of, HasFewNames, IsCandidate, CandidateIsBounded};
ghost use Rattle.lane_reader.specs.Standing.{IsLane};
ghost use Rattle.lane_reader.specs.Viewing.{part_of};

use crate::bound::Bound;
use crate::composite::{Composite, MOST_BYTES, size_of};
use crate::lane::Lane;
use crate::view::Range;
use pool_law::Command;
use std::alloc::{AllocError, Global};

/// The composite that a command makes.
#[derive(Drop)]
pub(crate) enum Candidate {
    /// The command makes none, or one of its names has none.
    Missing,
    /// It has more bytes than a composite may have.
    TooLong,
    /// It is this, before it is consolidated.
    Made(Composite),
}

// The composite of these parts, which can be read up to their end, unless it is too long.
fn made_of(parts: Vec<Range>, count: u64, reader: u32) -> Candidate
    requires { vec_len parts ≤ 24 }
    ensures is { let law_parts = map part_of parts.items in
        IsCandidate (Some (record {
          parts = law_parts;
          count = count;
          reader = reader;
          writer = size_of law_parts;
        })) result }
    ensures bounded { CandidateIsBounded count result }
{
    let size = size_of(&parts);
    if size > MOST_BYTES {
        return Candidate::TooLong;
    }
    Candidate::Made(Composite {
        parts,
        count,
        reader,
        writer: size as u32,
    })
}

impl Lane {
    // A new composite of the readable bytes of these names.
    fn composite_from(&self, alloc: Global, names: &[u32]) -> Result<Candidate, AllocError>
        requires { length names.now ≤ 24 }
        ensures is { (s : LaneState) → IsLane self.now s
            → IfOk result (IsCandidate (composite_from s names.now)) }
        ensures bounded { IfOk result (CandidateIsBounded 1) }
    {
        let mut parts = Vec::new(alloc);
        for name in names {
            let Some(Bound::Plain(view)) = self.named(*name) else {
                return Ok(Candidate::Missing);
            };
            parts.push(view.readable())?;
        }
        Ok(made_of(parts, 1, 0))
    }

    // A composite with the readable bytes of a name behind it.
    fn composite_with(&self, alloc: Global, whole: u32, name: u32) -> Result<Candidate, AllocError>
        requires { AreBounded (2 ^ 32) self.now }
        ensures is { (s : LaneState) → IsLane self.now s
            → IfOk result (IsCandidate (composite_with s whole name)) }
        ensures bounded { (most : ℕ) → AreBounded most self.now
            → IfOk result (CandidateIsBounded most) }
    {
        let Some(Bound::Composed(composite)) = self.named(whole) else {
            return Ok(Candidate::Missing);
        };
        let Some(Bound::Plain(view)) = self.named(name) else {
            return Ok(Candidate::Missing);
        };
        let mut parts: Vec<Range> = composite.parts.iter().copied().collect(alloc)?;
        parts.push(view.readable())?;
        Ok(made_of(parts, composite.count, composite.reader))
    }

    /// The composite that a command makes, if its names have one.
    pub(crate) fn candidate(
        &self,
        alloc: Global,
        command: &Command,
    ) -> Result<Candidate, AllocError>
        requires names { HasFewNames command.now }
        requires bounded { AreBounded (2 ^ 32) self.now }
        ensures is { (s : LaneState) → IsLane self.now s
            → IfOk result (IsCandidate (candidate_of s command.now)) }
        ensures bounded { (most : ℕ) → 1 ≤ most → AreBounded most self.now
            → IfOk result (CandidateIsBounded most) }
    {
        match command {
            Command::Compose { fresh: _, names } => self.composite_from(alloc, names.items()),
            Command::Add { whole, name } => self.composite_with(alloc, *whole, *name),
            _ => Ok(Candidate::Missing),
        }
    }
}
