//! What a command that makes a composite comes to.

ghost use Rattle.std.specs.Prelude.{◌≡◌, ◌+◌, ◌-◌, ◌<◌, ◌≤◌, ◌^◌, ℕ, length, map, vec_len};
ghost use Rattle.std.specs.Prelude.{◌↔◌, Option, false, IfOk, IfSome, IsTrue};
ghost use Rattle.pool_law.specs.declared.command.Command.{Command};
ghost use Rattle.pool_law.specs.Composites.{Composite as LawComposite};
ghost use Rattle.pool_law.specs.Composites.{size_of, most_bytes, moved_to, whole_part};
ghost use Rattle.pool_law.specs.LaneLaw.{sweep_period};
ghost use Rattle.pool_law.specs.LaneStates.{LaneState};
ghost use Rattle.pool_law.specs.Lanes.{answer, composed};
ghost use Rattle.pool_law.specs.Refusals.{is_too_long};
ghost use Rattle.lane_reader.specs.Bounding.{AreBounded, ChangeIsBounded};
ghost use Rattle.lane_reader.specs.Candidates.{IsCandidate, CandidateIsBounded};
ghost use Rattle.lane_reader.specs.Consolidating.{made_of, composed_as, composed_if, IsShort};
ghost use Rattle.lane_reader.specs.Counting.{AreWithin};
ghost use Rattle.lane_reader.specs.Reading.{log_from};
ghost use Rattle.lane_reader.specs.Replying.{reply_that, where_said, changes};
ghost use Rattle.lane_reader.specs.Standing.{IsLane, changed};
ghost use Rattle.lane_reader.specs.Turning.{CarriesWith};
ghost use Rattle.lane_reader.specs.Viewing.{part_of, composite_in};

use crate::bound::{Bound, Change};
use crate::candidate::Candidate;
use crate::composite::{Composite, MOST_BYTES, Made, size_of};
use crate::lane::Lane;
use crate::log::{At, Log};
use crate::replies::{Said, says};
use crate::setting::Setting;
use crate::view::Range;
use pool_law::{NameList, Reply, RootId};
use std::alloc::{AllocError, Global};

// The most parts of a candidate.
const MOST_CANDIDATE_PARTS: usize = 24;

// Whether a composite is no larger than a candidate may be. Each candidate passes; but that is known
// of it only beside a state of the law, and consolidation asks for it without one.
fn is_small(composite: &Composite) -> bool
    ensures { IsTrue result
        ↔ (vec_len composite.now.parts ≤ 24)
        × (size_of (map part_of composite.now.parts.items) ≤ most_bytes) }
{
    composite.parts.len() <= MOST_CANDIDATE_PARTS && size_of(&composite.parts) <= MOST_BYTES
}

// The whole of a root.
fn whole(root: RootId) -> Range
    ensures { part_of result ≡ whole_part root }
{
    Range {
        root,
        offset: 0,
        len: root.capacity,
    }
}

// A composite once its bytes are copied to a root.
fn moved_to(alloc: Global, mut composite: Composite, root: RootId) -> Result<Composite, AllocError>
    ensures moved { IfOk result (λ c. composite_in c ≡ moved_to root (composite_in composite)) }
    ensures parts { IfOk result (λ c. vec_len c.parts ≡ 1) }
{
    composite.parts = vec![in alloc; whole(root)]?;
    Ok(composite)
}

// The reply as a composite is bound to a name, and what becomes of the names.
fn composed(
    alloc: Global,
    name: u32,
    composite: Composite,
    made: Made,
) -> Result<(Said, Change), AllocError>
    requires parts { vec_len composite.parts ≤ 24 }
    requires size { size_of (map part_of composite.parts.items) ≤ most_bytes }
    requires short { IsShort (vec_len composite.parts) made }
    ensures same { (s : LaneState) → IfOk result (λ p.
        composed s name (made_of (composite_in composite) made)
        ≡ answer (reply_that p.0) (changed p.1 s.names)) }
    ensures bounded { (most : ℕ) → composite.count ≤ most
        → IfOk result (λ p. ChangeIsBounded (most + 1) p.1) }
{
    let bound = match made {
        Made::Handles => return Ok((Said::Handles, Change::Same)),
        Made::Full => return Ok((Said::Full, Change::Same)),
        Made::AsItIs => composite,
        Made::Moved(root) => moved_to(alloc, composite, root)?,
    };
    let said = Said::OkNumber(size_of(&bound.parts));
    let bound = Bound::Composed(bound);
    Ok((said, Change::Bind { name, bound }))
}

impl Log<'_> {
    // What becomes of the names as a composite is bound to one.
    fn compose(
        &self,
        alloc: Global,
        at: At,
        setting: &Setting,
        lane: &Lane,
        name: u32,
        composite: Composite,
        reply: &Reply,
    ) -> Result<Option<(Change, At)>, AllocError>
        requires asked { at.asked < sweep_period }
        requires room { AreWithin lane.now.counts (2 ^ 64 - 1 - length self.now.notes.now) }
        requires parts { vec_len composite.parts ≤ 24 }
        requires size { size_of (map part_of composite.parts.items) ≤ most_bytes }
        ensures row { IfOk result (λ got. (s : LaneState) → IsLane lane.now s
            → where_said reply.now (composed_as setting.now.shape.now setting.now.lane s name
            (composite_in composite) (log_from s.seen self.now at)) ≡ changes s self.now got) }
        ensures bounded { (most : ℕ) → composite.count ≤ most
            → IfOk result (λ got. IfSome got (λ p. ChangeIsBounded (most + 1) p.0)) }
    {
        let Some((made, behind)) = self.consolidate(
            at,
            setting.shape,
            setting.classes,
            setting.lane,
            &lane.counts,
            &composite,
        ) else {
            return Ok(None);
        };
        let (said, change) = composed(alloc, name, composite, made)?;
        Ok(says(reply, said).then_some((change, behind)))
    }

    // What becomes of the names as a candidate is bound to one.
    fn candidate_row(
        &self,
        alloc: Global,
        at: At,
        setting: &Setting,
        lane: &Lane,
        name: u32,
        candidate: Candidate,
        reply: &Reply,
    ) -> Result<Option<(Change, At)>, AllocError>
        requires asked { at.asked < sweep_period }
        requires room { AreWithin lane.now.counts (2 ^ 64 - 1 - length self.now.notes.now) }
        ensures row { IfOk result (λ got. (s : LaneState) → IsLane lane.now s
            → (o : Option LawComposite) → IsCandidate o candidate
            → is_too_long setting.now.shape.now o ≡ false
            → where_said reply.now (composed_if setting.now.shape.now setting.now.lane s name o
            (log_from s.seen self.now at)) ≡ changes s self.now got) }
        ensures bounded { (most : ℕ) → CandidateIsBounded most candidate
            → IfOk result (λ got. IfSome got (λ p. ChangeIsBounded (most + 1) p.0)) }
    {
        match candidate {
            Candidate::Missing | Candidate::TooLong => Ok(None),
            Candidate::Made(composite) => {
                if !is_small(&composite) {
                    return Ok(None);
                }
                self.compose(alloc, at, setting, lane, name, composite, reply)
            }
        }
    }

    /// What becomes of the names by a compose, of which this candidate was found.
    pub(crate) fn compose_row(
        &self,
        alloc: Global,
        at: At,
        setting: &Setting,
        lane: &Lane,
        fresh: u32,
        _names: &NameList,
        candidate: Candidate,
        reply: &Reply,
    ) -> Result<Option<(Change, At)>, AllocError>
        requires asked { at.asked < sweep_period }
        requires bounded { AreBounded (2 ^ 32) lane.now }
        requires room { AreWithin lane.now.counts (2 ^ 64 - 1 - length self.now.notes.now) }
        ensures row { IfOk result (CarriesWith setting.now lane.now
            (Command.Compose fresh _names.now) candidate reply.now self.now at) }
        ensures bounded { (most : ℕ) → 1 ≤ most → AreBounded most lane.now
            → CandidateIsBounded most candidate
            → IfOk result (λ got. IfSome got (λ p. ChangeIsBounded (most + 1) p.0)) }
    {
        self.candidate_row(alloc, at, setting, lane, fresh, candidate, reply)
    }

    /// What becomes of the names by an add, of which this candidate was found.
    pub(crate) fn add_row(
        &self,
        alloc: Global,
        at: At,
        setting: &Setting,
        lane: &Lane,
        whole: u32,
        _name: u32,
        candidate: Candidate,
        reply: &Reply,
    ) -> Result<Option<(Change, At)>, AllocError>
        requires asked { at.asked < sweep_period }
        requires bounded { AreBounded (2 ^ 32) lane.now }
        requires room { AreWithin lane.now.counts (2 ^ 64 - 1 - length self.now.notes.now) }
        ensures row { IfOk result (CarriesWith setting.now lane.now
            (Command.Add whole _name) candidate reply.now self.now at) }
        ensures bounded { (most : ℕ) → 1 ≤ most → AreBounded most lane.now
            → CandidateIsBounded most candidate
            → IfOk result (λ got. IfSome got (λ p. ChangeIsBounded (most + 1) p.0)) }
    {
        self.candidate_row(alloc, at, setting, lane, whole, candidate, reply)
    }
}
