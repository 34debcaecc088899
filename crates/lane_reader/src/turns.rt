//! One command of a lane, with its notes and its reply.

ghost use Rattle.std.specs.Prelude.{◌≡◌, ◌+◌, ◌-◌, ◌<◌, ◌≤◌, ◌^◌, ℕ, length, take, IfOk, IfSome, MatchOption, true, false};
ghost use Rattle.pool_law.specs.LaneStates.{LaneState};
ghost use Rattle.pool_law.specs.LaneLaw.{sweep_period};
ghost use Rattle.lane_reader.specs.Bounding.{AreBounded, ChangeIsBounded};
ghost use Rattle.lane_reader.specs.Candidates.{HasFewNames};
ghost use Rattle.lane_reader.specs.Counting.{AreWithin};
ghost use Rattle.lane_reader.specs.Reading.{entries, log_from};
ghost use Rattle.lane_reader.specs.Replying.{reply_of, where_said, changes};
ghost use Rattle.lane_reader.specs.Running.{refused_by, Turns};
ghost use Rattle.lane_reader.specs.Standing.{IsLane};
ghost use Rattle.lane_reader.specs.Turning.{Answers, HasTurned, HasNotTurned, TurnsOn};

use crate::bound::Change;
use crate::lane::Lane;
use crate::log::{At, Log};
use crate::replies::{Refused, Said, says};
use crate::setting::Setting;
use pool_law::{Command, Reply};
use std::alloc::{AllocError, Global};

impl Log<'_> {
    // What becomes of the names by a command, and the place behind its notes, where it is answered
    // this.
    fn answered(
        &self,
        alloc: Global,
        at: At,
        setting: &Setting,
        lane: &Lane,
        command: &Command,
        reply: &Reply,
    ) -> Result<Option<(Change, At)>, AllocError>
        requires asked { at.asked < sweep_period }
        requires names { HasFewNames command.now }
        requires bounded { AreBounded (2 ^ 32) lane.now }
        requires room { AreWithin lane.now.counts (2 ^ 64 - 1 - length self.now.notes.now) }
        ensures row { IfOk result (Answers setting.now lane.now command.now reply.now self.now at) }
        ensures bounded { (most : ℕ) → 1 ≤ most → AreBounded most lane.now
            → IfOk result (λ got. IfSome got (λ p. ChangeIsBounded (most + 1) p.0)) }
    {
        let candidate = lane.candidate(alloc, command)?;
        if let Some(refused) = lane.refused(setting, command, &candidate) {
            return Ok(self.refused_by(at, setting.lane, command, refused, reply));
        }
        self.carried_out(alloc, at, setting, lane, command, candidate, reply)
    }

    // The same of a command that is refused: the names stay.
    fn refused_by(
        &self,
        at: At,
        lane: u32,
        command: &Command,
        refused: Refused,
        reply: &Reply,
    ) -> Option<(Change, At)>
        ensures row { (s : LaneState) → where_said reply.now
            (refused_by lane s command.now (reply_of refused) (log_from s.seen self.now at))
            ≡ changes s self.now result }
        ensures bounded { (most : ℕ) → IfSome result (λ p. ChangeIsBounded most p.0) }
    {
        if !says(reply, Said::Refused(refused)) {
            return None;
        }
        let behind = self.not_carried_out(at, lane, command)?;
        Some((Change::Same, behind))
    }

    // What becomes of the names by a command, and the place behind its notes, where the log begins
    // with them, the sweep that is then due among them.
    fn turned_on(
        &self,
        alloc: Global,
        setting: &Setting,
        lane: &Lane,
        command: &Command,
        reply: &Reply,
    ) -> Result<Option<(Change, At)>, AllocError>
        requires asked { lane.now.asked < sweep_period }
        requires names { HasFewNames command.now }
        requires bounded { AreBounded (2 ^ 32) lane.now }
        requires room { AreWithin lane.now.counts (2 ^ 64 - 1 - length self.now.notes.now) }
        ensures row { IfOk result (TurnsOn setting.now lane.now command.now reply.now self.now) }
        ensures asked { IfOk result (λ got. IfSome got (λ p. p.1.asked < sweep_period)) }
        ensures bounded { (most : ℕ) → 1 ≤ most → AreBounded most lane.now
            → IfOk result (λ got. IfSome got (λ p. ChangeIsBounded (most + 1) p.0)) }
    {
        let first = At {
            place: 0,
            asked: lane.asked,
        };
        let Some((change, at)) = self.answered(alloc, first, setting, lane, command, reply)? else {
            return Ok(None);
        };
        let Some(behind) = self.sweep_if_due(at, setting.lane) else {
            return Ok(None);
        };
        Ok(Some((change, behind)))
    }

    // What becomes of the names by a command, and how many allocations have asked a cache behind
    // it, where exactly the log's notes are its own, the sweep that is then due among them.
    fn turned(
        &self,
        alloc: Global,
        setting: &Setting,
        lane: &Lane,
        command: &Command,
        reply: &Reply,
    ) -> Result<Option<(Change, u32)>, AllocError>
        requires asked { lane.now.asked < sweep_period }
        requires names { HasFewNames command.now }
        requires bounded { AreBounded (2 ^ 32) lane.now }
        requires room { AreWithin lane.now.counts (2 ^ 64 - 1 - length self.now.notes.now) }
        ensures row { IfOk result (Turns setting.now lane.now command.now reply.now self.now) }
        ensures asked { IfOk result (λ got. IfSome got (λ p. p.1 < sweep_period)) }
        ensures bounded { (most : ℕ) → 1 ≤ most → AreBounded most lane.now
            → IfOk result (λ got. IfSome got (λ p. ChangeIsBounded (most + 1) p.0)) }
    {
        let Some((change, behind)) = self.turned_on(alloc, setting, lane, command, reply)? else {
            return Ok(None);
        };
        if behind.place < self.notes.len() {
            return Ok(None);
        }
        Ok(Some((change, behind.asked)))
    }
}

impl Lane {
    /// Goes on by a command, if exactly the log's notes are those of the command with this reply,
    /// the sweep that is then due among them.
    pub(crate) fn turn(
        &mut self,
        alloc: Global,
        setting: &Setting,
        command: &Command,
        reply: &Reply,
        log: &Log,
    ) -> Result<bool, AllocError>
        requires asked { self.old.asked < sweep_period }
        requires names { HasFewNames command.now }
        requires bounded { AreBounded (2 ^ 32) self.old }
        requires room { AreWithin self.old.counts (2 ^ 64 - 1 - length log.now.notes.now) }
        ensures good { (s : LaneState) → IsLane self.old s → IfOk result (λ good. good ≡ true
            → HasTurned setting.now s command.now reply.now (entries log.now) self.new) }
        ensures bad { (s : LaneState) → IsLane self.old s → IfOk result (λ good. good ≡ false
            → HasNotTurned setting.now s command.now reply.now (entries log.now)) }
        ensures asked { IfOk result (λ good. good ≡ true → self.new.asked < sweep_period) }
        ensures bounded { (most : ℕ) → 1 ≤ most → AreBounded most self.old
            → IfOk result (λ good. good ≡ true → AreBounded (most + 1) self.new) }
        ensures counted { (most : ℕ) → AreWithin self.old.counts most
            → IfOk result (λ good. good ≡ true
            → AreWithin self.new.counts (most + length log.now.notes.now)) }
    {
        let Some((change, asked)) = log.turned(alloc, setting, self, command, reply)? else {
            return Ok(false);
        };
        self.change(change)?;
        self.pass(log)?;
        self.asked = asked;
        Ok(true)
    }

    /// Goes on by a command, if the log begins with its notes, as they are with this reply, the sweep
    /// that is then due among them. So many they are.
    pub(crate) fn turn_on(
        &mut self,
        alloc: Global,
        setting: &Setting,
        command: &Command,
        reply: &Reply,
        log: &Log,
    ) -> Result<Option<usize>, AllocError>
        requires asked { self.old.asked < sweep_period }
        requires names { HasFewNames command.now }
        requires bounded { AreBounded (2 ^ 32) self.old }
        requires room { AreWithin self.old.counts (2 ^ 64 - 1 - length log.now.notes.now) }
        ensures row { (s : LaneState) → IsLane self.old s → IfOk result (λ got. MatchOption got
            ((count : ℕ)
            → HasNotTurned setting.now s command.now reply.now (take count (entries log.now)))
            (λ count. HasTurned setting.now s command.now reply.now
            (take count (entries log.now)) self.new)) }
        ensures within { IfOk result (λ got. IfSome got
            (λ count. count ≤ length log.now.notes.now)) }
        ensures asked { IfOk result (λ got. IfSome got (λ count. self.new.asked < sweep_period)) }
        ensures bounded { (most : ℕ) → 1 ≤ most → AreBounded most self.old
            → IfOk result (λ got. IfSome got (λ count. AreBounded (most + 1) self.new)) }
        ensures counted { (most : ℕ) → AreWithin self.old.counts most
            → IfOk result (λ got. IfSome got (λ count. AreWithin self.new.counts (most + count))) }
    {
        let Some((change, at)) = log.turned_on(alloc, setting, self, command, reply)? else {
            return Ok(None);
        };
        let count = at.place.min(log.notes.len());
        let piece = log.first(count);
        self.change(change)?;
        self.pass(&piece)?;
        self.asked = at.asked;
        Ok(Some(count))
    }
}
