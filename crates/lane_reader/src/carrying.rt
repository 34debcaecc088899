//! What a command notes and binds that is not refused before its notes.

ghost use Rattle.std.specs.Prelude.{◌+◌, ◌-◌, ◌<◌, ◌≤◌, ◌^◌, ℕ, length, IfOk, IfSome};
ghost use Rattle.pool_law.specs.LaneLaw.{sweep_period};
ghost use Rattle.lane_reader.specs.Bounding.{AreBounded, ChangeIsBounded};
ghost use Rattle.lane_reader.specs.Candidates.{CandidateIsBounded};
ghost use Rattle.lane_reader.specs.Counting.{AreWithin};
ghost use Rattle.lane_reader.specs.Turning.{CarriesWith};

use crate::bound::Change;
use crate::candidate::Candidate;
use crate::lane::Lane;
use crate::log::{At, Log};
use crate::setting::Setting;
use pool_law::{Command, Reply};
use std::alloc::{AllocError, Global};

impl Log<'_> {
    /// What becomes of the names by a command that is not refused, and the place behind its notes,
    /// where it is answered this.
    pub(crate) fn carried_out(
        &self,
        alloc: Global,
        at: At,
        setting: &Setting,
        lane: &Lane,
        command: &Command,
        candidate: Candidate,
        reply: &Reply,
    ) -> Result<Option<(Change, At)>, AllocError>
        requires asked { at.asked < sweep_period }
        requires bounded { AreBounded (2 ^ 32) lane.now }
        requires room { AreWithin lane.now.counts (2 ^ 64 - 1 - length self.now.notes.now) }
        ensures row { IfOk result
            (CarriesWith setting.now lane.now command.now candidate reply.now self.now at) }
        ensures bounded { (most : ℕ) → 1 ≤ most → AreBounded most lane.now
            → CandidateIsBounded most candidate
            → IfOk result (λ got. IfSome got (λ p. ChangeIsBounded (most + 1) p.0)) }
    {
        match command {
            Command::Alloc { name, size } => {
                Ok(self.alloc_row(at, setting, lane, *name, *size, reply))
            }
            Command::Set {
                name,
                at: index,
                bytes,
                tries: false,
            } => Ok(self.set_row(at, lane, *name, *index, bytes, reply)),
            Command::Set {
                name,
                at: index,
                bytes,
                tries: true,
            } => Ok(self.try_set_row(at, lane, *name, *index, bytes, reply)),
            Command::Get {
                name,
                at: index,
                len,
                tries: false,
            } => Ok(self.get_row(at, lane, *name, *index, *len, reply)),
            Command::Get {
                name,
                at: index,
                len,
                tries: true,
            } => Ok(self.try_get_row(at, lane, *name, *index, *len, reply)),
            Command::Write { name, bytes } => Ok(self.write_row(at, lane, *name, bytes, reply)),
            Command::Read { name, len } => Ok(self.read_row(at, lane, *name, *len, reply)),
            Command::Slice {
                fresh,
                name,
                at: index,
                len,
                retained,
            } => Ok(self.slice_row(at, lane, *fresh, *name, *index, *len, *retained, reply)),
            Command::Dup { fresh, name } => Ok(self.dup_row(at, lane, *fresh, *name, reply)),
            Command::Retain { name } => Ok(self.retain_row(at, setting, lane, *name, reply)),
            Command::Release { name } => Ok(self.release_row(at, setting, lane, *name, reply)),
            Command::Refcnt { name } => Ok(self.refcnt_row(at, setting, lane, *name, reply)),
            Command::Touch { name } => Ok(self.touch_row(at, lane, *name, reply)),
            Command::Forget { name } => Ok(self.forget_row(at, lane, *name, reply)),
            Command::Send { name, lane: to } => {
                Ok(self.send_row(at, setting, lane, *name, *to, reply))
            }
            Command::Recv { fresh, lane: from } => {
                Ok(self.recv_row(at, setting, lane, *fresh, *from, reply))
            }
            Command::Compose { fresh, names } => {
                self.compose_row(alloc, at, setting, lane, *fresh, names, candidate, reply)
            }
            Command::Add { whole, name } => {
                self.add_row(alloc, at, setting, lane, *whole, *name, candidate, reply)
            }
            Command::Capacity { name, size } => {
                Ok(self.capacity_row(at, setting, lane, *name, *size, reply))
            }
        }
    }
}
