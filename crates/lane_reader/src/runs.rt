//! The commands of a lane, one after another: up to a stop, and behind it.

ghost use Rattle.std.specs.Prelude.{◌≡◌, ◌<◌, ◌≤◌, ◌^◌, length, is_some, IfOk};
ghost use Rattle.std.specs.List.{All};
ghost use Rattle.pool_law.specs.LaneLaw.{replies_in, before_stop, closes};
ghost use Rattle.pool_law.specs.LaneStates.{new_lane, log_at};
ghost use Rattle.pool_law.specs.Lanes.{not_carried_out};
ghost use Rattle.pool_law.specs.Readers.{read_all};
ghost use Rattle.lane_reader.specs.Candidates.{HasFewNames};
ghost use Rattle.lane_reader.specs.Reading.{entries};
ghost use Rattle.lane_reader.specs.Running.{HasRun, HasStopped, Reaches};

use crate::lane::Lane;
use crate::log::{At, Log};
use crate::replies::{Said, says};
use crate::setting::Setting;
use pool_law::{Answered, Command};
use std::alloc::{AllocError, Global};

/// The place and the count of a new lane.
pub(crate) const FIRST: At = At { place: 0, asked: 0 };

/// How far commands have their replies and notes.
#[derive(Clone, Copy, Drop)]
pub(crate) enum Reach<'a> {
    /// All of them have, and this is behind their notes.
    Whole(Log<'a>),
    /// So many have, and no longer the next.
    Until(usize),
}

/// How many commands were answered before the lane was stopped.
pub(crate) fn before_stop(replies: &[Answered]) -> usize
    ensures stop { result ≡ before_stop (replies_in replies.now) }
    ensures within { result ≤ length replies.now }
{
    for i in 0..replies.len() {
        if says(&replies[i].reply, Said::Stopped) {
            return i;
        }
    }
    replies.len()
}

/// How far a new lane's commands have their replies and notes, one after another.
pub(crate) fn reach_running<'a>(
    alloc: Global,
    setting: &Setting,
    commands: &[Command],
    replies: &[Answered],
    log: &Log<'a>,
) -> Result<Reach<'a>, AllocError>
    requires names { All HasFewNames commands.now }
    requires few { length commands.now ≤ 65536 }
    requires as_many { length commands.now ≡ length replies.now }
    requires room { length log.now.notes.now < 2 ^ 64 }
    ensures { IfOk result (Reaches (HasRun setting.now.shape.now setting.now.lane)
        commands.now replies.now log.now) }
{
    let mut lane = Lane::new(alloc);
    let mut rest = *log;
    for i in 0..commands.len() {
        let command = &commands[i];
        let answered = &replies[i];
        let count = answered.notes as usize;
        if rest.notes.len() < count {
            return Ok(Reach::Until(i));
        }
        let piece = rest.first(count);
        if !lane.turn(alloc, setting, command, &answered.reply, &piece)? {
            return Ok(Reach::Until(i));
        }
        rest = rest.behind(count);
    }
    Ok(Reach::Whole(rest))
}

impl Log<'_> {
    // Whether exactly these are the notes of a command of a stopped lane.
    fn is_stopped(&self, lane: u32, command: &Command) -> bool
        ensures { result ≡ is_some (read_all
            (not_carried_out lane command.now) (log_at new_lane (entries self.now))) }
    {
        self.is_all_read(self.not_carried_out(FIRST, lane, command))
    }

    /// Whether the notes close the caches of a lane.
    pub(crate) fn closes(&self, lane: u32) -> bool
        ensures { result ≡ is_some (closes lane (entries self.now)) }
    {
        self.is_all_read(self.closing(FIRST, lane))
    }
}

/// How far the commands of a stopped lane have their replies and notes.
pub(crate) fn reach_stopped<'a>(
    lane: u32,
    commands: &[Command],
    replies: &[Answered],
    log: &Log<'a>,
) -> Reach<'a>
    requires { length commands.now ≡ length replies.now }
    ensures { Reaches (HasStopped lane) commands.now replies.now log.now result }
{
    let mut rest = *log;
    for i in 0..commands.len() {
        let command = &commands[i];
        let answered = &replies[i];
        if !says(&answered.reply, Said::Stopped) {
            return Reach::Until(i);
        }
        let count = answered.notes as usize;
        if rest.notes.len() < count {
            return Reach::Until(i);
        }
        let piece = rest.first(count);
        if !piece.is_stopped(lane, command) {
            return Reach::Until(i);
        }
        rest = rest.behind(count);
    }
    Reach::Whole(rest)
}
