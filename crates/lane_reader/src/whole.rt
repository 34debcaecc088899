//! The whole log of a lane: its commands in order, up to a stop and behind it, and its closing.

ghost use Rattle.std.specs.Prelude.{◌≡◌, ◌≤◌, length, IfOk, MatchOption};
ghost use Rattle.std.specs.List.{All};
ghost use Rattle.pool_law.specs.LaneLaw.{IsLaneLog};
ghost use Rattle.pool_law.specs.Legal.{AreCommands};
ghost use Rattle.pool_law.specs.Limits.{geometry_of};
ghost use Rattle.lane_reader.specs.Candidates.{HasFewNames};
ghost use Rattle.lane_reader.specs.Reading.{entries};
ghost use Rattle.lane_reader.specs.Running.{Reaches};
ghost use Rattle.lane_reader.specs.Unlike.{AreAnswered, IsUnlikeAt};

use crate::log::Log;
use crate::runs::{Reach, before_stop, reach_running, reach_stopped};
use crate::setting::Setting;
use pool_law::{Answered, Command, Shape};
use size_classes::SizeClasses;
use std::alloc::{AllocError, Global};

// How far commands have their replies and notes, up to a stop and behind it.
fn reach<'a>(
    alloc: Global,
    setting: &Setting,
    commands: &[Command],
    replies: &[Answered],
    log: &Log<'a>,
) -> Result<Reach<'a>, AllocError>
    requires names { All HasFewNames commands.now }
    requires few { length commands.now ≤ 65536 }
    requires as_many { length commands.now ≡ length replies.now }
    ensures { IfOk result (Reaches (AreAnswered setting.now.shape.now setting.now.lane)
        commands.now replies.now log.now) }
{
    let stop = before_stop(replies);
    match reach_running(alloc, setting, &commands[..stop], &replies[..stop], log)? {
        Reach::Until(count) => Ok(Reach::Until(count)),
        Reach::Whole(behind) => {
            let (commands, replies) = (&commands[stop..], &replies[stop..]);
            match reach_stopped(setting.lane, commands, replies, &behind) {
                Reach::Until(count) => Ok(Reach::Until(stop + count)),
                Reach::Whole(rest) => Ok(Reach::Whole(rest)),
            }
        }
    }
}

/// The first command of a lane, counted from 0, whose reply and notes are not those of the law, as
/// one without a reply. Where each has its own, but there are more replies, or what stands behind
/// the notes of the commands is not the closing of the lane: the number of the commands. None where
/// the log is the lane's.
pub fn first_unlike(
    alloc: Global,
    shape: &Shape,
    classes: &SizeClasses,
    lane: u32,
    commands: &[Command],
    replies: &[Answered],
    log: &Log,
) -> Result<Option<usize>, AllocError>
    requires arenas { 1 ≤ shape.now.arenas }
    requires handles { 1 ≤ shape.now.handles }
    requires classes { classes.now ≡ geometry_of shape.now }
    requires commands { AreCommands shape.now commands.now }
    ensures { IfOk result (λ found. MatchOption found
        (IsLaneLog shape.now lane commands.now replies.now (entries log.now))
        (IsUnlikeAt shape.now lane commands.now replies.now (entries log.now))) }
{
    let setting = Setting {
        shape,
        classes,
        lane,
    };
    let count = commands.len().min(replies.len());
    match reach(alloc, &setting, &commands[..count], &replies[..count], log)? {
        Reach::Until(command) => Ok(Some(command)),
        Reach::Whole(behind) => {
            if commands.len() != replies.len() || !behind.closes(lane) {
                return Ok(Some(count));
            }
            Ok(None)
        }
    }
}
