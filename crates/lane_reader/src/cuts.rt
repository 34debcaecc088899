//! How many notes each command of a lane made.

ghost use Rattle.std.specs.Prelude.{◌≡◌, ◌<◌, ◌≤◌, ◌^◌, List, drop, length, sum, IfOk};
ghost use Rattle.std.specs.List.{All};
ghost use Rattle.pool_law.specs.declared.run.Answered.{Answered};
ghost use Rattle.pool_law.specs.LaneLaw.{before_stop, note_counts, replies_in};
ghost use Rattle.pool_law.specs.Legal.{AreCommands};
ghost use Rattle.pool_law.specs.Limits.{geometry_of};
ghost use Rattle.lane_reader.specs.Candidates.{HasFewNames};
ghost use Rattle.lane_reader.specs.Cutting.{AreCut, AreNoteCounts};
ghost use Rattle.lane_reader.specs.Reading.{entries};
ghost use Rattle.lane_reader.specs.Running.{HasRun, HasStopped};
ghost use Rattle.lane_reader.specs.Unlike.{AreAnswered};

use crate::lane::Lane;
use crate::log::Log;
use crate::replies::{Said, says};
use crate::runs::FIRST;
use crate::setting::Setting;
use pool_law::{Command, Reply, Shape};
use size_classes::SizeClasses;
use std::alloc::{AllocError, Global};

// How many commands were answered before the lane was stopped.
fn before_stopped(replies: &[Reply]) -> usize
    ensures stop { result ≡ before_stop replies.now }
    ensures within { result ≤ length replies.now }
{
    for i in 0..replies.len() {
        if says(&replies[i], Said::Stopped) {
            return i;
        }
    }
    replies.len()
}

// How many notes each of the first commands of a new lane made, with these replies, and the notes
// behind them: of as many commands as the law reads.
fn cut_running<'a>(
    alloc: Global,
    setting: &Setting,
    commands: &[Command],
    replies: &[Reply],
    log: &Log<'a>,
) -> Result<(Vec<usize>, Log<'a>), AllocError>
    requires names { All HasFewNames commands.now }
    requires few { length commands.now ≤ 65536 }
    requires as_many { length commands.now ≡ length replies.now }
    requires room { length log.now.notes.now < 2 ^ 64 }
    ensures { IfOk result (λ cut.
        AreCut (HasRun setting.now.shape.now setting.now.lane) commands.now replies.now
        (entries log.now) cut.0.items
        × (entries cut.1 ≡ drop (sum cut.0.items) (entries log.now))) }
{
    let mut lane = Lane::new(alloc);
    let mut counts = Vec::new(alloc);
    let mut rest = *log;
    for i in 0..commands.len() {
        let command = &commands[i];
        let reply = &replies[i];
        let Some(count) = lane.turn_on(alloc, setting, command, reply, &rest)? else {
            return Ok((counts, rest));
        };
        counts.push(count)?;
        rest = rest.behind(count);
    }
    Ok((counts, rest))
}

// How many notes each of the first commands of a stopped lane made, with these replies.
fn cut_stopped(
    alloc: Global,
    lane: u32,
    commands: &[Command],
    replies: &[Reply],
    log: &Log,
) -> Result<Vec<usize>, AllocError>
    requires { length commands.now ≡ length replies.now }
    ensures { IfOk result (λ counts.
        AreCut (HasStopped lane) commands.now replies.now (entries log.now) counts.items) }
{
    let mut counts = Vec::new(alloc);
    let mut rest = *log;
    for i in 0..commands.len() {
        let command = &commands[i];
        let reply = &replies[i];
        if !says(reply, Said::Stopped) {
            return Ok(counts);
        }
        let Some(at) = rest.not_carried_out(FIRST, lane, command) else {
            return Ok(counts);
        };
        let count = at.place.min(rest.notes.len());
        counts.push(count)?;
        rest = rest.behind(count);
    }
    Ok(counts)
}

// How many notes each of the first commands made, up to a stop and behind it.
fn cut_all(
    alloc: Global,
    setting: &Setting,
    commands: &[Command],
    replies: &[Reply],
    log: &Log,
) -> Result<Vec<usize>, AllocError>
    requires names { All HasFewNames commands.now }
    requires few { length commands.now ≤ 65536 }
    requires as_many { length commands.now ≡ length replies.now }
    ensures { IfOk result (λ counts. AreNoteCounts setting.now.shape.now setting.now.lane
        commands.now replies.now (entries log.now) counts.items) }
{
    let stop = before_stopped(replies);
    let (mut counts, rest) = cut_running(alloc, setting, &commands[..stop], &replies[..stop], log)?;
    if counts.len() < stop {
        return Ok(counts);
    }
    let (commands, replies) = (&commands[stop..], &replies[stop..]);
    let mut behind = cut_stopped(alloc, setting.lane, commands, replies, &rest)?;
    counts.append(&mut behind)?;
    Ok(counts)
}

/// How many notes each of the first commands of a lane made, by the law: of as many commands as it
/// reads with these replies, up to a stop and behind it. Where the notes begin with those of all
/// commands, that is each of them. Notes behind them, as those of the closing, are not looked at.
/// Takes time linear in the notes.
pub fn cut(
    alloc: Global,
    shape: &Shape,
    classes: &SizeClasses,
    lane: u32,
    commands: &[Command],
    replies: &[Reply],
    log: &Log,
) -> Result<Vec<usize>, AllocError>
    requires arenas { 1 ≤ shape.now.arenas }
    requires handles { 1 ≤ shape.now.handles }
    requires classes { classes.now ≡ geometry_of shape.now }
    requires commands { AreCommands shape.now commands.now }
    ensures read { IfOk result (λ counts. AreNoteCounts shape.now lane commands.now replies.now
        (entries log.now) counts.items) }
    ensures only { (answered : List Answered) → replies_in answered ≡ replies.now
        → AreAnswered shape.now lane commands.now answered (entries log.now)
        → IfOk result (λ counts. counts.items ≡ note_counts answered) }
{
    let setting = Setting {
        shape,
        classes,
        lane,
    };
    let count = commands.len().min(replies.len());
    cut_all(alloc, &setting, &commands[..count], &replies[..count], log)
}
