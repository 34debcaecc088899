//! The lines of replies.

ghost use Rattle.std.specs.Prelude.{◌≡◌, ◌≢◌, ◌+◌, ◌++◌, ◌∷◌, ◌<◌, ◌^◌, [], ℕ, Ok, List, MatchResult, codes, length, map};
ghost use Rattle.pool_law.specs.Text.{Text, reply_words, spaced};
ghost use Rattle.pool_law.specs.declared.run.Reply.{Reply};
ghost use Rattle.run_text.specs.Answering.{FitLanes, FitReplies, FitsReply, lanes_texts, reply_texts};
ghost use Rattle.run_text.specs.Reading.{Gives};
ghost use Rattle.run_text.specs.declared.TextNo.TheVariants.{Memory};

use crate::lines::words_behind;
use crate::words::Words;
use crate::{LineNo, TextNo};
use pool_law::{Command, CommandList, Reply};
use std::alloc::{AllocError, Global};

/// The replies of the lanes, and how many lines they are.
pub fn replies_of(
    alloc: Global,
    lanes: &[CommandList],
    lines: &[&str],
) -> Result<(Vec<Vec<Reply>>, usize), TextNo>
    ensures { (all : List (List Reply)) (back : List Text) → FitLanes lanes.now all
        → map (λ l. l.now) lines.now ≡ lanes_texts 0 lanes.now all ++ back
        → MatchResult result
        (λ got. (map (λ list. list.items) got.0.items ≡ all)
        × (got.1 ≡ length (lanes_texts 0 lanes.now all))) (λ no. no ≡ Memory) }
{
    let mut all = Vec::new(alloc);
    let mut at = 0;
    for lane in lanes {
        let (replies, end) = lane_replies(alloc, lane.items(), lines, at)?;
        at = end;
        all.push(replies).map_err(AllocError::from)?;
    }
    Ok((all, at))
}

// The replies of a lane, whose first line stands behind so many, and how many lines stand before the next.
fn lane_replies(
    alloc: Global,
    commands: &[Command],
    lines: &[&str],
    from: usize,
) -> Result<(Vec<Reply>, usize), TextNo>
    ensures { (lane : ℕ) (replies : List Reply) (front back : List Text)
        → lane < 2 ^ 64 → FitReplies commands.now replies
        → map (λ l. l.now) lines.now ≡ front ++ (reply_texts lane 0 commands.now replies ++ back)
        → length front ≡ from
        → MatchResult result
        (λ got. (got.0.items ≡ replies) × (got.1 ≡ from + length replies)) (λ no. no ≡ Memory) }
{
    let mut replies = Vec::new(alloc);
    let mut at = from;
    for command in commands {
        let mut words = words_behind(lines, at)?;
        let _line = words.next();
        let _command = words.next();
        let reply = reply_of(alloc, command, &mut words)?;
        replies.push(reply).map_err(AllocError::from)?;
        at = at.saturating_add(1);
    }
    Ok((replies, at))
}

// The reply to a command.
fn reply_of(alloc: Global, command: &Command, words: &mut Words) -> Result<Reply, TextNo>
    ensures { (reply : Reply) (more : List Text) → FitsReply command.now reply
        → words.old.rest.now ≡ spaced (reply_words reply ++ more)
        → Gives result words.new.rest.now reply more }
{
    let word = words.next();
    if word == "ok" {
        done(alloc, command, words)
    } else if word == "busy" {
        Ok(Reply::Busy(words.number()?))
    } else if word == "kept" {
        Ok(Reply::Kept)
    } else if word == "freed" {
        Ok(Reply::Freed)
    } else {
        refusal(words, word)
    }
}

// The reply that a command is done, with what it tells.
fn done(alloc: Global, command: &Command, words: &mut Words) -> Result<Reply, TextNo>
    ensures { (reply : Reply) (told more : List Text) → FitsReply command.now reply
        → reply_words reply ≡ codes "ok" ∷ told → words.old.rest.now ≡ spaced (told ++ more)
        → Gives result words.new.rest.now reply more }
{
    match command {
        Command::Alloc { .. } => {
            let size = words.small()?;
            let place = words.place(size)?;
            Ok(Reply::OkPlace { size, place })
        }
        Command::Get { .. } | Command::Read { .. } => Ok(Reply::OkBytes(words.bytes(alloc)?)),
        Command::Refcnt { .. }
        | Command::Compose { .. }
        | Command::Add { .. }
        | Command::Capacity { .. } => Ok(Reply::OkNumber(words.small()?)),
        _ => Ok(Reply::Ok),
    }
}

// The reply that a command is refused by this word.
fn refusal(words: &Words, word: &str) -> Result<Reply, TextNo>
    ensures { (reply : Reply) → reply_words reply ≡ word.now ∷ [] → word.now ≢ codes "ok"
        → word.now ≢ codes "kept" → word.now ≢ codes "freed" → result ≡ Ok reply }
{
    if word == "unbound" {
        Ok(Reply::Unbound)
    } else if word == "taken" {
        Ok(Reply::Taken)
    } else if word == "illegal" {
        Ok(Reply::Illegal)
    } else if word == "range" {
        Ok(Reply::Range)
    } else if word == "toolarge" {
        Ok(Reply::TooLarge)
    } else if word == "handles" {
        Ok(Reply::Handles)
    } else if word == "full" {
        Ok(Reply::Full)
    } else if word == "nothing" {
        Ok(Reply::Nothing)
    } else if word == "composite" {
        Ok(Reply::Composite)
    } else if word == "plain" {
        Ok(Reply::Plain)
    } else if word == "stopped" {
        Ok(Reply::Stopped)
    } else {
        Err(words.refused(LineNo::Form))
    }
}
