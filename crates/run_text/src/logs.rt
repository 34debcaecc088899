//! The logs of the lanes: their notes, and their replies with how many notes each command made.

ghost use Rattle.std.specs.Prelude.{◌≡◌, ◌<◌, ◌^◌, ℕ, List, Some, length, map, slice_get, IfOk};
ghost use Rattle.std.specs.List.{All};
ghost use Rattle.pool_law.specs.declared.note.Note.{Note};
ghost use Rattle.pool_law.specs.declared.run.Answered.{Answered};
ghost use Rattle.pool_law.specs.LaneLaw.{note_counts, replies_in};
ghost use Rattle.pool_law.specs.Logs.{of_lane};
ghost use Rattle.run_check.specs.Cutting.{AreLaneLogs, counts_in, lists_in};
ghost use Rattle.run_text.specs.Derived.{AreFew};
ghost use Rattle.run_text.specs.Knowing.{notes_in};

use crate::cutting::counts_told;
use pool_law::{Answered, CommandList, LaneLog, LaneLogs, Note, NoteList, Reply, ReplyList, Shape};
use run_check::cuts_of;
use std::alloc::{AllocError, Global};

/// The logs of the lanes. How many notes each command made, the text does not tell: by the law where it reads
/// the notes of all commands so, and else as far as the notes themselves tell.
pub fn logs_of(
    alloc: Global,
    lanes: &[CommandList],
    shape: &Shape,
    replies: Vec<Vec<Reply>>,
    notes: Vec<Vec<Note>>,
) -> Result<LaneLogs, AllocError>
    ensures { (answered : List (List Answered))
        → map replies_in answered ≡ lists_in replies.items
        → AreLaneLogs shape.now lanes.now answered (notes_in notes.items) → All AreFew answered
        → IfOk result (λ logs. (map (λ log. log.replies) logs ≡ answered)
        × (map (λ log. log.notes) logs ≡ notes_in notes.items)) }
{
    let bare = unanswered(alloc, notes)?;
    let counts = counts_of(alloc, lanes, shape, &replies, &bare)?;
    joined(alloc, replies, bare, &counts)
}

// The logs before any reply.
fn unanswered(alloc: Global, notes: Vec<Vec<Note>>) -> Result<Vec<LaneLog>, AllocError>
    ensures { IfOk result (λ logs. map (λ log. log.notes) logs.items ≡ notes_in notes.items) }
{
    let mut logs = Vec::new(alloc);
    for list in notes {
        let replies = ReplyList::of(Vec::new(alloc));
        let notes = NoteList::of(list);
        logs.push(LaneLog { replies, notes })?;
    }
    Ok(logs)
}

// How many notes each command of each lane made.
fn counts_of(
    alloc: Global,
    lanes: &[CommandList],
    shape: &Shape,
    replies: &[Vec<Reply>],
    logs: &[LaneLog],
) -> Result<Vec<Vec<usize>>, AllocError>
    ensures { (answered : List (List Answered))
        → map replies_in answered ≡ lists_in replies.now
        → AreLaneLogs shape.now lanes.now answered (map (λ log. log.notes) logs.now)
        → IfOk result (λ counts. counts_in counts.items ≡ map note_counts answered) }
{
    match cuts_of(alloc, shape, lanes, replies, logs)? {
        Some(cuts) => Ok(cuts),
        None => counts_told(alloc, lanes, replies, logs),
    }
}

// Each log with its replies, and each of them with its count.
fn joined(
    alloc: Global,
    replies: Vec<Vec<Reply>>,
    logs: Vec<LaneLog>,
    counts: &[Vec<usize>],
) -> Result<LaneLogs, AllocError>
    ensures { (answered : List (List Answered))
        → map replies_in answered ≡ lists_in replies.items
        → map note_counts answered ≡ counts_in counts.now → length answered ≡ length logs.items
        → All AreFew answered
        → IfOk result (λ all. (map (λ log. log.replies) all ≡ answered)
        × (map (λ log. log.notes) all ≡ map (λ log. log.notes) logs.items)) }
{
    let mut all = Vec::new(alloc);
    for (list, log) in replies.into_iter().zip(logs) {
        let replies = with_counts(alloc, list, counts_at(counts, all.len()))?;
        let notes = log.notes;
        all.push(LaneLog { replies, notes })?;
    }
    Ok(LaneLogs::of(all))
}

// The counts of a lane, if there are any.
fn counts_at(counts: &[Vec<usize>], lane: usize) -> &[usize]
    ensures { result.now ≡ of_lane (counts_in counts.now) lane }
{
    if lane < counts.len() {
        &counts[lane]
    } else {
        &[]
    }
}

// Replies, each with its count.
fn with_counts(
    alloc: Global,
    replies: Vec<Reply>,
    counts: &[usize],
) -> Result<ReplyList, AllocError>
    ensures { (answered : List Answered) → replies_in answered ≡ replies.items
        → note_counts answered ≡ counts.now → AreFew answered
        → IfOk result (λ list. list ≡ answered) }
{
    let mut answered = Vec::new(alloc);
    for reply in replies {
        let notes = count_at(counts, answered.len());
        answered.push(Answered { reply, notes })?;
    }
    Ok(ReplyList::of(answered))
}

// The count at a place: none where there is none, and the greatest that 32 bits say where it is more.
fn count_at(counts: &[usize], at: usize) -> u32
    ensures { (count : ℕ) → slice_get counts.now at ≡ Some count → count < 2 ^ 32
        → result ≡ count }
{
    let count = if at < counts.len() { counts[at] } else { 0 };
    u32::try_from(count).unwrap_or(u32::MAX)
}
