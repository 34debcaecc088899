//! From a text to its run.

ghost use Rattle.std.specs.Prelude.{◌≡◌, ◌≢◌, ◌+◌, ◌++◌, ◌<◌, ◌↔◌, [], true, length, map, List, IsTrue, IfOk, MatchResult};
ghost use Rattle.std.specs.List.{All};
ghost use Rattle.pool_law.specs.Text.{Text, text_of};
ghost use Rattle.pool_law.specs.declared.note.Note.{Note};
ghost use Rattle.pool_law.specs.declared.run.Run.{Run};
ghost use Rattle.run_text.specs.Derived.{IsDerived};
ghost use Rattle.run_text.specs.Knowing.{FitsLine, line_text, line_told, notes_in};
ghost use Rattle.run_text.specs.Lines.{AreTold, Line, told_from};
ghost use Rattle.run_text.specs.Reads.{Reads};
ghost use Rattle.run_text.specs.declared.TextNo.TheVariants.{Memory};

use crate::ends::{chunks_of, leaks_of};
use crate::lines::{end_of, lines_of, refusal_of, words_behind};
use crate::logs::logs_of;
use crate::making::Making;
use crate::notes::note_line;
use crate::replies::replies_of;
use crate::{LineNo, TextNo};
use pool_law::{ChunkEnds, CommandList, LaneLog, LaneLogs, LeakList, Note, Run, Shape, Trace};
use run_report::text_of;
use std::alloc::{AllocError, Global};

/// What a text tells of a run of known trace and shape.
#[derive(Drop)]
struct TextParts {
    logs: LaneLogs,
    chunks: ChunkEnds,
    leaks: LeakList,
}

/// The run of this trace and shape that has this text, with its history, as `poolrun` prints it.
///
/// What the text leaves out is derived. Where there is a run with this text whose lanes' logs are of the law, and
/// which the lines determine otherwise, it is found, and nothing but want of memory refuses it. Where there is
/// none, as of a text that the pool can't have made, what is derived may be anything: whether the run is
/// legal is to be asked of `run_check`. A line that is refused is the first that can't be understood, or in which
/// the text of the run that was derived differs. Takes time linear in the length of the text, but for a
/// search among the births and growths at each of them and at each end, and among the objects at each note.
pub fn read_run(alloc: Global, trace: Trace, shape: Shape, text: &str) -> Result<Run, TextNo>
    ensures found { IfOk result (λ run. Reads trace shape text.now run) }
    ensures same { (other : Run) → Reads trace shape text.now other → IsDerived other
        → MatchResult result (λ run. run ≡ other) (λ no. no ≡ Memory) }
{
    let TextParts {
        logs,
        chunks,
        leaks,
    } = told_by(alloc, trace.lanes.items(), &shape, text)?;
    let run = Run {
        trace,
        shape,
        logs,
        chunks,
        leaks,
    };
    if !answers_all(run.trace.lanes.items(), run.logs.items()) {
        return Err(refusal_of(0, LineNo::Form));
    }
    let shown = text_of(alloc, &run, true)?;
    if shown.items() != text.as_bytes() {
        let shared = lines_shared(shown.items(), text.as_bytes());
        return Err(refusal_of(shared, LineNo::Form));
    }
    Ok(run)
}

// What a text tells.
fn told_by(
    alloc: Global,
    lanes: &[CommandList],
    shape: &Shape,
    text: &str,
) -> Result<TextParts, TextNo>
    ensures { (run : Run) → run.trace.lanes ≡ lanes.now → run.shape ≡ shape.now
        → text_of run true ≡ text.now → IsDerived run
        → MatchResult result (λ parts. (parts.logs ≡ run.logs) × (parts.chunks ≡ run.chunks)
        × (parts.leaks ≡ run.leaks)) (λ no. no ≡ Memory) }
{
    let lines = lines_of(alloc, text)?;
    let (replies, from) = replies_of(alloc, lanes, &lines)?;
    let to = end_of(&lines, from, "note ");
    let notes = notes_of(alloc, lanes.len(), shape.arenas, &lines, from, to)?;
    let logs = logs_of(alloc, lanes, shape, replies, notes)?;
    let end = end_of(&lines, to, "chunk ");
    Ok(TextParts {
        logs,
        chunks: chunks_of(alloc, &lines, to, end)?,
        leaks: leaks_of(alloc, &lines, end)?,
    })
}

// The notes of the lanes, from the lines from one to another.
fn notes_of(
    alloc: Global,
    lanes: usize,
    arenas: u32,
    lines: &[&str],
    from: usize,
    to: usize,
) -> Result<Vec<Vec<Note>>, TextNo>
    ensures { (front back : List Text) (logs : List (List Note))
        → map (λ l. l.now) lines.now ≡ front ++ (map line_text (told_from 0 logs) ++ back)
        → length front ≡ from → from + length (told_from 0 logs) ≡ to
        → All FitsLine (told_from 0 logs)
        → AreTold arenas (told_from 0 logs) [] (told_from 0 logs) → 0 < arenas
        → length logs ≡ lanes → All (λ log. log ≢ []) logs
        → MatchResult result (λ all. notes_in all.items ≡ logs) (λ no. no ≡ Memory) }
{
    let told = told_in(alloc, lines, from, to)?;
    let making = Making::of(alloc, lanes, arenas, told, from)?;
    // Each lane closes its caches, so each has notes.
    match making.whole() {
        Some(notes) => Ok(notes),
        None => Err(refusal_of(to, LineNo::Form)),
    }
}

// What the lines from one to another tell of notes, each with its lane.
fn told_in(
    alloc: Global,
    lines: &[&str],
    from: usize,
    to: usize,
) -> Result<Vec<(u32, Note)>, TextNo>
    ensures { (front back : List Text) (notes : List Line)
        → map (λ l. l.now) lines.now ≡ front ++ (map line_text notes ++ back)
        → length front ≡ from → from + length notes ≡ to → All FitsLine notes
        → MatchResult result (λ told. told.items ≡ map line_told notes) (λ no. no ≡ Memory) }
{
    let mut told = Vec::new(alloc);
    for at in from..to {
        let mut words = words_behind(lines, at)?;
        let note = note_line(alloc, &mut words)?;
        told.push(note).map_err(AllocError::from)?;
    }
    Ok(told)
}

// Whether each lane has a log, and each command a reply.
fn answers_all(lanes: &[CommandList], logs: &[LaneLog]) -> bool
    ensures { IsTrue result ↔ (map (λ log. length log.replies) logs.now ≡ map length lanes.now) }
{
    if lanes.len() != logs.len() {
        return false;
    }
    for at in 0..lanes.len() {
        if lanes[at].items().len() != logs[at].replies.items().len() {
            return false;
        }
    }
    true
}

// How many lines stand before the first in which two texts differ.
fn lines_shared(a: &[u8], b: &[u8]) -> usize {
    let mut count = 0usize;
    for (x, y) in a.iter().zip(b) {
        if *x != *y {
            break;
        }
        if *x == b'\n' {
            count = count.saturating_add(1);
        }
    }
    count
}
