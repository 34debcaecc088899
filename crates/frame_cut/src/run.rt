//! The program's one call, part by part: words, stream, sink.

ghost use Rattle.std.specs.Prelude.{◌≡◌, ℕ, List, map, string_bytes, None};
ghost use Rattle.text_ends.specs.Spans.{SourceSpan, sink_span, source_span};
ghost use Rattle.frame_core.specs.Frames.{frames_of};
ghost use Rattle.frame_words.specs.Words.{AreOptions, options_of};
ghost use Rattle.frame_cut.specs.Lines.{failed};
ghost use Rattle.frame_cut.specs.Outcomes.{Completes, Explains, ExplainsStream, IsWhole, Refuses};
ghost use Rattle.frame_cut.specs.Tellings.{HasTold, Tells};

use crate::answer::{Outcome, Status};
use crate::closing::StreamEnd;
use crate::hashing::hash_stream;
use crate::text::text_of;
use frame_cutter::Verdict;
use frame_words::{CutOptions, read_words};
use std::alloc::{AllocError, Global};
use std::sync::Wait;
use std::thread::Threads;
use text_ends::{Output, Sink, Source, write_all};

/// Reads a stream of frames from the source, has workers hash them, and writes a line for each.
///
/// The stream is read to its end, or up to the end of the block in which it is refused, and then no
/// further. The whole text is made before the first write. `Memory` may come in place of any other
/// status but `Words`; every other status has the cause that its name says. The text is that of the
/// bytes that were read, whatever the source gives at a read, however long a block is and however
/// many workers there are.
pub fn cut_run<R: Threads + Wait + Sync, S: Source, K: Sink>(
    rt: &R,
    alloc: Global,
    words: &[String],
    src: &mut S,
    out: &mut K,
) -> Outcome
    // What each status says of the words, of what was read and of what was written.
    ensures outcome { Explains result.status result (map string_bytes words.now)
        (source_span S.left S.faults src.old src.new)
        (sink_span K.got K.faults K.empty_takes out.old out.new) }

    // Words without a form are refused, and nothing is read.
    ensures words { options_of (map string_bytes words.now) ≡ None → result ≡ failed Status.Words }

    // The text of a stream of frames is written.
    ensures completes { Completes result (map string_bytes words.now)
        (source_span S.left S.faults src.old src.new)
        (sink_span K.got K.faults K.empty_takes out.old out.new) }

    // A stream that isn't frames alone is refused for what is wrong with it.
    ensures refuses { Refuses result (map string_bytes words.now)
        (source_span S.left S.faults src.old src.new) }
{
    outcome_of(rt, alloc, words, src, out)
}

fn outcome_of<R: Threads + Wait + Sync, S: Source, K: Sink>(
    rt: &R,
    alloc: Global,
    words: &[String],
    src: &mut S,
    out: &mut K,
) -> Outcome
    ensures outcome { Explains result.status result (map string_bytes words.now)
        (source_span S.left S.faults src.old src.new)
        (sink_span K.got K.faults K.empty_takes out.old out.new) }
    ensures words { options_of (map string_bytes words.now) ≡ None → result ≡ failed Status.Words }
{
    match read_words(words) {
        Some(options) => with_options(rt, alloc, options, src, out),
        None => Outcome::failed(Status::Words),
    }
}

#[tactic(auto, unfolding(crate::specs::Outcomes::ExplainsStream))]
fn with_options<R: Threads + Wait + Sync, S: Source, K: Sink>(
    rt: &R,
    alloc: Global,
    options: CutOptions,
    src: &mut S,
    out: &mut K,
) -> Outcome
    requires { AreOptions options }
    ensures { ExplainsStream result.status result options.block
        (source_span S.left S.faults src.old src.new)
        (sink_span K.got K.faults K.empty_takes out.old out.new) }
{
    match hash_stream(rt, alloc, options, src) {
        Ok(told) => with_told(alloc, &told, out),
        Err(AllocError) => Outcome::failed(Status::Memory),
    }
}

#[tactic(auto, unfolding(crate::specs::Outcomes::ExplainsStream))]
fn with_told<K: Sink>(alloc: Global, told: &StreamEnd, out: &mut K) -> Outcome
    requires { (block : ℕ) × ((src : SourceSpan)
        × HasTold told.now.verdict told.now block src) }
    ensures { (block : ℕ) (src : SourceSpan) → HasTold told.now.verdict told.now block src →
        ExplainsStream result.status result block src
        (sink_span K.got K.faults K.empty_takes out.old out.new) }
{
    match told.verdict {
        Verdict::Fault => Outcome::failed(Status::ReadFault),
        Verdict::Refused(why) => Outcome::refused(why),
        Verdict::Whole => with_frames(alloc, told, out),
    }
}

#[tactic(auto, unfolding(crate::specs::Outcomes::ExplainsStream))]
fn with_frames<K: Sink>(alloc: Global, told: &StreamEnd, out: &mut K) -> Outcome
    requires { (bytes : List ℕ) × Tells told.now (frames_of bytes) }
    ensures { (block : ℕ) (src : SourceSpan) (bytes : List ℕ) → IsWhole src bytes →
        Tells told.now (frames_of bytes) → ExplainsStream result.status result block src
        (sink_span K.got K.faults K.empty_takes out.old out.new) }
{
    let Ok(text) = text_of(alloc, told) else {
        return Outcome::failed(Status::Memory);
    };
    match write_all(out, text.items()) {
        Output::Fault => Outcome::told(Status::WriteFault, told.frames),
        Output::Whole => Outcome::told(Status::Whole, told.frames),
    }
}
