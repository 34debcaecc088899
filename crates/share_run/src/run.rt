//! The program's one call, part by part: words, source, input, sink.
ghost use Rattle.std.specs.Prelude.{◌≡◌, ◌≢◌, ◌≤◌, [], map, string_bytes};
ghost use Rattle.text_ends.specs.Spans.{sink_span, source_span};
ghost use Rattle.share_run.specs.Outcomes.{Completes, Explains, ExplainsInput, ExplainsSource, ExplainsText, Refuses};
ghost use Rattle.share_text.specs.Inputs.{IsInput};

use crate::answer::{Outcome, Status};
use crate::play::play;
use share_text::{Input, InputNo, read_input};
use std::alloc::Global;
use std::sync::Wait;
use std::thread::Threads;
use text_ends::{Input as Reading, Output, Sink, Source, read_all, write_all};

/// Reads an input from the source, makes its composites in a pool, has its readers read them on
/// threads of their own, and writes what they saw.
///
/// It takes no words. The source is read to its end, or to one byte past the longest text and then
/// no further. The whole text is made before the first write. `Memory` may come in place of any
/// other status but `Words`; every other status has the cause that its name says. The text is that
/// of the input, whatever the readers met: a reader that finds another in a composite tries again.
pub fn share_run<R: Threads + Wait + Sync, S: Source, K: Sink>(
    rt: &R,
    alloc: Global,
    words: &[String],
    src: &mut S,
    out: &mut K,
) -> Outcome
    // What each status says of the words, of what was read and of what was written.
    ensures outcome { Explains result.status (map string_bytes words.now)
        (source_span S.left S.faults src.old src.new)
        (sink_span K.got K.faults K.empty_takes out.old out.new) }

    // Where there is a word, nothing is read.
    ensures words { map string_bytes words.now ≢ [] → result.status ≡ Status.Words }

    // A text that is no input is refused.
    ensures refuses { Refuses result.status (map string_bytes words.now)
        (source_span S.left S.faults src.old src.new) }

    // What an input's readers see is written.
    ensures completes { Completes result.status (map string_bytes words.now)
        (source_span S.left S.faults src.old src.new)
        (sink_span K.got K.faults K.empty_takes out.old out.new) }
{
    Outcome {
        status: status_of(rt, alloc, words, src, out),
    }
}

#[tactic(auto, unfolding(crate::specs::Outcomes::Explains))]
fn status_of<R: Threads + Wait + Sync, S: Source, K: Sink>(
    rt: &R,
    alloc: Global,
    words: &[String],
    src: &mut S,
    out: &mut K,
) -> Status
    ensures outcome { Explains result (map string_bytes words.now)
        (source_span S.left S.faults src.old src.new)
        (sink_span K.got K.faults K.empty_takes out.old out.new) }
    ensures words { map string_bytes words.now ≢ [] → result ≡ Status.Words }
{
    if words.is_empty() {
        with_source(rt, alloc, src, out)
    } else {
        Status::Words
    }
}

#[tactic(auto, unfolding(crate::specs::Outcomes::ExplainsSource))]
fn with_source<R: Threads + Wait + Sync, S: Source, K: Sink>(
    rt: &R,
    alloc: Global,
    src: &mut S,
    out: &mut K,
) -> Status
    ensures { ExplainsSource result (source_span S.left S.faults src.old src.new)
        (sink_span K.got K.faults K.empty_takes out.old out.new) }
{
    match read_all(alloc, src) {
        Reading::Fault => Status::ReadFault,
        Reading::Memory => Status::Memory,
        Reading::Text(text) => with_text(rt, alloc, &text, out),
    }
}

#[tactic(auto, unfolding(crate::specs::Outcomes::ExplainsText))]
fn with_text<R: Threads + Wait + Sync, K: Sink>(
    rt: &R,
    alloc: Global,
    text: &[u8],
    out: &mut K,
) -> Status
    ensures { ExplainsText result text.now
        (sink_span K.got K.faults K.empty_takes out.old out.new) }
{
    match read_input(alloc, text) {
        Ok(input) => with_input(rt, alloc, &input, out),
        Err(InputNo::Refused) => Status::Input,
        Err(InputNo::Memory) => Status::Memory,
    }
}

#[tactic(auto, unfolding(crate::specs::Outcomes::ExplainsInput))]
fn with_input<R: Threads + Wait + Sync, K: Sink>(
    rt: &R,
    alloc: Global,
    input: &Input,
    out: &mut K,
) -> Status
    requires { IsInput input.now }
    ensures { ExplainsInput result input.now
        (sink_span K.got K.faults K.empty_takes out.old out.new) }
{
    let Ok(text) = play(rt, alloc, input) else {
        return Status::Memory;
    };
    match write_all(out, text.items()) {
        Output::Fault => Status::WriteFault,
        Output::Whole => Status::Whole,
    }
}
