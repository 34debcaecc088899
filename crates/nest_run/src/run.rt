//! The program's one call, part by part: words, source, input, sink.
ghost use Rattle.std.specs.Prelude.{◌≡◌, ◌≢◌, ◌≤◌, [], map, string_bytes};
ghost use Rattle.text_ends.specs.Spans.{sink_span, source_span};
ghost use Rattle.nest_run.specs.Outcomes.{Completes, Explains, ExplainsInput, ExplainsSource, ExplainsText, Refuses};
ghost use Rattle.nest_run.specs.Steps.{IsInput};

use crate::answer::{Outcome, Status};
use crate::calls::Input;
use crate::play::{Played, play};
use crate::reading::read_input;
use crate::text::text_of;
use std::alloc::Global;
use std::sync::Wait;
use std::thread::Threads;
use text_ends::{Input as Reading, Output, Sink, Source, read_all, write_all};
use trace_text::RowNo;

/// Reads an input from the source, plays its calls on a nest over a root of a pool, and writes what
/// they were answered.
///
/// It takes no words. The source is read to its end, or to one byte past the longest text and then
/// no further. The whole text is made before the first write. `Memory` may come in place of any
/// other status but `Words`; every other status has the cause that its name says. A call that is
/// refused is a line of the text, and no status.
pub fn nest_run<R: Threads + Wait + Sync, S: Source, K: Sink>(
    rt: &R,
    alloc: Global,
    words: &[String],
    src: &mut S,
    out: &mut K,
) -> Outcome
    // What each status says of the words, of what was read and of what was written.
    ensures outcome { Explains result.status (map string_bytes words.now)
        (source_span S.left S.faults src.old src.new)
        (sink_span K.got K.faults K.empty_takes out.old out.new) }

    // Where there is a word, nothing is read.
    ensures words { map string_bytes words.now ≢ [] → result.status ≡ Status.Words }

    // A text that is no input is refused.
    ensures refuses { Refuses result.status (map string_bytes words.now)
        (source_span S.left S.faults src.old src.new) }

    // What an input's calls are answered is written.
    ensures completes { Completes result.status (map string_bytes words.now)
        (source_span S.left S.faults src.old src.new)
        (sink_span K.got K.faults K.empty_takes out.old out.new) }
{
    Outcome {
        status: status_of(rt, alloc, words, src, out),
    }
}

#[tactic(auto, unfolding(crate::specs::Outcomes::Explains))]
fn status_of<W: Wait, S: Source, K: Sink>(
    rt: &W,
    alloc: Global,
    words: &[String],
    src: &mut S,
    out: &mut K,
) -> Status
    ensures outcome { Explains result (map string_bytes words.now)
        (source_span S.left S.faults src.old src.new)
        (sink_span K.got K.faults K.empty_takes out.old out.new) }
    ensures words { map string_bytes words.now ≢ [] → result ≡ Status.Words }
{
    if words.is_empty() {
        with_source(rt, alloc, src, out)
    } else {
        Status::Words
    }
}

#[tactic(auto, unfolding(crate::specs::Outcomes::ExplainsSource))]
fn with_source<W: Wait, S: Source, K: Sink>(
    rt: &W,
    alloc: Global,
    src: &mut S,
    out: &mut K,
) -> Status
    ensures { ExplainsSource result (source_span S.left S.faults src.old src.new)
        (sink_span K.got K.faults K.empty_takes out.old out.new) }
{
    match read_all(alloc, src) {
        Reading::Fault => Status::ReadFault,
        Reading::Memory => Status::Memory,
        Reading::Text(text) => with_text(rt, alloc, &text, out),
    }
}

#[tactic(auto, unfolding(crate::specs::Outcomes::ExplainsText))]
fn with_text<W: Wait, K: Sink>(rt: &W, alloc: Global, text: &[u8], out: &mut K) -> Status
    ensures { ExplainsText result text.now
        (sink_span K.got K.faults K.empty_takes out.old out.new) }
{
    match read_input(alloc, text) {
        Ok(input) => with_input(rt, alloc, &input, out),
        Err(RowNo::Form) => Status::Input,
        Err(RowNo::Memory) => Status::Memory,
    }
}

#[tactic(auto, unfolding(crate::specs::Outcomes::ExplainsInput))]
fn with_input<W: Wait, K: Sink>(rt: &W, alloc: Global, input: &Input, out: &mut K) -> Status
    requires { IsInput input.now }
    ensures { ExplainsInput result input.now
        (sink_span K.got K.faults K.empty_takes out.old out.new) }
{
    let Ok(Played { replies, live }) = play(rt, alloc, input) else {
        return Status::Memory;
    };
    let Ok(text) = text_of(alloc, replies.items(), live) else {
        return Status::Memory;
    };
    match write_all(out, text.items()) {
        Output::Fault => Status::WriteFault,
        Output::Whole if live == 0 => Status::Whole,
        Output::Whole => Status::Live,
    }
}
