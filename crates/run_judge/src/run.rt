//! The program's one call, part by part: words, source, input, sink.

ghost use Rattle.std.specs.Prelude.{◌≡◌, ◌≢◌, [], map, string_bytes, None};
ghost use Rattle.text_ends.specs.Spans.{sink_span, source_span};
ghost use Rattle.run_judge.specs.Outcomes.{Explains, ExplainsPlayed, ExplainsRun, ExplainsSource};
ghost use Rattle.run_judge.specs.Told.{status_without};

use crate::answer::{Outcome, Status, status_for, status_without};
use crate::text::text_for;
use play_check::{Played, check_played};
use pool_law::Run;
use run_input::{InputNo, run_from};
use std::alloc::Global;
use text_ends::{Output, Sink, Source, write_all};

// An outcome with nothing more to tell.
fn bare(status: Status) -> Outcome
    ensures { result ≡ record { status = status; fault = None } }
{
    Outcome {
        status,
        fault: None,
    }
}

/// Reads words, a trace and a text with history from the source; finds a run with them, and judges whether the
/// pool can have made it and its notes are in one order; and writes that.
///
/// It takes no words. The source is read to its end, or to one byte past the longest text and then no
/// further. All is made before the first write. `Memory` may come in place of any other status but `Words`;
/// every other status has the cause that its name says. Where the text determines a run, that is judged: so where
/// a run with this text is legal and its notes are in one order. Of another text the run that is found may be
/// any. So `Legal` says that there is such a run, and `Illegal` and `Unread` that there is none in memory.
#[tactic(auto, unfolding(crate::specs::Outcomes::Explains))]
pub fn run_judge<S: Source, K: Sink>(
    alloc: Global,
    words: &[String],
    src: &mut S,
    out: &mut K,
) -> Outcome
    // What each status says of the words, of what was read and of what was written.
    ensures outcome { Explains result.status (map string_bytes words.now)
        (source_span S.left S.faults src.old src.new)
        (sink_span K.got K.faults K.empty_takes out.old out.new) }

    // Where there is a word, nothing is read.
    ensures words { map string_bytes words.now ≢ [] → result.status ≡ Status.Words }
{
    if words.is_empty() {
        with_source(alloc, src, out)
    } else {
        bare(Status::Words)
    }
}

fn with_source<S: Source, K: Sink>(alloc: Global, src: &mut S, out: &mut K) -> Outcome
    ensures { ExplainsSource result.status (source_span S.left S.faults src.old src.new)
        (sink_span K.got K.faults K.empty_takes out.old out.new) }
{
    match run_from(alloc, src) {
        Ok(run) => with_run(alloc, &run, out),
        Err(why) => without_run(why),
    }
}

// The outcome where no run was found.
fn without_run(why: InputNo) -> Outcome
    ensures { result.status ≡ status_without why }
{
    Outcome {
        status: status_without(why),
        fault: why.fault(),
    }
}

#[tactic(auto, unfolding(crate::specs::Outcomes::ExplainsRun))]
fn with_run<K: Sink>(alloc: Global, run: &Run, out: &mut K) -> Outcome
    ensures { ExplainsRun result.status run.now
        (sink_span K.got K.faults K.empty_takes out.old out.new) }
{
    match check_played(alloc, run) {
        Ok(played) => with_played(alloc, &played, out),
        Err(_) => bare(Status::Memory),
    }
}

fn with_played<K: Sink>(alloc: Global, played: &Played, out: &mut K) -> Outcome
    ensures { ExplainsPlayed result.status played.now
        (sink_span K.got K.faults K.empty_takes out.old out.new) }
{
    let Ok(text) = text_for(alloc, played) else {
        return bare(Status::Memory);
    };
    match write_all(out, text.items()) {
        Output::Fault => bare(Status::WriteFault),
        Output::Whole => bare(status_for(played)),
    }
}
