//! The program's one call, part by part: words, source, input, sink.

ghost use Rattle.std.specs.Prelude.{◌≡◌, map, string_bytes, None};
ghost use Rattle.pool_law.specs.Limits.{IsShape};
ghost use Rattle.text_ends.specs.Spans.{sink_span, source_span};
ghost use Rattle.run_view.specs.Outcomes.{Explains, ExplainsRun, ExplainsSource, status_without};

use crate::answer::{Outcome, Status, status_without};
use crate::roots::{WordsNo, roots_of};
use pool_law::Run;
use run_input::{InputNo, run_from};
use run_picture::{RootName, picture_of};
use std::alloc::Global;
use text_ends::{Output, Sink, Source, write_all};

// An outcome with nothing more to tell.
fn bare(status: Status) -> Outcome
    ensures { result ≡ record { status = status; fault = None } }
{
    Outcome {
        status,
        fault: None,
    }
}

/// Reads words, a trace and a text with history from the source; finds a run with them, legal or not; and writes
/// its picture, with a track for each root that the words name.
///
/// The source is read to its end, or to one byte past the longest text and then no further. All is made before the
/// first write. Where the words have no form nothing is read. `Memory` may come in place of any other status; every
/// other status but `Unread` has the cause that its name says. Of a text that the pool can't have made the run that
/// is found and drawn may be any with this text.
#[tactic(auto, unfolding(crate::specs::Outcomes::Explains))]
pub fn run_view<S: Source, K: Sink>(
    alloc: Global,
    words: &[String],
    src: &mut S,
    out: &mut K,
) -> Outcome
    ensures { Explains result.status (map string_bytes words.now)
        (source_span S.left S.faults src.old src.new)
        (sink_span K.got K.faults K.empty_takes out.old out.new) }
{
    match roots_of(alloc, words) {
        Ok(roots) => with_source(alloc, &roots, src, out),
        Err(WordsNo::Form) => bare(Status::Words),
        Err(WordsNo::Memory) => bare(Status::Memory),
    }
}

fn with_source<S: Source, K: Sink>(
    alloc: Global,
    roots: &[RootName],
    src: &mut S,
    out: &mut K,
) -> Outcome
    ensures { ExplainsSource result.status (source_span S.left S.faults src.old src.new)
        (sink_span K.got K.faults K.empty_takes out.old out.new) }
{
    match run_from(alloc, src) {
        Ok(run) => with_run(alloc, roots, &run, out),
        Err(why) => without_run(why),
    }
}

// The outcome where no run was found.
fn without_run(why: InputNo) -> Outcome
    ensures { result.status ≡ status_without why }
{
    Outcome {
        status: status_without(why),
        fault: why.fault(),
    }
}

fn with_run<K: Sink>(alloc: Global, roots: &[RootName], run: &Run, out: &mut K) -> Outcome
    requires { IsShape run.now.shape }
    ensures { ExplainsRun result.status run.now
        (sink_span K.got K.faults K.empty_takes out.old out.new) }
{
    let Ok(picture) = picture_of(alloc, run, roots) else {
        return bare(Status::Memory);
    };
    // Measures within their limits have a picture.
    let picture = picture.unwrap();
    match write_all(out, picture.items()) {
        Output::Fault => bare(Status::WriteFault),
        Output::Whole => bare(Status::Drawn),
    }
}
