//! The top call, part by part: words, source or generated trace, run.
ghost use Rattle.std.specs.Prelude.{◌≡◌, ◌≤◌, None, map, string_bytes, length, IfSome};
ghost use Rattle.lane_core.specs.Played.{IsHeeded};
ghost use Rattle.order_laws.specs.HeadlineInOrder.{HeadlineInOrder};
ghost use Rattle.trace_make.specs.Generated.{generated};
ghost use Rattle.pool_law.specs.Traces.{AreLanes};
ghost use Rattle.trace_top.specs.Outcomes.{Completes, Explains, ExplainsOptions, ExplainsRun, ExplainsSource, ExplainsText, Refuses};
ghost use Rattle.text_ends.specs.Spans.{sink_span, source_span};
ghost use Rattle.trace_text.specs.Options.{AreOptions};
ghost use Rattle.run_words.specs.Pools.{AreSound};
ghost use Rattle.run_words.specs.Words.{IsGeneration, IsOrigin, options_of};

use crate::answer::{Outcome, Status, bare};
use crate::play::play;
use crate::written::with_run;
use lane_core::Gate;
use run_words::{Generation, Origin, RunOptions, read_for, read_words, shape};
use std::alloc::{AllocError, Global};
use std::sync::Wait;
use std::thread::Threads;
use text_ends::{Input, Sink, Source, read_all};
use trace_make::make;
use trace_text::{Read, TraceNo};

/// Reads the words and then the trace, runs it, and writes the text of the run. Where the words ask
/// for a generated trace, it makes that one in place of reading the source, of which it then reads
/// nothing, and writes the summary of the run.
///
/// The source is read to its end, or to one byte past the longest text and then no further.
/// The whole text is made before the first write. `Memory` may come in place of any other status
/// but `Words`; every other status has the cause that its name says. A command that is refused
/// in the run is a reply in the text, and no status. So is a command of a lane from where the gate
/// stops it: it is answered `stopped`.
pub fn run<R: Threads + Wait + Sync, S: Source, K: Sink, G: Gate>(
    rt: &R,
    alloc: Global,
    words: &[String],
    src: &mut S,
    out: &mut K,
    gate: &G,
) -> Outcome
    // What each status says of the outcome, of what was read and of what was written.
    ensures outcome { Explains result.status result (map string_bytes words.now)
        (source_span S.left S.faults src.old src.new)
        (sink_span K.got K.faults K.empty_takes out.old out.new) }

    // What a run gives, at its end and at each moment of the one order in which its steps were
    // made, for whatever trace, workers and interleaving: all steps stand in one order, in which
    // each fits what was done before it; regions of live roots never overlap; each read gives the
    // bytes last written; a region returns once, by the release that ends its root's count or the
    // growth that replaces it; the report lists exactly the sampled roots never freed.
    ensures headline { IfSome result.run HeadlineInOrder }

    // A reply is `stopped` exactly where the gate stops its lane at its line or an earlier one.
    ensures stopped { IfSome result.run (IsHeeded (G.stops gate.now)) }

    // Words without a form are refused, and nothing is read.
    ensures words { options_of (map string_bytes words.now) ≡ None → result.status ≡ Status.Words }

    // A text that is no trace is refused.
    ensures refuses { Refuses result.status result.refusal (map string_bytes words.now)
        (source_span S.left S.faults src.old src.new) }

    // A trace is run and written: one that is read, and one that is generated.
    ensures completes { Completes result.status (map string_bytes words.now)
        (source_span S.left S.faults src.old src.new)
        (sink_span K.got K.faults K.empty_takes out.old out.new) }
{
    answer(rt, alloc, words, src, out, gate)
}

#[tactic(auto, unfolding(crate::specs::Outcomes::Explains))]
fn answer<R: Threads + Wait + Sync, S: Source, K: Sink, G: Gate>(
    rt: &R,
    alloc: Global,
    words: &[String],
    src: &mut S,
    out: &mut K,
    gate: &G,
) -> Outcome
    ensures outcome { Explains result.status result (map string_bytes words.now)
        (source_span S.left S.faults src.old src.new)
        (sink_span K.got K.faults K.empty_takes out.old out.new) }
    ensures words { options_of (map string_bytes words.now) ≡ None → result.status ≡ Status.Words }
    ensures stopped { IfSome result.run (IsHeeded (G.stops gate.now)) }
{
    match read_words(words) {
        None => bare(Status::Words),
        Some(options) => with_options(rt, alloc, &options, src, out, gate),
    }
}

fn with_options<R: Threads + Wait + Sync, S: Source, K: Sink, G: Gate>(
    rt: &R,
    alloc: Global,
    options: &RunOptions,
    src: &mut S,
    out: &mut K,
    gate: &G,
) -> Outcome
    requires sound { AreSound options.now.pool }
    requires within { AreOptions options.now.pool }
    requires origin { IsOrigin options.now.origin }
    ensures outcome { ExplainsOptions result.status result options.now
        (source_span S.left S.faults src.old src.new)
        (sink_span K.got K.faults K.empty_takes out.old out.new) }
    ensures stopped { IfSome result.run (IsHeeded (G.stops gate.now)) }
{
    match options.origin {
        Origin::Source => with_source(rt, alloc, options, src, out, gate),
        Origin::Generated(generation) => with_generation(
            rt,
            alloc,
            options,
            &generation,
            out,
            gate,
        ),
    }
}

#[tactic(auto, unfolding(crate::specs::Outcomes::ExplainsSource))]
fn with_source<R: Threads + Wait + Sync, S: Source, K: Sink, G: Gate>(
    rt: &R,
    alloc: Global,
    options: &RunOptions,
    src: &mut S,
    out: &mut K,
    gate: &G,
) -> Outcome
    requires within { AreOptions options.now.pool }
    ensures outcome { ExplainsSource result.status result options.now
        (source_span S.left S.faults src.old src.new)
        (sink_span K.got K.faults K.empty_takes out.old out.new) }
    ensures stopped { IfSome result.run (IsHeeded (G.stops gate.now)) }
{
    match read_all(alloc, src) {
        Input::Fault => bare(Status::ReadFault),
        Input::Memory => bare(Status::Memory),
        Input::Text(text) => with_text(rt, alloc, options, &text, out, gate),
    }
}

#[tactic(auto, unfolding(crate::specs::Outcomes::ExplainsText))]
fn with_text<R: Threads + Wait + Sync, K: Sink, G: Gate>(
    rt: &R,
    alloc: Global,
    options: &RunOptions,
    text: &[u8],
    out: &mut K,
    gate: &G,
) -> Outcome
    requires within { AreOptions options.now.pool }
    ensures outcome { ExplainsText result.status result options.now text.now
        (sink_span K.got K.faults K.empty_takes out.old out.new) }
    ensures stopped { IfSome result.run (IsHeeded (G.stops gate.now)) }
{
    match read_for(alloc, &options.pool, text) {
        Ok(read) => with_trace(rt, alloc, options, read, out, gate),
        Err(TraceNo::Memory) => bare(Status::Memory),
        Err(why) => Outcome {
            status: Status::Trace,
            run: None,
            refusal: Some(why),
        },
    }
}

#[tactic(auto, unfolding(crate::specs::Outcomes::ExplainsRun))]
fn with_generation<R: Threads + Wait + Sync, K: Sink, G: Gate>(
    rt: &R,
    alloc: Global,
    options: &RunOptions,
    generation: &Generation,
    out: &mut K,
    gate: &G,
) -> Outcome
    requires sound { AreSound options.now.pool }
    requires generation { IsGeneration generation.now }
    ensures outcome { ExplainsRun result.status result options.now (
      generated generation.now.start generation.now.lanes generation.now.commands,
      options.now.pool,
    )
        (sink_span K.got K.faults K.empty_takes out.old out.new) }
    ensures stopped { IfSome result.run (IsHeeded (G.stops gate.now)) }
{
    let Generation {
        start,
        lanes,
        commands,
    } = *generation;
    match make(alloc, start, lanes, commands) {
        Ok(trace) => {
            let read = Read {
                trace,
                options: options.pool,
            };
            with_trace(rt, alloc, options, read, out, gate)
        }
        Err(AllocError) => bare(Status::Memory),
    }
}

#[tactic(auto, unfolding(crate::specs::Outcomes::ExplainsRun))]
fn with_trace<R: Threads + Wait + Sync, K: Sink, G: Gate>(
    rt: &R,
    alloc: Global,
    options: &RunOptions,
    read: Read,
    out: &mut K,
    gate: &G,
) -> Outcome
    requires sound { AreSound read.options }
    requires lanes { AreLanes read.trace.lanes }
    requires some_lane { 1 ≤ length read.trace.lanes }
    requires few_lanes { length read.trace.lanes ≤ 16 }
    ensures outcome { ExplainsRun result.status result options.now (read.trace.lanes, read.options)
        (sink_span K.got K.faults K.empty_takes out.old out.new) }
    ensures stopped { IfSome result.run (IsHeeded (G.stops gate.now)) }
{
    let Read {
        trace,
        options: pool,
    } = read;
    let shape = shape(&pool, trace.lanes.items().len() as u32);
    match play(rt, alloc, trace, &shape, options.workers, gate) {
        Ok(played) => with_run(alloc, options, &pool, played, out),
        Err(_) => bare(Status::Memory),
    }
}
