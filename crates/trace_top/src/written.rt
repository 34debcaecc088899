//! What is written of a run.
ghost use Rattle.std.specs.Prelude.{◌≡◌, None, Some, length, IfOk, IfSome};
ghost use Rattle.lane_core.specs.Played.{IsPlayed};
ghost use Rattle.trace_top.specs.Outcomes.{ExplainsRun, text_for};
ghost use Rattle.text_ends.specs.Spans.{sink_span};
ghost use Rattle.run_words.specs.Pools.{shape_of};

use crate::answer::{Outcome, Status, bare};
use lane_core::Played;
use pool_law::{Bytes, Options};
use run_report::{summary_of, text_of};
use run_words::{Origin, RunOptions};
use std::alloc::{AllocError, Global};
use text_ends::{Output, Sink, write_all};

/// Writes what is to be written of a run.
#[tactic(auto, unfolding(crate::specs::Outcomes::ExplainsRun))]
pub fn with_run<K: Sink>(
    alloc: Global,
    options: &RunOptions,
    pool: &Options,
    played: Played,
    out: &mut K,
) -> Outcome
    requires shape { played.shape ≡ shape_of pool.now (length played.trace.lanes) }
    ensures outcome { ExplainsRun result.status result options.now (played.trace.lanes, pool.now)
        (sink_span K.got K.faults K.empty_takes out.old out.new) }
    ensures same { IfSome result.run (λ run. run ≡ played) }
{
    let Ok(text) = text_for(alloc, options, &played) else {
        return bare(Status::Memory);
    };
    match write_all(out, text.items()) {
        Output::Fault => ended(Status::WriteFault, played),
        Output::Whole if played.run().leaks.items().is_empty() => ended(Status::Whole, played),
        Output::Whole => ended(Status::Leaks, played),
    }
}

// What is to be written of a run: its text, or its summary where its trace is generated.
fn text_for(alloc: Global, options: &RunOptions, played: &Played) -> Result<Bytes, AllocError>
    ensures text { IfOk result (λ bytes. bytes ≡ text_for options.now played.now) }
    ensures played { IsPlayed played.now }
{
    let run = played.run();
    match options.origin {
        Origin::Source => text_of(alloc, run, options.history),
        Origin::Generated(generation) => summary_of(alloc, run, generation.start),
    }
}

// The outcome with this run.
fn ended(status: Status, played: Played) -> Outcome
    ensures { result ≡ record { status = status; run = Some played; refusal = None } }
{
    Outcome {
        status,
        run: Some(played),
        refusal: None,
    }
}
