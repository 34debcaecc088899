//! A text beside words: its trace, and the pool that both ask for.
ghost use Rattle.std.specs.Prelude.{◌≤◌, IfOk, length};
ghost use Rattle.pool_law.specs.Traces.{AreLanes};
ghost use Rattle.trace_text.specs.Options.{AreOptions};
ghost use Rattle.trace_text.specs.Reading.{Gives};
ghost use Rattle.run_words.specs.Pools.{AreSound, reading_for};

use crate::pools::{is_within_memory, over};
use pool_law::Options;
use std::alloc::Global;
use trace_text::{Read, TraceNo, read_trace};

/// The trace that a text is, with what the words and the text ask of the pool.
#[tactic(auto, unfolding(crate::specs::Pools::reading_for))]
pub fn read_for(alloc: Global, words: &Options, text: &[u8]) -> Result<Read, TraceNo>
    requires { AreOptions words.now }
    ensures reading { Gives result (reading_for words.now text.now) }
    ensures sound { IfOk result (λ read. AreSound read.options) }
    ensures lanes { IfOk result (λ read. AreLanes read.trace.lanes) }
    ensures some_lane { IfOk result (λ read. 1 ≤ length read.trace.lanes) }
    ensures few_lanes { IfOk result (λ read. length read.trace.lanes ≤ 16) }
{
    let Read { trace, options } = read_trace(alloc, text)?;
    let options = over(words, &options);
    if is_within_memory(&options) {
        Ok(Read { trace, options })
    } else {
        Err(TraceNo::Options)
    }
}
