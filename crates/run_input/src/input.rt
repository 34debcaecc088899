//! From the source to the run.

ghost use Rattle.std.specs.Prelude.{Some};
ghost use Rattle.serde_json.specs.View.{view};
ghost use Rattle.text_ends.specs.Spans.{source_span};
ghost use Rattle.pool_law.specs.Limits.{IsShape};
ghost use Rattle.run_input.specs.Cases.{case_in, case_of};
ghost use Rattle.run_input.specs.Found.{IsFound, IsTold};

use crate::asked::{Asked, asked_from, read_value, text_in};
use crate::fault::{Fault, InputNo};
use pool_law::Run;
use run_text::{TextNo, read_run};
use serde_json::Value;
use std::alloc::Global;
use text_ends::{Input, Source, read_all};
use trace_text::RowNo;

/// Reads words, a trace and a text with history from the source, and finds a run with them, whose measures are
/// within the limits of a pool.
///
/// The source is read to its end, or to one byte past the longest text and then no further. The run is one of
/// that trace, over the pool that the words and the trace ask for, with exactly that text, and where the text
/// determines one, that one: so where the pool can have made one, its notes in one order; of another text it
/// may be any. `Form` and `ReadFault` have the cause that their names say; where the text is `Unread`, it
/// determines no run, and the pool can have made none with notes in one order whose numbers are of their types.
pub fn run_from<S: Source>(alloc: Global, src: &mut S) -> Result<Run, InputNo>
    ensures { IsFound result (source_span S.left S.faults src.old src.new) }
{
    match read_all(alloc, src) {
        Input::Text(text) => run_in(alloc, &text),
        Input::Fault => Err(InputNo::ReadFault),
        Input::Memory => Err(InputNo::Memory),
    }
}

// The run that a text tells of.
#[tactic(auto, using(crate::proofs::CaseLaws::case_unread))]
fn run_in(alloc: Global, text: &[u8]) -> Result<Run, InputNo>
    ensures { IsTold result (case_of text.now) }
{
    match read_value(alloc, text) {
        Ok(value) => run_of(alloc, &value),
        Err(RowNo::Form) => Err(InputNo::Form),
        Err(RowNo::Memory) => Err(InputNo::Memory),
    }
}

// The run that a JSON value tells of.
#[tactic(auto, using(crate::proofs::CaseLaws::text_wanting, crate::proofs::CaseLaws::asked_wanting))]
fn run_of(alloc: Global, value: &Value) -> Result<Run, InputNo>
    ensures { IsTold result (case_in (view value.now)) }
{
    match asked_from(alloc, value) {
        Ok(asked) => match text_in(value) {
            Some(text) => run_with(alloc, asked, text),
            None => Err(InputNo::Form),
        },
        Err(RowNo::Form) => Err(InputNo::Form),
        Err(RowNo::Memory) => Err(InputNo::Memory),
    }
}

// The run with a trace, a pool and a text.
fn run_with(alloc: Global, asked: Asked, text: &str) -> Result<Run, InputNo>
    requires { IsShape asked.shape }
    ensures { IsTold result (Some (asked, text.now)) }
{
    let Asked { trace, shape } = asked;
    match read_run(alloc, trace, shape, text) {
        Ok(run) => Ok(run),
        Err(TextNo::Memory) => Err(InputNo::Memory),
        Err(TextNo::Line { number, why }) => Err(InputNo::Unread(Fault { line: number, why })),
    }
}
