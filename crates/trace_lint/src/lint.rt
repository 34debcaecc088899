//! The verdict on a text, with the place and the reason of a refusal.
ghost use Rattle.std.specs.Prelude.{◌≡◌, IfOk, option_map};
ghost use Rattle.std.specs.Result.{result_err};
ghost use Rattle.trace_text.specs.Reading.{reading_of};

use crate::lanes::Lanes;
use crate::limits::{limit_fault, text_fault};
use crate::options::options_fault;
use crate::place::Fault;
use crate::shape::shape_fault;
use crate::stuck::stuck_fault;
use crate::syntax::syntax_fault;
use serde_json::Value;
use std::alloc::{AllocError, Global};
use trace_text::{Limit, TraceNo, read_trace};

/// Where and why a text is refused.
#[derive(Drop)]
pub struct Finding {
    /// The refusal, which is the reader's.
    pub refusal: TraceNo,
    /// The line of the place, from 1.
    pub line: u32,
    /// Its column in bytes, from 1.
    pub column: u32,
    /// The command at fault as it stands in the text; empty where it is none.
    pub command: String,
    /// What is wrong, in words.
    pub reason: String,
}

/// Why a text is refused, and nothing where it is accepted.
pub fn lint(alloc: Global, text: &[u8]) -> Result<Option<Finding>, AllocError>
    ensures verdict { IfOk result (λ found.
        option_map (λ (finding : Finding). finding.refusal) found
        ≡ result_err (reading_of text.now)) }
{
    match refusal_of(alloc, text)? {
        None => Ok(None),
        Some(refusal) => {
            let finding = finding_of(alloc, text, refusal)?;
            Ok(Some(finding))
        }
    }
}

/// The refusal of a text.
fn refusal_of(alloc: Global, text: &[u8]) -> Result<Option<TraceNo>, AllocError>
    ensures { IfOk result (λ refusal. refusal ≡ result_err (reading_of text.now)) }
{
    match read_trace(alloc, text) {
        Ok(_) => Ok(None),
        Err(TraceNo::Memory) => Err(AllocError),
        Err(refusal) => Ok(Some(refusal)),
    }
}

/// The refusal with its place and its reason.
fn finding_of(alloc: Global, text: &[u8], refusal: TraceNo) -> Result<Finding, AllocError>
    ensures { IfOk result (λ finding. finding.refusal ≡ refusal) }
{
    let Fault {
        place,
        shown,
        reason,
    } = fault_of(alloc, text, refusal)?;
    Ok(Finding {
        refusal,
        line: place.line,
        column: place.column,
        command: shown,
        reason,
    })
}

fn fault_of(alloc: Global, text: &[u8], refusal: TraceNo) -> Result<Fault, AllocError> {
    match refusal {
        TraceNo::Memory => Err(AllocError),
        TraceNo::Limit(Limit::Text) => text_fault(alloc, text),
        TraceNo::Syntax => syntax_fault(alloc, text),
        TraceNo::Shape { .. } | TraceNo::Limit(_) | TraceNo::Stuck { .. } | TraceNo::Options => {
            match Value::from_slice(alloc, text) {
                Ok(top) => fault_in(alloc, text, &top, refusal),
                Err(error) if error.is_memory() => Err(AllocError),
                Err(_) => syntax_fault(alloc, text),
            }
        }
    }
}

/// The fault of a text that is JSON.
fn fault_in(
    alloc: Global,
    text: &[u8],
    top: &Value,
    refusal: TraceNo,
) -> Result<Fault, AllocError> {
    match refusal {
        TraceNo::Shape { lane, line } => {
            let lanes = Lanes::of(alloc, text, top)?;
            shape_fault(alloc, lanes, lane as usize, line as usize)
        }
        TraceNo::Stuck { lane, line } => {
            let lanes = Lanes::of(alloc, text, top)?;
            stuck_fault(alloc, lanes, lane as usize, line as usize)
        }
        TraceNo::Limit(limit) => limit_fault(alloc, Lanes::of(alloc, text, top)?, limit),
        TraceNo::Options => options_fault(alloc, text, top),
        TraceNo::Syntax => syntax_fault(alloc, text),
        TraceNo::Memory => Err(AllocError),
    }
}
