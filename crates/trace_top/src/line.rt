//! The line on standard error for an outcome.
ghost use Rattle.std.specs.Prelude.{◌≡◌, ◌++◌, Some, IfOk, OnOk, string_bytes, codes, [], ◌∷◌};
ghost use Rattle.trace_top.specs.Line.{limit_text, refusal_text, refused_line, status_line};

use crate::answer::{Outcome, Status};
use pool_law::Bytes;
use std::alloc::{AllocError, Global};
use trace_text::{Limit, TraceNo};

/// The line of an outcome, with its line feed. It is empty for a run that was written.
pub fn line_of(alloc: Global, outcome: &Outcome) -> Result<Bytes, AllocError>
    ensures { IfOk result (λ line. line ≡ status_line outcome.now.status outcome.now.refusal) }
{
    let text = text_of_status(alloc, outcome.status, &outcome.refusal)?;
    let bytes = Vec::from_slice(alloc, text.as_bytes())?;
    Ok(Bytes::of(bytes))
}

#[tactic(auto, unfolding(crate::specs::Line::status_line))]
fn text_of_status(
    alloc: Global,
    status: Status,
    refusal: &Option<TraceNo>,
) -> Result<String, AllocError>
    ensures { IfOk result (λ text. string_bytes text ≡ status_line status refusal.now) }
{
    match status {
        Status::Whole => Ok(String::new(alloc)),
        Status::Leaks => Ok(String::new(alloc)),
        Status::Words => String::from_str(alloc, "refused words\n"),
        Status::Trace => refused(alloc, refusal),
        Status::ReadFault => String::from_str(alloc, "read fault\n"),
        Status::WriteFault => String::from_str(alloc, "write fault\n"),
        Status::Memory => String::from_str(alloc, "out of memory\n"),
    }
}

fn refused(alloc: Global, refusal: &Option<TraceNo>) -> Result<String, AllocError>
    ensures { IfOk result (λ text. string_bytes text ≡ refused_line refusal.now) }
{
    match refusal {
        Some(why) => refused_for(alloc, *why),
        None => Ok(String::new(alloc)),
    }
}

fn refused_for(alloc: Global, why: TraceNo) -> Result<String, AllocError>
    ensures { IfOk result (λ text. string_bytes text ≡ refused_line (Some why)) }
{
    let mut text = String::from_str(alloc, "refused ")?;
    push_refusal(&mut text, why)?;
    text.push_str("\n")?;
    Ok(text)
}

#[tactic(auto, unfolding(crate::specs::Line::refusal_text))]
fn push_refusal(text: &mut String, why: TraceNo) -> Result<(), AllocError>
    ensures { OnOk result (string_bytes text.new ≡ string_bytes text.old ++ refusal_text why) }
{
    match why {
        TraceNo::Syntax => text.push_str("syntax"),
        TraceNo::Shape { lane, line } => write!(text, "shape {lane}.{line}"),
        TraceNo::Limit(limit) => {
            text.push_str("limit ")?;
            text.push_str(limit_word(limit))
        }
        TraceNo::Stuck { lane, line } => write!(text, "stuck {lane}.{line}"),
        TraceNo::Memory => text.push_str("memory"),
        TraceNo::Options => text.push_str("options"),
    }
}

fn limit_word(limit: Limit) -> &'static str
    ensures { result.now ≡ limit_text limit }
{
    match limit {
        Limit::Text => "text",
        Limit::Lanes => "lanes",
        Limit::Commands => "commands",
        Limit::Bytes => "bytes",
    }
}
