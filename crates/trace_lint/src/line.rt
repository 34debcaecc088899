//! The line that tells a finding.

use crate::lint::Finding;
use std::alloc::{AllocError, Global};
use trace_text::{Limit, TraceNo};

/// The line for what was found in a text: the place, the refusal, the command and the reason.
pub fn line_of(alloc: Global, found: &Option<Finding>) -> Result<String, AllocError> {
    match found {
        None => String::from_str(alloc, "accepted\n"),
        Some(finding) => refused_line(alloc, finding),
    }
}

fn refused_line(alloc: Global, finding: &Finding) -> Result<String, AllocError> {
    let (line, column) = (finding.line, finding.column);
    let mut text = format!(in alloc; "{line}:{column}: refused ")?;
    push_refusal(&mut text, finding.refusal)?;
    text.push_str(": ")?;
    if !finding.command.as_str().is_empty() {
        text.push_str(finding.command.as_str())?;
        text.push_str(": ")?;
    }
    text.push_str(finding.reason.as_str())?;
    text.push_str("\n")?;
    Ok(text)
}

fn push_refusal(text: &mut String, why: TraceNo) -> Result<(), AllocError> {
    match why {
        TraceNo::Syntax => text.push_str("syntax"),
        TraceNo::Shape { lane, line } => write!(text, "shape {lane}.{line}"),
        TraceNo::Limit(limit) => {
            text.push_str("limit ")?;
            text.push_str(limit_word(limit))
        }
        TraceNo::Stuck { lane, line } => write!(text, "stuck {lane}.{line}"),
        TraceNo::Memory => text.push_str("memory"),
        TraceNo::Options => text.push_str("options"),
    }
}

fn limit_word(limit: Limit) -> &'static str {
    match limit {
        Limit::Text => "text",
        Limit::Lanes => "lanes",
        Limit::Commands => "commands",
        Limit::Bytes => "bytes",
    }
}
