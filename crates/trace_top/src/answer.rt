//! What the top call answers.
ghost use Rattle.std.specs.Prelude.{◌≡◌, None};

use lane_core::Played;
use trace_text::TraceNo;

/// How a run of the program ended. The number is the program's exit status.
#[derive(Clone, Copy, Debug, PartialEq, Eq)]
pub enum Status {
    /// The trace was run and its text written; no root leaked.
    Whole = 0,
    /// The trace was run and its text written; the leak report isn't empty.
    Leaks = 1,
    /// The words of the command line have no form.
    Words = 2,
    /// What was read is no trace.
    Trace = 3,
    /// The source failed.
    ReadFault = 4,
    /// The sink failed, or took nothing of a piece that isn't empty.
    WriteFault = 5,
    /// There was no memory. Nothing was written.
    Memory = 6,
}

/// What a run of the program came to.
#[derive(Drop)]
pub struct Outcome {
    pub status: Status,
    /// The run, for `Whole`, `Leaks` and `WriteFault`.
    pub run: Option<Played>,
    /// Why the text is no trace, for `Trace`.
    pub refusal: Option<TraceNo>,
}

/// The outcome without a run and without a refusal.
pub fn bare(status: Status) -> Outcome
    ensures { result ≡ record { status = status; run = None; refusal = None } }
{
    Outcome {
        status,
        run: None,
        refusal: None,
    }
}
