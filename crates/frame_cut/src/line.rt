//! What stands on standard error.

ghost use Rattle.std.specs.Prelude.{◌≡◌, IfOk};
ghost use Rattle.frame_cut.specs.Lines.{line_of, status_line};

use crate::answer::{Outcome, Status};
use frame_text::refusal_line;
use pool_law::Bytes;
use std::alloc::{AllocError, Global};

/// The line for standard error, with its line feed. It is empty for a text that was written.
pub fn line_of(alloc: Global, outcome: &Outcome) -> Result<Bytes, AllocError>
    ensures { IfOk result (λ line. line ≡ line_of outcome.now) }
{
    if let Some(why) = outcome.refusal {
        return refusal_line(alloc, why);
    }
    Ok(Bytes::of(Vec::from_slice(alloc, status_line(outcome.status).as_bytes())?))
}

// The line of a status beside which there is no refusal.
fn status_line(status: Status) -> &'static str
    ensures { result.now ≡ status_line status }
{
    match status {
        Status::Whole | Status::Input => "",
        Status::Words => "refused words\n",
        Status::ReadFault => "read fault\n",
        Status::WriteFault => "write fault\n",
        Status::Memory => "out of memory\n",
    }
}
