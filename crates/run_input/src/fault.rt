//! Why input tells of no run.

use run_text::LineNo;
use std::fmt;

/// The line of a text that is refused, and why.
#[derive(Clone, Copy, Debug, PartialEq, Eq, Drop)]
pub struct Fault {
    /// The number of the line, from 1.
    pub line: u32,
    /// Why it can't stand there.
    pub why: LineNo,
}

impl fmt::Display for Fault {
    fn fmt<W: fmt::Write>(&self, f: &mut fmt::Formatter<W>) -> fmt::Result {
        let line = self.line;
        let reason = reason_for(self.why);
        write!(f, "refused text line {line}: {reason}")
    }
}

/// Why no run was found.
#[derive(Clone, Copy, Debug, PartialEq, Eq, Drop)]
pub enum InputNo {
    /// What was read asks about no run.
    Form,
    /// The source failed.
    ReadFault,
    /// There was no memory.
    Memory,
    /// A case is asked about, and its text determines no run, so no legal run in one order has it. That no run
    /// at all has it isn't proved.
    Unread(Fault),
}

impl InputNo {
    /// Where the text is refused, if it is.
    pub fn fault(self) -> Option<Fault> {
        match self {
            InputNo::Unread(fault) => Some(fault),
            InputNo::Form | InputNo::ReadFault | InputNo::Memory => None,
        }
    }
}

// What is told of a line that is refused.
fn reason_for(why: LineNo) -> &'static str {
    match why {
        LineNo::Form => "no run of this trace has such a line here",
        LineNo::Root => "it names a root that no note tells the birth of",
        LineNo::Region => "it names a region that no note tells the taking of",
    }
}
