//! What the program answers.

ghost use Rattle.std.specs.Prelude.{◌≡◌};
ghost use Rattle.run_view.specs.Outcomes.{status_without};

use run_input::{Fault, InputNo};

/// How a run of the program ended. The number is the program's exit status.
#[derive(Clone, Copy, Debug, PartialEq, Eq)]
pub enum Status {
    /// The picture was written.
    Drawn = 0,
    /// The words name no roots: each root stands behind a `--root`, as `P.G`.
    Words = 2,
    /// What was read asks about no run.
    Input = 3,
    /// The source failed.
    ReadFault = 4,
    /// The sink failed, or took nothing of a piece that isn't empty.
    WriteFault = 5,
    /// There was no memory. Nothing was written.
    Memory = 6,
    /// No run with this text was found, so no legal run in one order has it. That no run at all has it isn't
    /// proved.
    Unread = 8,
}

/// The status where no run was found.
pub fn status_without(why: InputNo) -> Status
    ensures { result ≡ status_without why }
{
    match why {
        InputNo::Form => Status::Input,
        InputNo::ReadFault => Status::ReadFault,
        InputNo::Memory => Status::Memory,
        InputNo::Unread(_) => Status::Unread,
    }
}

/// What a run of the program came to.
#[derive(Clone, Copy, Debug, Drop)]
pub struct Outcome {
    /// How it ended.
    pub status: Status,
    /// Where the text is refused, if it is.
    pub fault: Option<Fault>,
}

/// The line for standard error, with its line feed. It is empty where a picture was written, and where a line of
/// the text is told.
pub fn line_for(status: Status) -> &'static str {
    match status {
        Status::Drawn | Status::Unread => "",
        Status::Words => "refused words\n",
        Status::Input => "refused input\n",
        Status::ReadFault => "read fault\n",
        Status::WriteFault => "write fault\n",
        Status::Memory => "out of memory\n",
    }
}
