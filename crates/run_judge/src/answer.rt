//! What the program answers.

ghost use Rattle.std.specs.Prelude.{◌≡◌};
ghost use Rattle.run_judge.specs.Told.{status_for, status_without};

use play_check::Played;
use run_input::{Fault, InputNo};

/// How a run of the program ended. The number is the program's exit status.
#[derive(Clone, Copy, Debug, PartialEq, Eq)]
pub enum Status {
    /// The run is legal and its notes are in one order, and that was written.
    Legal = 0,
    /// The run is illegal, or its notes are in no order, and that was written.
    Illegal = 1,
    /// There was a word.
    Words = 2,
    /// What was read asks about no run.
    Input = 3,
    /// The source failed.
    ReadFault = 4,
    /// The sink failed, or took nothing of a piece that isn't empty.
    WriteFault = 5,
    /// There was no memory. Nothing was written.
    Memory = 6,
    /// The run is legal, and neither an order of its notes nor a circle was found; that was written.
    Undecided = 7,
    /// The text determines no run, so no legal run in one order has it: a line can't stand where it stands. That
    /// this line can't isn't proved.
    Unread = 8,
}

/// The status of what is said of a run.
pub fn status_for(played: &Played) -> Status
    ensures { result ≡ status_for played.now }
{
    match played {
        Played::Ordered(_) => Status::Legal,
        Played::Illegal(_) | Played::Circle(_) => Status::Illegal,
        Played::Stuck(_) => Status::Undecided,
    }
}

/// The status where no run was found.
pub fn status_without(why: InputNo) -> Status
    ensures { result ≡ status_without why }
{
    match why {
        InputNo::Form => Status::Input,
        InputNo::ReadFault => Status::ReadFault,
        InputNo::Memory => Status::Memory,
        InputNo::Unread(_) => Status::Unread,
    }
}

/// What a run of the program came to.
#[derive(Clone, Copy, Debug, Drop)]
pub struct Outcome {
    /// How it ended.
    pub status: Status,
    /// Where the text is refused, if it is.
    pub fault: Option<Fault>,
}

/// The line for standard error, with its line feed. It is empty where something is said of a run, and where
/// a line of the text is told.
pub fn line_for(status: Status) -> &'static str {
    match status {
        Status::Legal | Status::Illegal | Status::Undecided | Status::Unread => "",
        Status::Words => "refused words\n",
        Status::Input => "refused input\n",
        Status::ReadFault => "read fault\n",
        Status::WriteFault => "write fault\n",
        Status::Memory => "out of memory\n",
    }
}
