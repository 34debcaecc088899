//! What the program answers.

ghost use Rattle.std.specs.Prelude.{◌≡◌};

/// How a run of the program ended. The number is the program's exit status.
#[derive(Clone, Copy, Debug, PartialEq, Eq)]
pub enum Status {
    /// The text was written; nothing is live at its end.
    Whole = 0,
    /// There was a word.
    Words = 2,
    /// What was read is no input.
    Input = 3,
    /// The source failed.
    ReadFault = 4,
    /// The sink failed, or took nothing of a piece that isn't empty.
    WriteFault = 5,
    /// There was no memory. Nothing was written.
    Memory = 6,
}

impl Status {
    ghost use Rattle.share_run.specs.Lines.{status_line};

    /// The line for standard error, with its line feed. It is empty for a text that was written.
    pub fn line(self) -> &'static str
        ensures { result.now ≡ status_line self }
    {
        match self {
            Status::Whole => "",
            Status::Words => "refused words\n",
            Status::Input => "refused input\n",
            Status::ReadFault => "read fault\n",
            Status::WriteFault => "write fault\n",
            Status::Memory => "out of memory\n",
        }
    }
}

/// What a run of the program came to.
#[derive(Clone, Copy, Debug, Drop)]
pub struct Outcome {
    pub status: Status,
}
