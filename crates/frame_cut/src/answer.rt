//! What the program answers.

ghost use Rattle.std.specs.Prelude.{◌≡◌};

use frame_core::FrameNo;

/// How a run of the program ended. The number is the program's exit status.
#[derive(Clone, Copy, Debug, PartialEq, Eq)]
pub enum Status {
    /// The text was written.
    Whole = 0,
    /// The words have no form.
    Words = 2,
    /// The stream isn't frames alone.
    Input = 3,
    /// The source failed.
    ReadFault = 4,
    /// The sink failed, or took nothing of a piece that isn't empty.
    WriteFault = 5,
    /// There was no memory. Nothing was written.
    Memory = 6,
}

/// What a run of the program came to.
#[derive(Clone, Copy, Debug, PartialEq, Eq, Drop)]
pub struct Outcome {
    pub status: Status,
    /// How many frames were told of: all that were read where the text was made, otherwise 0.
    pub frames: u32,
    /// Why the stream was refused, where it was.
    pub refusal: Option<FrameNo>,
}

impl Outcome {
    ghost use Rattle.std.specs.Prelude.{◌≡◌};
    ghost use Rattle.frame_cut.specs.Lines.{failed, refused, told};

    /// A run that told of nothing.
    pub fn failed(status: Status) -> Outcome
        ensures { result ≡ failed status }
    {
        Outcome {
            status,
            frames: 0,
            refusal: None,
        }
    }

    /// A run whose stream was refused.
    pub fn refused(why: FrameNo) -> Outcome
        ensures { result ≡ refused why }
    {
        Outcome {
            status: Status::Input,
            frames: 0,
            refusal: Some(why),
        }
    }

    /// A run whose text was made.
    pub fn told(status: Status, frames: u32) -> Outcome
        ensures { result ≡ told status frames }
    {
        Outcome {
            status,
            frames,
            refusal: None,
        }
    }
}
