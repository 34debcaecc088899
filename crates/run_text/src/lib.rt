#![tactic(auto)]
//! The reader of a run's text: from the lines that `run_report` writes back to the run.
//!
//! A text leaves parts of a run out: how many notes each command made; class, owner and uses of a region where
//! only its taking is told; the bytes of a place; the capacity of a root. They are derived from the trace, the
//! shape and the other lines. Then the run is written, and must give the text.

ghost use Rattle.std.specs.Prelude.{◌≡◌};

mod bound;
mod cutter;
mod cutting;
mod dids;
mod ends;
mod filling;
mod known;
mod lines;
mod logs;
mod making;
mod notes;
mod objects;
mod reading;
mod regions;
mod replies;
mod telling;
mod words;

pub use reading::read_run;
use std::alloc::AllocError;

/// Why a line can't stand where it stands.
#[derive(Clone, Copy, Debug, PartialEq, Eq, Drop)]
pub enum LineNo {
    /// No run of this trace and shape has such a line there, after the lines before it.
    Form,
    /// It names a root that no note tells the birth of.
    Root,
    /// It names a region that no note tells the taking of, or a class that no pool has.
    Region,
}

/// Why a text isn't read.
#[derive(Clone, Copy, Debug, PartialEq, Eq, Drop)]
pub enum TextNo {
    /// There was no memory for the run.
    Memory,
    /// The line of this number, counted from 1, can't stand there. The number is the greatest where the
    /// lines are more, and that behind the last line where a line is wanting.
    Line {
        /// The number of the line.
        number: u32,
        /// Why it can't.
        why: LineNo,
    },
}

impl From<AllocError> for TextNo {
    ghost use Rattle.run_text.specs.declared.TextNo.TheVariants.{Memory};

    ghost from_gives = { λ _ no. no ≡ Memory };

    fn from(_error: AllocError) -> TextNo {
        TextNo::Memory
    }
}
