//! The whole text of a run.

ghost use Rattle.std.specs.Prelude.{◌≡◌, ◌++◌, [], if◌then◌else◌, IfOk, OnOk};
ghost use Rattle.pool_law.specs.Text.{all_notes, end_line, text_of};

use crate::roots::counts_of;
use crate::writer::Writer;
use pool_law::{Bytes, LaneLog, Run};
use std::alloc::{AllocError, Global};

/// The text of a run: the reply lines, lane by lane; with `history` the note lines, lane by lane;
/// the chunk lines; the leak lines, each with its records; the end line. Each line ends with a line
/// feed. Takes time linear in the length of the text and of the logs.
pub fn text_of(alloc: Global, run: &Run, history: bool) -> Result<Bytes, AllocError>
    ensures { IfOk result (λ bytes. bytes ≡ text_of run.now history) }
{
    let mut text = Writer::new(alloc);
    text.all_replies(run.trace.lanes.items(), run.logs.items())?;
    text.notes_if(history, run.logs.items())?;
    text.chunk_lines(run.chunks.items())?;
    text.leak_lines(run.leaks.items())?;
    text.end_of(run)?;
    Ok(text.into_bytes())
}

impl Writer {
    // The note lines, if they are wanted.
    fn notes_if(&mut self, history: bool, logs: &[LaneLog]) -> Result<(), AllocError>
        ensures { OnOk result
            (self.new ≡ self.old ++ (if history then all_notes 0 logs.now else [])) }
    {
        if history {
            return self.all_notes(logs);
        }
        Ok(())
    }

    // The last line of the run.
    fn end_of(&mut self, run: &Run) -> Result<(), AllocError>
        ensures { OnOk result (self.new ≡ self.old ++ end_line run.now) }
    {
        let roots = counts_of(self.alloc(), run.logs.items())?;
        self.end_line(roots.born, roots.live, run.leaks.items().len())
    }
}
