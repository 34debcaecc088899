//! The lines of frames.

ghost use Rattle.std.specs.Prelude.{◌≡◌, ◌++◌, OnOk};
ghost use Rattle.frame_text.specs.Lines.{line_of, last_line};

use run_report::Writer;
use std::alloc::AllocError;

/// Appends the line of the frame of this number, with this length and this digest.
pub fn write_frame(
    writer: &mut Writer,
    number: u64,
    len: u64,
    digest: &[u8],
) -> Result<(), AllocError>
    ensures { OnOk result (writer.new ≡ writer.old ++ line_of number len digest.now) }
{
    writer.first_number(number)?;
    writer.number(len)?;
    writer.shown(digest)?;
    writer.end()
}

/// Appends the last line, with the number of frames.
pub fn write_end(writer: &mut Writer, frames: u64) -> Result<(), AllocError>
    ensures { OnOk result (writer.new ≡ writer.old ++ last_line frames) }
{
    writer.first("frames")?;
    writer.number(frames)?;
    writer.end()
}
