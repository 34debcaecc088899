//! The lines of refusals.

ghost use Rattle.std.specs.Prelude.{◌≡◌, ◌++◌, IfOk, OnOk};
ghost use Rattle.frame_text.specs.Lines.{refusal_line, refusal_words};
ghost use Rattle.run_report.specs.Words.{after_spaces};

use frame_core::FrameNo;
use pool_law::Bytes;
use run_report::Writer;
use std::alloc::{AllocError, Global};

/// The line that says why a stream was refused.
pub fn refusal_line(alloc: Global, why: FrameNo) -> Result<Bytes, AllocError>
    ensures { IfOk result (λ text. text ≡ refusal_line why) }
{
    let mut writer = Writer::new(alloc);
    writer.first("refused")?;
    write_why(&mut writer, why)?;
    writer.end()?;
    Ok(writer.into_bytes())
}

// The words behind the first.
fn write_why(writer: &mut Writer, why: FrameNo) -> Result<(), AllocError>
    ensures { OnOk result (writer.new ≡ writer.old ++ after_spaces (refusal_words why)) }
{
    match why {
        FrameNo::Length(number) => writer.named("length", u64::from(number)),
        FrameNo::Frames => writer.word("frames"),
        FrameNo::Stream => writer.word("stream"),
        FrameNo::Inside(number) => writer.named("frame", u64::from(number)),
    }
}
