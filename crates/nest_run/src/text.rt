//! The text of what calls were answered.
ghost use Rattle.std.specs.Prelude.{◌≡◌, ◌++◌, ◌∷◌, [], IfOk, OnOk, decimal};
ghost use Rattle.pool_law.specs.Text.{line};
ghost use Rattle.run_report.specs.Words.{after_spaces};
ghost use Rattle.nest_run.specs.Lines.{last_line, reply_lines, reply_words, text_with};

use crate::replies::Reply;
use pool_law::Bytes;
use run_report::Writer;
use std::alloc::{AllocError, Global};

/// A line for each reply, and one for how much is live at the end.
pub fn text_of(alloc: Global, replies: &[Reply], live: u32) -> Result<Bytes, AllocError>
    ensures { IfOk result (λ text. text ≡ text_with replies.now live) }
{
    let mut writer = Writer::new(alloc);
    write_replies(&mut writer, replies)?;
    write_end(&mut writer, live)?;
    Ok(writer.into_bytes())
}

fn write_replies(writer: &mut Writer, replies: &[Reply]) -> Result<(), AllocError>
    ensures { OnOk result (writer.new ≡ writer.old ++ reply_lines 0 replies.now) }
{
    for number in 0..replies.len() {
        write_line(writer, number as u64, &replies[number])?;
    }
    Ok(())
}

// The line of a reply, with its number.
fn write_line(writer: &mut Writer, number: u64, reply: &Reply) -> Result<(), AllocError>
    ensures { OnOk result
        (writer.new ≡ writer.old ++ line (decimal number ∷ reply_words reply.now)) }
{
    writer.first_number(number)?;
    write_reply(writer, reply)?;
    writer.end()
}

// The words of a reply.
fn write_reply(writer: &mut Writer, reply: &Reply) -> Result<(), AllocError>
    ensures { OnOk result (writer.new ≡ writer.old ++ after_spaces (reply_words reply.now)) }
{
    match reply {
        Reply::Sliced(number) => writer.named("ok", u64::from(*number)),
        Reply::Done => writer.word("ok"),
        Reply::Read(bytes) => {
            writer.word("ok")?;
            writer.shown(bytes.items())
        }
        Reply::Kept => writer.word("kept"),
        Reply::Freed { ended, root } => {
            writer.named("freed", u64::from(*ended))?;
            if *root { writer.word("root") } else { Ok(()) }
        }
        Reply::Gone => writer.word("gone"),
        Reply::Range => writer.word("range"),
    }
}

// The last line.
fn write_end(writer: &mut Writer, live: u32) -> Result<(), AllocError>
    ensures { OnOk result (writer.new ≡ writer.old ++ last_line live) }
{
    writer.first("end")?;
    writer.named("live", u64::from(live))?;
    writer.end()
}
