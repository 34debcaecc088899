//! The lines of replies.

ghost use Rattle.std.specs.Prelude.{◌≡◌, ◌++◌, ◌∷◌, OnOk};
ghost use Rattle.pool_law.specs.Text.{all_replies, command_word, dotted, line, reply_lines, reply_words};
ghost use Rattle.run_report.specs.Words.{after_spaces};

use crate::words::word_of;
use crate::writer::Writer;
use pool_law::{Answered, Command, CommandList, LaneLog, Reply};
use std::alloc::AllocError;

impl Writer {
    // The words of a reply.
    fn reply(&mut self, reply: &Reply) -> Result<(), AllocError>
        ensures { OnOk result (self.new ≡ self.old ++ after_spaces (reply_words reply.now)) }
    {
        match reply {
            Reply::Ok => self.word("ok"),
            Reply::OkPlace { size, place } => {
                self.named("ok", u64::from(*size))?;
                self.place(place)
            }
            Reply::OkBytes(bytes) => {
                self.word("ok")?;
                self.shown(bytes.items())
            }
            Reply::OkNumber(number) => self.named("ok", u64::from(*number)),
            Reply::Kept => self.word("kept"),
            Reply::Freed => self.word("freed"),
            Reply::Unbound => self.word("unbound"),
            Reply::Taken => self.word("taken"),
            Reply::Illegal => self.word("illegal"),
            Reply::Range => self.word("range"),
            Reply::TooLarge => self.word("toolarge"),
            Reply::Handles => self.word("handles"),
            Reply::Full => self.word("full"),
            Reply::Busy(number) => self.named("busy", *number),
            Reply::Nothing => self.word("nothing"),
            Reply::Composite => self.word("composite"),
            Reply::Plain => self.word("plain"),
            Reply::Stopped => self.word("stopped"),
        }
    }

    // The line of a command, by lane and line.
    fn reply_line(
        &mut self,
        lane: usize,
        at: usize,
        command: &Command,
        reply: &Reply,
    ) -> Result<(), AllocError>
        ensures { OnOk result (self.new ≡ self.old
            ++ line (dotted lane at ∷ command_word command.now ∷ reply_words reply.now)) }
    {
        self.first_dotted(lane as u64, at as u64)?;
        self.word(word_of(command))?;
        self.reply(reply)?;
        self.end()
    }

    // The lines of a lane.
    fn lane_replies(
        &mut self,
        lane: usize,
        commands: &[Command],
        answers: &[Answered],
    ) -> Result<(), AllocError>
        ensures { OnOk result
            (self.new ≡ self.old ++ reply_lines lane 0 commands.now answers.now) }
    {
        for at in 0..commands.len().min(answers.len()) {
            self.reply_line(lane, at, &commands[at], &answers[at].reply)?;
        }
        Ok(())
    }

    /// Appends the lines of the lanes.
    pub fn all_replies(&mut self, lanes: &[CommandList], logs: &[LaneLog]) -> Result<(), AllocError>
        ensures { OnOk result (self.new ≡ self.old ++ all_replies 0 lanes.now logs.now) }
    {
        for lane in 0..lanes.len().min(logs.len()) {
            self.lane_replies(lane, lanes[lane].items(), logs[lane].replies.items())?;
        }
        Ok(())
    }
}
