//! The tracks of the lanes: their commands with their replies, and busy marks.

use crate::chart::{LEFT, WIDTH};
use crate::marks::{Area, Style};
use crate::order::Order;
use crate::pen::Pen;
use crate::placing::share;
use pool_law::{Answered, Command, LaneLog, Note, Object, Reply};
use std::alloc::{AllocError, Global};

// Heights in tenths of a pixel.
const TRACK: u32 = 200;

const BUSY: u32 = 60;

// How wide a command is at least.
const LEAST: u32 = 12;

// How wide a letter is, about.
const LETTER: u32 = 62;

/// The moment of each note of a lane, and of the end behind them.
pub fn moments_of(alloc: Global, order: &Order, lane: u32) -> Result<Vec<u64>, AllocError> {
    let mut moments = Vec::new(alloc);
    for step in &order.steps {
        if step.lane == lane {
            moments.push(step.moment)?;
        }
    }
    Ok(moments)
}

// Whether a reply refuses.
fn refuses(reply: &Reply) -> bool {
    match reply {
        Reply::Ok
        | Reply::OkPlace { .. }
        | Reply::OkBytes(_)
        | Reply::OkNumber(_)
        | Reply::Kept
        | Reply::Freed => false,
        Reply::Unbound
        | Reply::Taken
        | Reply::Illegal
        | Reply::Range
        | Reply::TooLarge
        | Reply::Handles
        | Reply::Full
        | Reply::Busy(_)
        | Reply::Nothing
        | Reply::Composite
        | Reply::Plain
        | Reply::Stopped => true,
    }
}

// How a command looks, by its reply.
fn style_of(command: &Command, reply: &Reply) -> Style {
    if refuses(reply) {
        return Style::Refused;
    }
    match command {
        Command::Alloc { .. } => Style::Allocates,
        Command::Set { .. } | Command::Get { .. } | Command::Write { .. } | Command::Read { .. } =>
            { Style::Accesses }
        Command::Retain { .. } | Command::Release { .. } | Command::Refcnt { .. } => Style::Counts,
        Command::Send { .. } | Command::Recv { .. } => Style::HandsOver,
        Command::Slice { .. }
        | Command::Dup { .. }
        | Command::Touch { .. }
        | Command::Forget { .. }
        | Command::Compose { .. }
        | Command::Add { .. }
        | Command::Capacity { .. } => Style::Names,
    }
}

// The word of a command in its reply line: the second.
fn word_in(line: &[u8]) -> &[u8] {
    let mut words = line.split(|b| *b == b' ');
    let _place = words.next();
    words.next().unwrap_or(&[])
}

/// A lane as it is drawn.
#[derive(Drop)]
pub struct Track<'a> {
    /// Its commands.
    pub commands: &'a [Command],
    /// What it answered and noted.
    pub log: &'a LaneLog,
    /// The moment of each of its notes.
    pub moments: &'a [u64],
    /// How many moments the picture has.
    pub last: u64,
    /// The upper edge.
    pub y: u32,
    /// Of so many tenths of a pixel one command is drawn, where they are many.
    pub apart: u32,
}

impl Track<'_> {
    fn x_of(&self, moment: u64) -> u32 {
        LEFT + share(moment, self.last, WIDTH)
    }

    // Where a note begins.
    fn x_at(&self, note: usize) -> u32 {
        self.x_of(self.moments.get(note).copied().unwrap_or(self.last))
    }

    // The area from one note to another.
    fn area_of(&self, first: usize, behind: usize) -> Area {
        let x = self.x_at(first);
        let right = if behind > first {
            let last = behind.saturating_sub(1);
            let moment = self.moments.get(last).copied().unwrap_or(self.last);
            self.x_of(moment.saturating_add(1))
        } else {
            x
        };
        Area {
            x,
            y: self.y,
            width: right.saturating_sub(x).saturating_sub(4).max(LEAST),
            height: TRACK,
        }
    }

    // Draws a command, with its reply line as the title.
    fn command(
        &self,
        pen: &mut Pen,
        style: Style,
        area: Area,
        line: &[u8],
    ) -> Result<(), AllocError> {
        pen.titled(style, area, line)?;
        let word = word_in(line);
        let letters = u32::try_from(word.len()).unwrap_or(u32::MAX);
        if area.width > letters.saturating_mul(LETTER).saturating_add(40) {
            let y = area.y.saturating_add(135);
            pen.bytes(Style::Within, area.x.saturating_add(25), y, word)?;
        }
        Ok(())
    }

    /// Draws the commands, of which these are the reply lines, and answers how many notes they made.
    pub fn commands(&self, pen: &mut Pen, lines: &[&[u8]]) -> Result<usize, AllocError> {
        let answers: &[Answered] = self.log.replies.items();
        let mut first: usize = 0;
        let mut free = 0;
        for at in 0..self.commands.len().min(answers.len()).min(lines.len()) {
            let behind = first.saturating_add(answers[at].notes as usize);
            let area = self.area_of(first, behind);
            if area.x >= free {
                let style = style_of(&self.commands[at], &answers[at].reply);
                self.command(pen, style, area, lines[at])?;
                free = area.x.saturating_add(self.apart);
            }
            first = behind;
        }
        Ok(first)
    }

    /// Draws the closing: the notes from this one on.
    pub fn closing(&self, pen: &mut Pen, first: usize) -> Result<(), AllocError> {
        let count = self.log.notes.items().len();
        if first < count {
            let mut title = pen.writer();
            title.words("closes its caches")?;
            pen.rect(Style::Closing, self.area_of(first, count), title)?;
        }
        Ok(())
    }

    /// Draws the busy marks.
    pub fn marks(&self, pen: &mut Pen) -> Result<(), AllocError> {
        let notes = self.log.notes.items();
        for at in 0..notes.len() {
            if let Note::Busy(held) = &notes[at] {
                let mut title = pen.writer();
                title.words("busy: another lane was at ")?;
                title.words(object_word(&held.object))?;
                title.named(", after notes: ", held.number)?;
                let area = Area {
                    x: self.x_at(at),
                    y: self.y.saturating_add(TRACK).saturating_add(10),
                    width: 60,
                    height: BUSY,
                };
                pen.rect(Style::Busy, area, title)?;
            }
        }
        Ok(())
    }
}

// The kind of an object.
fn object_word(object: &Object) -> &'static str {
    match object {
        Object::Arena(_) => "an arena",
        Object::Cache { .. } => "a cache",
        Object::Bin(_) => "a bin",
        Object::Mail { .. } => "a mail",
        Object::Root(_) => "a root place",
    }
}
