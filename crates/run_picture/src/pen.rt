//! Puts marks on a layer, one after another.

use crate::marks::{Area, Mark, Marks, Style};
use crate::writer::Writer;
use pool_law::Bytes;
use std::alloc::{AllocError, Global};

/// The marks of a layer so far.
#[derive(Drop)]
pub struct Pen {
    alloc: Global,
    marks: Vec<Mark>,
}

impl Pen {
    /// No mark. Takes no memory.
    pub fn new(alloc: Global) -> Pen {
        Pen {
            alloc,
            marks: Vec::new(alloc),
        }
    }

    /// The marks.
    pub fn into_marks(self) -> Marks {
        Marks::of(self.marks)
    }

    /// How many marks there are.
    pub fn count(&self) -> usize {
        self.marks.len()
    }

    /// A text to write.
    pub fn writer(&self) -> Writer {
        Writer::new(self.alloc)
    }

    /// A rectangle, with a title.
    pub fn rect(&mut self, style: Style, area: Area, title: Writer) -> Result<(), AllocError> {
        let title = title.into_bytes();
        self.marks.push(Mark::Rect { style, area, title })?;
        Ok(())
    }

    /// A rectangle without a title.
    pub fn plain(&mut self, style: Style, area: Area) -> Result<(), AllocError> {
        let title = self.writer();
        self.rect(style, area, title)
    }

    /// Words at a point.
    pub fn text(&mut self, style: Style, x: u32, y: u32, words: Writer) -> Result<(), AllocError> {
        let words = words.into_bytes();
        self.marks.push(Mark::Words { style, x, y, words })?;
        Ok(())
    }

    /// These words at a point.
    pub fn words(&mut self, style: Style, x: u32, y: u32, words: &str) -> Result<(), AllocError> {
        let mut text = self.writer();
        text.words(words)?;
        self.text(style, x, y, text)
    }

    /// A number at a point.
    pub fn number(&mut self, style: Style, x: u32, y: u32, number: u64) -> Result<(), AllocError> {
        let mut text = self.writer();
        text.number(number)?;
        self.text(style, x, y, text)
    }

    /// A copy of bytes as words at a point.
    pub fn bytes(&mut self, style: Style, x: u32, y: u32, words: &[u8]) -> Result<(), AllocError> {
        let words = Bytes::of(words.to_vec(self.alloc)?);
        self.marks.push(Mark::Words { style, x, y, words })?;
        Ok(())
    }

    /// A rectangle with a title that is a copy of bytes.
    pub fn titled(&mut self, style: Style, area: Area, title: &[u8]) -> Result<(), AllocError> {
        let title = Bytes::of(title.to_vec(self.alloc)?);
        self.marks.push(Mark::Rect { style, area, title })?;
        Ok(())
    }
}
