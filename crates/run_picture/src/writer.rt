//! Text as it is written.

ghost use Rattle.std.specs.Prelude.{◌≡◌, ◌++◌, [], OnOk, decimal};
ghost use Rattle.run_picture.specs.Svg.{attribute, escaped};

use pool_law::Bytes;
use std::alloc::{AllocError, Global};
use std::marker::Model;

/// The text so far.
#[derive(Drop)]
pub struct Writer {
    alloc: Global,
    bytes: Vec<u8>,
}

impl Model for Writer {
    ghost use Rattle.std.specs.Prelude.{List, ℕ};

    ghost Value = { List ℕ };

    ghost view = { λ w. w.bytes.items };
}

impl Writer {
    /// A text of nothing. Takes no memory.
    pub fn new(alloc: Global) -> Writer
        ensures { result ≡ [] }
    {
        Writer {
            alloc,
            bytes: Vec::new(alloc),
        }
    }

    /// The bytes of the text.
    pub fn into_bytes(self) -> Bytes
        ensures { result ≡ self }
    {
        Bytes::of(self.bytes)
    }

    /// Appends words.
    pub fn words(&mut self, words: &str) -> Result<(), AllocError>
        ensures { OnOk result (self.new ≡ self.old ++ words.now) }
    {
        self.bytes.extend_from_slice(words.as_bytes())?;
        Ok(())
    }

    /// Appends a number.
    pub fn number(&mut self, number: u64) -> Result<(), AllocError>
        ensures { OnOk result (self.new ≡ self.old ++ decimal number) }
    {
        let digits = format!(in self.alloc; "{number}")?;
        self.words(digits.as_str())
    }

    /// Appends words and a number behind them.
    pub fn named(&mut self, words: &str, number: u64) -> Result<(), AllocError>
        ensures { OnOk result (self.new ≡ self.old ++ words.now ++ decimal number) }
    {
        self.words(words)?;
        self.number(number)
    }

    /// Appends an attribute of an element.
    pub fn attribute(&mut self, name: &str, number: u32) -> Result<(), AllocError>
        ensures { OnOk result (self.new ≡ self.old ++ attribute name.now number) }
    {
        self.words(" ")?;
        self.words(name)?;
        self.named("='", u64::from(number))?;
        self.words("'")
    }

    /// Appends text, with what would end it or begin an element in XML escaped.
    pub fn escaped(&mut self, text: &[u8]) -> Result<(), AllocError>
        ensures { OnOk result (self.new ≡ self.old ++ escaped text.now) }
    {
        for byte in text {
            match *byte {
                b'<' => self.words("&lt;")?,
                b'>' => self.words("&gt;")?,
                b'&' => self.words("&amp;")?,
                other => self.bytes.push(other)?,
            }
        }
        Ok(())
    }
}
