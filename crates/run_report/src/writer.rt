//! A text as it is written, word by word.

ghost use Rattle.std.specs.Prelude.{◌≡◌, ◌++◌, [], ◌∷◌, OnOk, IfOk, decimal};
ghost use Rattle.pool_law.specs.Text.{dotted, plus, shown_bytes, shown_place};
ghost use Rattle.run_report.specs.Words.{after_spaces};

use pool_law::{Bytes, Place};
use std::alloc::{AllocError, Global};
use std::marker::Model;

/// The text so far. It grows by doubling.
#[derive(Drop)]
pub struct Writer {
    alloc: Global,
    text: String,
}

impl Model for Writer {
    ghost use Rattle.std.specs.Prelude.{List, ℕ, string_bytes};

    ghost Value = { List ℕ };

    ghost view = { λ w. string_bytes w.text };
}

impl Writer {
    /// A text of nothing. Takes no memory.
    pub fn new(alloc: Global) -> Writer
        ensures { result ≡ [] }
    {
        Writer {
            alloc,
            text: String::new(alloc),
        }
    }

    /// The allocator of the text.
    pub fn alloc(&self) -> Global {
        self.alloc
    }

    /// The bytes of the text.
    pub fn into_bytes(self) -> Bytes
        ensures { result ≡ self }
    {
        Bytes::of(self.text.into_bytes())
    }

    /// Appends the first word of a line.
    pub fn first(&mut self, word: &str) -> Result<(), AllocError>
        ensures { OnOk result (self.new ≡ self.old ++ word.now) }
    {
        self.text.push_str(word)
    }

    /// Appends a number as the first word of a line.
    pub fn first_number(&mut self, number: u64) -> Result<(), AllocError>
        ensures { OnOk result (self.new ≡ self.old ++ decimal number) }
    {
        write!(self.text, "{number}")
    }

    /// Appends two numbers with a dot between them, as the first word of a line.
    pub fn first_dotted(&mut self, a: u64, b: u64) -> Result<(), AllocError>
        ensures { OnOk result (self.new ≡ self.old ++ dotted a b) }
    {
        write!(self.text, "{a}.{b}")
    }

    /// Appends a word, after a space.
    pub fn word(&mut self, word: &str) -> Result<(), AllocError>
        ensures { OnOk result (self.new ≡ self.old ++ after_spaces (word.now ∷ [])) }
    {
        self.text.push_str(" ")?;
        self.text.push_str(word)
    }

    /// Appends a number, after a space.
    pub fn number(&mut self, number: u64) -> Result<(), AllocError>
        ensures { OnOk result (self.new ≡ self.old ++ after_spaces (decimal number ∷ [])) }
    {
        write!(self.text, " {number}")
    }

    /// Appends a number that may pass 64 bits, after a space.
    pub fn wide(&mut self, number: u128) -> Result<(), AllocError>
        ensures { OnOk result (self.new ≡ self.old ++ after_spaces (decimal number ∷ [])) }
    {
        write!(self.text, " {number}")
    }

    /// Appends a word and its number, each after a space.
    pub fn named(&mut self, word: &str, number: u64) -> Result<(), AllocError>
        ensures { OnOk result
            (self.new ≡ self.old ++ after_spaces (word.now ∷ decimal number ∷ [])) }
    {
        self.word(word)?;
        self.number(number)
    }

    /// Appends two numbers with a dot between them, after a space.
    pub fn dotted(&mut self, a: u32, b: u32) -> Result<(), AllocError>
        ensures { OnOk result (self.new ≡ self.old ++ after_spaces (dotted a b ∷ [])) }
    {
        write!(self.text, " {a}.{b}")
    }

    /// Appends two numbers with a plus sign between them, after a space.
    pub fn plus(&mut self, a: u32, b: u32) -> Result<(), AllocError>
        ensures { OnOk result (self.new ≡ self.old ++ after_spaces (plus a b ∷ [])) }
    {
        write!(self.text, " {a}+{b}")
    }

    /// Appends arena, chunk and offset of a place, after a space.
    pub fn place(&mut self, place: &Place) -> Result<(), AllocError>
        ensures { OnOk result (self.new ≡ self.old ++ after_spaces (shown_place place.now ∷ [])) }
    {
        let Place {
            arena,
            chunk,
            offset,
            ..
        } = *place;
        write!(self.text, " {arena}.{chunk}+{offset}")
    }

    /// Appends bytes in hexadecimal, a dash for none, after a space.
    pub fn shown(&mut self, bytes: &[u8]) -> Result<(), AllocError>
        ensures { OnOk result (self.new ≡ self.old ++ after_spaces (shown_bytes bytes.now ∷ [])) }
    {
        if bytes.is_empty() {
            return self.word("-");
        }
        let digits = hex::encode(self.alloc, bytes)?;
        self.word(digits.as_str())
    }

    /// Ends the line.
    pub fn end(&mut self) -> Result<(), AllocError>
        ensures { OnOk result (self.new ≡ self.old ++ 10 ∷ []) }
    {
        self.text.push_str("\n")
    }
}
