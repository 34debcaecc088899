//! The words of a line.

ghost use Rattle.std.specs.Prelude.{◌≡◌, ◌≢◌, ◌++◌, ◌∷◌, ◌<◌, ◌^◌, ℕ, Ok, IsTrue, List, MatchResult, decimal};
ghost use Rattle.std.specs.Bool.{MatchBool};
ghost use Rattle.hex.specs.Hex.{IsBytes};
ghost use Rattle.hex.specs.declared.error.FromHexError.TheVariants.{OutOfMemory};
ghost use Rattle.pool_law.specs.Text.{Text, dotted, shown_bytes, shown_place, spaced};
ghost use Rattle.pool_law.specs.declared.id.Place.{Place};
ghost use Rattle.run_text.specs.Reading.{Gives, is_word, lacks};
ghost use Rattle.run_text.specs.declared.TextNo.TheVariants.{Memory};

use crate::{LineNo, TextNo};
use hex::FromHexError;
use pool_law::{Bytes, Place};
use std::alloc::Global;

/// What is left of a line, word by word.
#[derive(Clone, Copy, Drop)]
pub struct Words<'a> {
    rest: &'a str,
    number: u32,
}

impl<'a> Words<'a> {
    /// The words of the line of this number.
    pub fn of(rest: &'a str, number: u32) -> Words<'a>
        ensures { result.rest.now ≡ rest.now }
    {
        Words { rest, number }
    }

    /// The refusal of this line.
    pub fn refused(&self, why: LineNo) -> TextNo {
        TextNo::Line {
            number: self.number,
            why,
        }
    }

    /// The next word; empty where none is left.
    pub fn next(&mut self) -> &'a str
        ensures { (word : Text) (more : List Text) → IsTrue (is_word word)
            → self.old.rest.now ≡ spaced (word ∷ more)
            → (result.now ≡ word) × (self.new.rest.now ≡ spaced more) }
    {
        match self.rest.split_once(' ') {
            Some((word, rest)) => {
                self.rest = rest;
                word
            }
            None => {
                let word = self.rest;
                self.rest = "";
                word
            }
        }
    }

    /// Whether the next word is this one, which is then read.
    pub fn take(&mut self, word: &str) -> bool
        ensures { (first : Text) (more : List Text) → IsTrue (is_word first)
            → self.old.rest.now ≡ spaced (first ∷ more)
            → MatchBool result
            ((first ≡ word.now) × (self.new.rest.now ≡ spaced more))
            ((first ≢ word.now) × (self.new.rest.now ≡ self.old.rest.now)) }
    {
        let mut behind = *self;
        let first = behind.next();
        let is_it = first == word;
        if is_it {
            *self = behind;
        }
        is_it
    }

    /// The next word is a number.
    pub fn number(&mut self) -> Result<u64, TextNo>
        ensures { (n : ℕ) (more : List Text) → n < 2 ^ 64
            → self.old.rest.now ≡ spaced (decimal n ∷ more)
            → Gives result self.new.rest.now n more }
    {
        match self.next().parse::<u64>() {
            Ok(number) => Ok(number),
            Err(_) => Err(self.refused(LineNo::Form)),
        }
    }

    /// The next word is a number of 32 bits.
    pub fn small(&mut self) -> Result<u32, TextNo>
        ensures { (n : ℕ) (more : List Text) → n < 2 ^ 32
            → self.old.rest.now ≡ spaced (decimal n ∷ more)
            → Gives result self.new.rest.now n more }
    {
        let word = self.next();
        self.small_in(word)
    }

    // A number of 32 bits.
    fn small_in(&self, word: &str) -> Result<u32, TextNo>
        ensures { (n : ℕ) → n < 2 ^ 32 → word.now ≡ decimal n → result ≡ Ok n }
    {
        match word.parse::<u32>() {
            Ok(number) => Ok(number),
            Err(_) => Err(self.refused(LineNo::Form)),
        }
    }

    // Two texts with a mark between them.
    fn parted<'b>(&self, word: &'b str, mark: char) -> Result<(&'b str, &'b str), TextNo>
        requires { mark < 128 }
        ensures { (a b : Text) → IsTrue (lacks mark a) → word.now ≡ a ++ (mark ∷ b)
            → MatchResult result (λ parts. (parts.0.now ≡ a) × (parts.1.now ≡ b)) (λ no. ⊥) }
    {
        match word.split_once(mark) {
            Some((before, behind)) => Ok((before, behind)),
            None => Err(self.refused(LineNo::Form)),
        }
    }

    /// The next word is two numbers with a mark between them.
    pub fn pair(&mut self, mark: char) -> Result<(u32, u32), TextNo>
        requires { (32 < mark) × (mark < 48) }
        ensures { (a b : ℕ) (more : List Text) → a < 2 ^ 32 → b < 2 ^ 32
            → self.old.rest.now ≡ spaced ((decimal a ++ (mark ∷ decimal b)) ∷ more)
            → Gives result self.new.rest.now (a, b) more }
    {
        let word = self.next();
        let (before, behind) = self.parted(word, mark)?;
        let a = self.small_in(before)?;
        let b = self.small_in(behind)?;
        Ok((a, b))
    }

    /// The next word is arena, chunk and offset of a place of so many bytes.
    pub fn place(&mut self, len: u32) -> Result<Place, TextNo>
        ensures { (place : Place) (more : List Text) → place.len ≡ len
            → place.arena < 2 ^ 32 → place.chunk < 2 ^ 32 → place.offset < 2 ^ 32
            → self.old.rest.now ≡ spaced (shown_place place ∷ more)
            → Gives result self.new.rest.now place more }
    {
        let word = self.next();
        let (arena, spot) = self.parted(word, '.')?;
        let (chunk, offset) = self.parted(spot, '+')?;
        let arena = self.small_in(arena)?;
        let chunk = self.small_in(chunk)?;
        let offset = self.small_in(offset)?;
        Ok(Place {
            arena,
            chunk,
            offset,
            len,
        })
    }

    /// The next word is bytes in hexadecimal, a dash for none.
    pub fn bytes(&mut self, alloc: Global) -> Result<Bytes, TextNo>
        ensures { (bytes : Text) (more : List Text) → IsBytes bytes
            → self.old.rest.now ≡ spaced (shown_bytes bytes ∷ more)
            → Gives result self.new.rest.now bytes more }
    {
        let word = self.next();
        if word == "-" {
            return Ok(Bytes::of(Vec::new(alloc)));
        }
        match hex::decode(alloc, word) {
            Ok(bytes) => Ok(Bytes::of(bytes)),
            Err(error) => Err(self.undecoded(error)),
        }
    }

    // The refusal of bytes that are not decoded.
    fn undecoded(&self, error: FromHexError) -> TextNo
        ensures { error ≡ OutOfMemory → result ≡ Memory }
    {
        match error {
            FromHexError::OutOfMemory => TextNo::Memory,
            _ => self.refused(LineNo::Form),
        }
    }
}
