//! The lines of a text.

ghost use Rattle.std.specs.Prelude.{◌≡◌, ◌+◌, ◌++◌, length, map, List, slice_get, IfOk, MatchResult, Some};
ghost use Rattle.std.specs.List.{All};
ghost use Rattle.pool_law.specs.Text.{Text};
ghost use Rattle.run_text.specs.Starting.{AreShown, Begins, BeginsNot, unlines};

use crate::words::Words;
use crate::{LineNo, TextNo};
use std::alloc::{AllocError, Global};

/// The lines of a text, in order.
pub fn lines_of(alloc: Global, text: &str) -> Result<Vec<&str>, AllocError>
    ensures { (texts : List Text) → AreShown texts → text.now ≡ unlines texts
        → IfOk result (λ list. map (λ l. l.now) list.items ≡ texts) }
{
    text.lines().collect(alloc)
}

/// The number of the line behind so many, or the greatest number.
pub fn number_behind(count: usize) -> u32 {
    u32::try_from(count.saturating_add(1)).unwrap_or(u32::MAX)
}

/// The refusal of the line behind so many.
pub fn refusal_of(count: usize, why: LineNo) -> TextNo {
    TextNo::Line {
        number: number_behind(count),
        why,
    }
}

/// The words of the line behind so many.
pub fn words_behind<'a>(lines: &[&'a str], count: usize) -> Result<Words<'a>, TextNo>
    ensures { (text : Text) → slice_get (map (λ l. l.now) lines.now) count ≡ Some text
        → MatchResult result (λ words. words.rest.now ≡ text) (λ no. ⊥) }
{
    let number = number_behind(count);
    match lines.get(count) {
        Some(line) => Ok(Words::of(*line, number)),
        None => Err(refusal_of(count, LineNo::Form)),
    }
}

/// How many lines stand before the first, from so many on, that doesn't begin so.
pub fn end_of(lines: &[&str], from: usize, first: &str) -> usize
    ensures { (front middle back : List Text)
        → map (λ l. l.now) lines.now ≡ front ++ (middle ++ back) → length front ≡ from
        → All (Begins first.now) middle → BeginsNot first.now back
        → result ≡ from + length middle }
{
    let mut end = from;
    for at in from..lines.len() {
        if !lines[at].starts_with(first) {
            return at;
        }
        end = at + 1;
    }
    end
}
