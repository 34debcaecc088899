//! The lines of chunks and leaks.

ghost use Rattle.std.specs.Prelude.{◌≡◌, ◌+◌, ◌++◌, ◌∷◌, [], List, MatchResult, codes, length, map};
ghost use Rattle.std.specs.List.{All};
ghost use Rattle.pool_law.specs.Text.{Text, list_word, spaced};
ghost use Rattle.pool_law.specs.declared.report.Access.{Access};
ghost use Rattle.pool_law.specs.declared.report.ChunkEnd.{ChunkEnd};
ghost use Rattle.pool_law.specs.declared.report.Leak.{Leak};
ghost use Rattle.pool_law.specs.declared.report.ListName.{ListName};
ghost use Rattle.run_text.specs.Ending.{FitsAccess, FitsChunk, FitsLeak, access_text, chunk_text, leak_words, leaks_texts};
ghost use Rattle.run_text.specs.Reading.{Gives};
ghost use Rattle.run_text.specs.declared.TextNo.TheVariants.{Memory};

use crate::lines::{end_of, words_behind};
use crate::words::Words;
use crate::{LineNo, TextNo};
use pool_law::{Access, ChunkEnd, ChunkEnds, Leak, LeakList, ListName, Records};
use std::alloc::{AllocError, Global};

/// The chunks of the lines from one to another.
pub fn chunks_of(alloc: Global, lines: &[&str], from: usize, to: usize) -> Result<ChunkEnds, TextNo>
    ensures { (front back : List Text) (chunks : List ChunkEnd)
        → map (λ l. l.now) lines.now ≡ front ++ (map chunk_text chunks ++ back)
        → length front ≡ from → from + length chunks ≡ to → All FitsChunk chunks
        → MatchResult result (λ got. got ≡ chunks) (λ no. no ≡ Memory) }
{
    let mut chunks = Vec::new(alloc);
    for at in from..to {
        let mut words = words_behind(lines, at)?;
        let chunk = chunk_of(&mut words)?;
        chunks.push(chunk).map_err(AllocError::from)?;
    }
    Ok(ChunkEnds::of(chunks))
}

// A chunk, by the words of its line.
fn chunk_of(words: &mut Words) -> Result<ChunkEnd, TextNo>
    ensures { (chunk : ChunkEnd) → FitsChunk chunk → words.old.rest.now ≡ chunk_text chunk
        → MatchResult result (λ got. got ≡ chunk) (λ no. no ≡ Memory) }
{
    let _chunk = words.next();
    let (arena, chunk) = words.pair('.')?;
    let list = list_of(words)?;
    let _used = words.next();
    let used = words.small()?;
    let _free = words.next();
    let free = words.small()?;
    Ok(ChunkEnd {
        arena,
        chunk,
        list,
        used,
        free,
    })
}

// A list, by its word.
fn list_of(words: &mut Words) -> Result<ListName, TextNo>
    ensures { (list : ListName) (more : List Text)
        → words.old.rest.now ≡ spaced (list_word list ∷ more)
        → Gives result words.new.rest.now list more }
{
    let word = words.next();
    if word == "qInit" {
        Ok(ListName::QInit)
    } else if word == "q000" {
        Ok(ListName::Q000)
    } else if word == "q025" {
        Ok(ListName::Q025)
    } else if word == "q050" {
        Ok(ListName::Q050)
    } else if word == "q075" {
        Ok(ListName::Q075)
    } else if word == "q100" {
        Ok(ListName::Q100)
    } else {
        Err(words.refused(LineNo::Form))
    }
}

/// The leaks of the lines behind so many, up to the last line.
pub fn leaks_of(alloc: Global, lines: &[&str], from: usize) -> Result<LeakList, TextNo>
    ensures { (front : List Text) (leaks : List Leak) (words : List Text)
        → map (λ l. l.now) lines.now
        ≡ front ++ (leaks_texts leaks ++ (spaced (codes "end" ∷ words) ∷ []))
        → length front ≡ from → All FitsLeak leaks
        → MatchResult result (λ got. got ≡ leaks) (λ no. no ≡ Memory) }
{
    let mut leaks = Vec::new(alloc);
    let mut at = from;
    for _ in from..lines.len() {
        let mut words = words_behind(lines, at)?;
        if words.next() != "leak" {
            break;
        }
        let end = end_of(lines, at.saturating_add(1), " ");
        let leak = leak_of(alloc, &mut words, lines, at.saturating_add(1), end)?;
        leaks.push(leak).map_err(AllocError::from)?;
        at = end;
    }
    Ok(LeakList::of(leaks))
}

// A leak, with the records of the lines from one to another.
fn leak_of(
    alloc: Global,
    words: &mut Words,
    lines: &[&str],
    from: usize,
    to: usize,
) -> Result<Leak, TextNo>
    ensures { (leak : Leak) (front back : List Text) → FitsLeak leak
        → words.old.rest.now ≡ spaced (leak_words leak)
        → map (λ l. l.now) lines.now ≡ front ++ (map access_text leak.records ++ back)
        → length front ≡ from → from + length leak.records ≡ to
        → MatchResult result (λ got. got ≡ leak) (λ no. no ≡ Memory) }
{
    let (lane, serial) = words.pair('.')?;
    let _capacity = words.next();
    let capacity = words.small()?;
    let _count = words.next();
    let count = words.small()?;
    let _records = words.next();
    let _number = words.next();
    let _dropped = words.next();
    let dropped = words.number()?;
    let records = records_of(alloc, lines, from, to)?;
    Ok(Leak {
        lane,
        serial,
        capacity,
        count,
        records,
        dropped,
    })
}

// The accesses of a leak, one a line.
fn records_of(alloc: Global, lines: &[&str], from: usize, to: usize) -> Result<Records, TextNo>
    ensures { (front back : List Text) (records : List Access)
        → map (λ l. l.now) lines.now ≡ front ++ (map access_text records ++ back)
        → length front ≡ from → from + length records ≡ to → All FitsAccess records
        → MatchResult result (λ got. got ≡ records) (λ no. no ≡ Memory) }
{
    let mut records = Vec::new(alloc);
    for at in from..to {
        let mut words = words_behind(lines, at)?;
        let access = access_of(&mut words)?;
        records.push(access).map_err(AllocError::from)?;
    }
    Ok(Records::of(records))
}

// The line begins with a space.
fn access_of(words: &mut Words) -> Result<Access, TextNo>
    ensures { (access : Access) → FitsAccess access → words.old.rest.now ≡ access_text access
        → MatchResult result (λ got. got ≡ access) (λ no. no ≡ Memory) }
{
    let _empty = words.next();
    let lane = words.small()?;
    let word = words.next();
    if word == "touch" {
        return Ok(Access::Touch { lane });
    }
    let (offset, len) = words.pair('+')?;
    if word == "set" {
        Ok(Access::Set { lane, offset, len })
    } else if word == "get" {
        Ok(Access::Get { lane, offset, len })
    } else {
        Err(words.refused(LineNo::Form))
    }
}
