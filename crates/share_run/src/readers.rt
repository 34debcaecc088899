//! Readers: what each has, and how they are made.

ghost use Rattle.std.specs.Prelude.{◌≡◌, ◌<◌, ◌≤◌, All, IfOk, length, map};
ghost use Rattle.share_text.specs.Inputs.{read_count, read_limit};
ghost use Rattle.share_run.specs.Reading.{AreBlank, IsBlank, asked_in, asked_of};

use pool_law::Bytes;
use share_text::{Reads, Seen};
use shared_composite::BoardSeat;
use std::alloc::{AllocError, Global};

/// A reader: a seat of the board, if it has a read to make, with so many turns, the composites that it
/// counts, and its reads, whose bytes are 0 until they are made.
#[derive(Drop)]
pub struct Reader {
    pub seat: Option<BoardSeat>,
    pub turns: u64,
    pub names: Vec<u32>,
    pub seen: Vec<Seen>,
}

/// The readers before they have seats.
pub fn readers_of(
    alloc: Global,
    wholes: &[Bytes],
    readers: &[Reads],
) -> Result<Vec<Reader>, AllocError>
    requires below { All (All (λ k. k < length wholes.now)) readers.now }
    requires few { read_count readers.now ≤ read_limit }
    ensures blank { IfOk result (λ made. AreBlank wholes.now made.items) }
    ensures asked { IfOk result (λ made. asked_of made.items ≡ readers.now) }
{
    let mut made = Vec::with_capacity(alloc, readers.len())?;
    for reads in readers {
        let reader = reader_of(alloc, wholes, reads.items())?;
        made.push_reserved(reader);
    }
    Ok(made)
}

// A reader before it has a seat.
fn reader_of(alloc: Global, wholes: &[Bytes], reads: &[u32]) -> Result<Reader, AllocError>
    requires below { All (λ k. k < length wholes.now) reads.now }
    requires few { length reads.now ≤ read_limit }
    ensures blank { IfOk result (IsBlank wholes.now) }
    ensures asked { IfOk result (λ r. asked_in r.seen.items ≡ reads.now) }
{
    let names = Vec::with_capacity(alloc, reads.len() + 1)?;
    let mut seen = Vec::with_capacity(alloc, reads.len())?;
    for composite in reads {
        let bytes = Vec::from_elem(alloc, 0, wholes[*composite as usize].items().len())?;
        seen.push_reserved(Seen {
            composite: *composite,
            bytes: Bytes::of(bytes),
        });
    }
    Ok(Reader {
        seat: None,
        turns: 0,
        names,
        seen,
    })
}
