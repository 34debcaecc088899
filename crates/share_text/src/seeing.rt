//! What the readers of an input see, and its text.
ghost use Rattle.std.specs.Prelude.{◌≡◌, ◌<◌, ◌≤◌, All, IfOk, length, map};
ghost use Rattle.std.specs.List.{concat};
ghost use Rattle.share_text.specs.Inputs.{IsInput, part_limit};
ghost use Rattle.share_text.specs.Lines.{seen_in, seen_of, text_of};

use crate::inputs::{Input, Parts};
use crate::lines::{Seen, SeenList, text_with};
use pool_law::Bytes;
use std::alloc::{AllocError, Global};

/// The text of an input: what each reader sees, and that each part of each composite is released.
pub fn text_of(alloc: Global, input: &Input) -> Result<Bytes, AllocError>
    requires { IsInput input.now }
    ensures { IfOk result (λ text. text ≡ text_of input.now) }
{
    let seen = seen_in(alloc, input)?;
    let parts = part_counts(alloc, input.composites.items())?;
    text_with(alloc, &seen, &parts)
}

/// What each reader of an input sees, in the order of its reads: the bytes of the parts of the
/// composite, one part after another.
pub fn seen_in(alloc: Global, input: &Input) -> Result<Vec<SeenList>, AllocError>
    requires { IsInput input.now }
    ensures { IfOk result (λ seen. seen.items ≡ seen_in input.now) }
{
    let composites = input.composites.items();
    let mut seen = Vec::new(alloc);
    for reads in input.readers.items() {
        let list = seen_by(alloc, composites, reads.items())?;
        seen.push(list)?;
    }
    Ok(seen)
}

// What a reader sees.
fn seen_by(alloc: Global, composites: &[Parts], reads: &[u32]) -> Result<SeenList, AllocError>
    requires { All (λ k. k < length composites.now) reads.now }
    ensures { IfOk result (λ seen. seen ≡ map (seen_of composites.now) reads.now) }
{
    let mut seen = Vec::new(alloc);
    for composite in reads {
        let bytes = bytes_of(alloc, composites[*composite as usize].items())?;
        seen.push(Seen {
            composite: *composite,
            bytes,
        })?;
    }
    Ok(SeenList::of(seen))
}

// The bytes of parts, one part after another.
fn bytes_of(alloc: Global, parts: &[Bytes]) -> Result<Bytes, AllocError>
    ensures { IfOk result (λ bytes. bytes ≡ concat parts.now) }
{
    let mut bytes = Vec::new(alloc);
    for part in parts {
        bytes.extend_from_slice(part.items())?;
    }
    Ok(Bytes::of(bytes))
}

// How many parts each composite has.
fn part_counts(alloc: Global, composites: &[Parts]) -> Result<Vec<u32>, AllocError>
    requires { All (λ parts. length parts ≤ part_limit) composites.now }
    ensures { IfOk result (λ counts. counts.items ≡ map length composites.now) }
{
    let mut counts = Vec::new(alloc);
    for parts in composites {
        counts.push(parts.items().len() as u32)?;
    }
    Ok(counts)
}
