//! What notes make of a root place where a root is present.

ghost use Rattle.std.specs.Prelude.{◌≡◌, ◌+◌, ◌==◌, ◌&&◌, ◌||◌, nat_le, nat_lt, length, IfOk, OnOk, Some};
ghost use Rattle.pool_law.specs.Caches.{if_so};
ghost use Rattle.pool_law.specs.Same.{same_bytes};
ghost use Rattle.pool_law.specs.declared.note.Did.{Did};
ghost use Rattle.pool_law.specs.Roots.{present_step, bytes_at, zeros_to};

use crate::place::{Present, RootPlace};
use crate::same::same_bytes;
use pool_law::{Did, RegionId};
use std::alloc::AllocError;

/// A place where a root is present after a note.
pub(crate) fn present_step(
    generation: u32,
    present: Present,
    did: &Did,
) -> Result<Option<RootPlace>, AllocError>
    ensures { IfOk result (λ next. next
        ≡ present_step (record { generation = generation; present = Some present })
        present did.now) }
{
    match did {
        Did::Set { offset, bytes } => Ok(set(generation, present, *offset, bytes.items())),
        Did::Get { offset, bytes } => {
            let found = has_bytes(&present.bytes, *offset as usize, bytes.items());
            Ok(kept_if(found, generation, present))
        }
        Did::Touch => Ok(kept_if(true, generation, present)),
        Did::Room { asked, capacity } => {
            let found = has_room(&present, *asked, *capacity);
            Ok(kept_if(found, generation, present))
        }
        Did::Extend(size) => extended(generation, present, *size),
        Did::Grow { capacity, region } => grown(generation, present, *capacity, region),
        Did::End(root) => {
            if *root == present.root {
                Ok(Some(RootPlace {
                    generation,
                    present: None,
                }))
            } else {
                Ok(None)
            }
        }
        _ => Ok(None),
    }
}

// The place as it is, where a test holds.
fn kept_if(holds: bool, generation: u32, present: Present) -> Option<RootPlace>
    ensures { result ≡ if_so holds (record { generation = generation; present = Some present }) }
{
    if holds {
        Some(RootPlace {
            generation,
            present: Some(present),
        })
    } else {
        None
    }
}

// Whether the root has this capacity, and a region that does not let it have what is asked beyond.
fn has_room(present: &Present, asked: u32, capacity: u32) -> bool
    ensures { result ≡ ((capacity == length present.now.bytes)
        && (nat_le asked capacity || nat_lt present.now.region.place.len asked)) }
{
    capacity as usize == present.bytes.len()
        && (asked <= capacity || present.region.place.len < asked)
}

// Appends zeros to bytes up to a size, if they are fewer.
fn append_zeros(bytes: &mut Vec<u8>, size: usize) -> Result<(), AllocError>
    ensures { OnOk result (bytes.new.items ≡ zeros_to size bytes.old.items) }
{
    if bytes.len() < size {
        bytes.resize(size, 0)?;
    }
    Ok(())
}

// A place once the root is extended in its region.
fn extended(
    generation: u32,
    mut present: Present,
    size: u32,
) -> Result<Option<RootPlace>, AllocError>
    ensures { IfOk result (λ next. next
        ≡ present_step (record { generation = generation; present = Some present })
        present (Did.Extend size)) }
{
    if present.bytes.len() >= size as usize || size > present.region.place.len {
        return Ok(None);
    }
    append_zeros(&mut present.bytes, size as usize)?;
    Ok(Some(RootPlace {
        generation,
        present: Some(present),
    }))
}

// A place once the root has grown out of its region.
fn grown(
    generation: u32,
    present: Present,
    capacity: u32,
    region: &RegionId,
) -> Result<Option<RootPlace>, AllocError>
    ensures { IfOk result (λ next. next
        ≡ present_step (record { generation = generation; present = Some present })
        present (Did.Grow capacity region.now)) }
{
    if present.region.place.len >= capacity || capacity > region.place.len {
        return Ok(None);
    }
    let Present {
        root,
        region: _,
        mut bytes,
    } = present;
    append_zeros(&mut bytes, capacity as usize)?;
    Ok(Some(RootPlace {
        generation,
        present: Some(Present {
            root,
            region: *region,
            bytes,
        }),
    }))
}

// Whether so many bytes from an offset on lie within a length.
fn lie_within(offset: usize, len: usize, all: usize) -> bool
    ensures { result ≡ nat_le (offset + len) all }
{
    len <= all && offset <= all - len
}

// A place once bytes are set.
fn set(generation: u32, mut present: Present, offset: u32, bytes: &[u8]) -> Option<RootPlace>
    ensures { result ≡ present_step (record { generation = generation; present = Some present })
        present (Did.Set offset bytes.now) }
{
    let offset = offset as usize;
    if !lie_within(offset, bytes.len(), present.bytes.len()) {
        return None;
    }
    present.bytes[offset..offset + bytes.len()].copy_from_slice(bytes);
    Some(RootPlace {
        generation,
        present: Some(present),
    })
}

// Whether these bytes are there at an offset.
fn has_bytes(all: &[u8], offset: usize, bytes: &[u8]) -> bool
    ensures { result ≡ (nat_le (offset + length bytes.now) (length all.now)
        && same_bytes bytes.now (bytes_at all.now offset (length bytes.now))) }
{
    if !lie_within(offset, bytes.len(), all.len()) {
        return false;
    }
    same_bytes(bytes, &all[offset..offset + bytes.len()])
}
