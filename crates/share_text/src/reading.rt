//! From a text to what it asks for.
ghost use Rattle.std.specs.Prelude.{◌≡◌, ◌-◌, ◌^◌, IfOk, codes, map, min, option_and_then, option_map};
ghost use Rattle.serde_json.specs.Find.{get};
ghost use Rattle.serde_json.specs.View.{view};
ghost use Rattle.share_text.specs.Inputs.{Answers, IsInput, composite_in, composites_in, each_of, few_in, input_in, input_of, part_in, read_count, read_in, readers_in, reads_in};
ghost use Rattle.share_text.specs.Steps.{IsGiven};

use crate::inputs::{
    BYTE_LIMIT, COMPOSITE_LIMIT, Composites, Input, InputNo, PART_LIMIT, Parts, READ_LIMIT,
    READER_LIMIT, Readers, Reads,
};
use pool_law::Bytes;
use serde_json::Value;
use std::alloc::{AllocError, Global};
use trace_text::{
    RowNo, TEXT_LIMIT, TraceNo, array_of, bytes_of, has_keys_of, number_of, value_from,
};

/// The keys of the object.
const KEYS: [&str; 2] = ["composites", "reads"];

/// What a text asks for. It is one of at most 16,777,216 bytes, a JSON object with the keys
/// `composites` and `reads` and no other. `composites` is an array of arrays of hexadecimal texts,
/// `reads` one of arrays of numbers of composites; the limits are those of this crate.
/// `Memory` may stand in place of any other answer.
#[tactic(auto, unfolding(crate::specs::Inputs::input_of))]
pub fn read_input(alloc: Global, text: &[u8]) -> Result<Input, InputNo>
    // Each text that asks for something is read as what it asks for; each other is refused.
    ensures reading { Answers result text.now }

    // What was read is within the limits.
    ensures within { IfOk result IsInput }
{
    if text.len() > TEXT_LIMIT {
        return Err(InputNo::Refused);
    }
    let value = match value_from(alloc, text) {
        Ok(value) => value,
        Err(TraceNo::Memory) => return Err(InputNo::Memory),
        Err(_) => return Err(InputNo::Refused),
    };
    match input_from(alloc, &value) {
        Ok(input) => Ok(input),
        Err(RowNo::Form) => Err(InputNo::Refused),
        Err(RowNo::Memory) => Err(InputNo::Memory),
    }
}

// What a JSON value asks for.
#[tactic(auto, unfolding(crate::specs::Inputs::input_in))]
fn input_from(alloc: Global, value: &Value) -> Result<Input, RowNo>
    ensures { IsGiven result (input_in (view value.now)) }
{
    if !has_keys_of(&KEYS, value) {
        return Err(RowNo::Form);
    }
    let composites = composites_at(alloc, value)?;
    let readers = readers_at(alloc, composites.items().len(), value)?;
    Ok(Input {
        composites,
        readers,
    })
}

// The composites at the key `composites`.
fn composites_at(alloc: Global, object: &Value) -> Result<Composites, RowNo>
    ensures { IsGiven result
        (option_and_then composites_in (get (codes "composites") (view object.now))) }
{
    composites_of(alloc, object.get("composites").ok_or(RowNo::Form)?)
}

// The readers at the key `reads`, each of so many composites.
fn readers_at(alloc: Global, count: usize, object: &Value) -> Result<Readers, RowNo>
    ensures { IsGiven result
        (option_and_then (readers_in count) (get (codes "reads") (view object.now))) }
{
    readers_of(alloc, count, object.get("reads").ok_or(RowNo::Form)?)
}

// The items of an array that has at least one, and at most so many.
#[tactic(auto, unfolding(crate::specs::Inputs::few_in))]
fn few_of(most: usize, value: &Value) -> Option<&[Value]>
    ensures { option_map (λ rows. map view rows.now) result ≡ few_in most (view value.now) }
{
    match array_of(value) {
        Some(rows) if !rows.is_empty() && rows.len() <= most => Some(rows),
        _ => None,
    }
}

#[tactic(auto, unfolding(crate::specs::Inputs::composites_in))]
fn composites_of(alloc: Global, value: &Value) -> Result<Composites, RowNo>
    ensures { IsGiven result (composites_in (view value.now)) }
{
    let rows = few_of(COMPOSITE_LIMIT, value).ok_or(RowNo::Form)?;
    each_composite(alloc, rows)
}

fn each_composite(alloc: Global, rows: &[Value]) -> Result<Composites, RowNo>
    ensures { IsGiven result (each_of composite_in (map view rows.now)) }
{
    let mut composites = Vec::new(alloc);
    for row in rows {
        let composite = composite_of(alloc, row)?;
        composites.push(composite).map_err(AllocError::from)?;
    }
    Ok(Composites::of(composites))
}

#[tactic(auto, unfolding(crate::specs::Inputs::composite_in))]
fn composite_of(alloc: Global, value: &Value) -> Result<Parts, RowNo>
    ensures { IsGiven result (composite_in (view value.now)) }
{
    let rows = few_of(PART_LIMIT, value).ok_or(RowNo::Form)?;
    each_part(alloc, rows)
}

fn each_part(alloc: Global, rows: &[Value]) -> Result<Parts, RowNo>
    ensures { IsGiven result (each_of part_in (map view rows.now)) }
{
    let mut parts = Vec::new(alloc);
    for row in rows {
        let part = part_of(alloc, row)?;
        parts.push(part).map_err(AllocError::from)?;
    }
    Ok(Parts::of(parts))
}

#[tactic(auto, unfolding(crate::specs::Inputs::part_in))]
fn part_of(alloc: Global, value: &Value) -> Result<Bytes, RowNo>
    ensures { IsGiven result (part_in (view value.now)) }
{
    let bytes = bytes_of(alloc, value)?;
    if bytes.items().len() <= BYTE_LIMIT {
        Ok(bytes)
    } else {
        Err(RowNo::Form)
    }
}

// Readers of so many composites.
#[tactic(auto, unfolding(crate::specs::Inputs::readers_in))]
fn readers_of(alloc: Global, count: usize, value: &Value) -> Result<Readers, RowNo>
    ensures { IsGiven result (readers_in count (view value.now)) }
{
    let rows = few_of(READER_LIMIT, value).ok_or(RowNo::Form)?;
    let readers = each_reader(alloc, count, rows)?;
    if read_count(readers.items()) <= READ_LIMIT {
        Ok(readers)
    } else {
        Err(RowNo::Form)
    }
}

fn each_reader(alloc: Global, count: usize, rows: &[Value]) -> Result<Readers, RowNo>
    ensures { IsGiven result (each_of (reads_in count) (map view rows.now)) }
{
    let mut readers = Vec::new(alloc);
    for row in rows {
        let reads = reads_of(alloc, count, row)?;
        readers.push(reads).map_err(AllocError::from)?;
    }
    Ok(Readers::of(readers))
}

#[tactic(auto, unfolding(crate::specs::Inputs::reads_in))]
fn reads_of(alloc: Global, count: usize, value: &Value) -> Result<Reads, RowNo>
    ensures { IsGiven result (reads_in count (view value.now)) }
{
    let rows = array_of(value).ok_or(RowNo::Form)?;
    each_read(alloc, count, rows)
}

fn each_read(alloc: Global, count: usize, rows: &[Value]) -> Result<Reads, RowNo>
    ensures { IsGiven result (each_of (read_in count) (map view rows.now)) }
{
    let mut reads = Vec::new(alloc);
    for row in rows {
        let read = read_of(count, row).ok_or(RowNo::Form)?;
        reads.push(read).map_err(AllocError::from)?;
    }
    Ok(Reads::of(reads))
}

// The number of one of so many composites.
#[tactic(auto, unfolding(crate::specs::Inputs::read_in))]
fn read_of(count: usize, value: &Value) -> Option<u32>
    ensures { result ≡ read_in count (view value.now) }
{
    match number_of(value) {
        Some(number) if (number as usize) < count => Some(number),
        _ => None,
    }
}

// The reads of all readers, or the greatest number where they are more.
fn read_count(readers: &[Reads]) -> usize
    ensures { result ≡ min (read_count readers.now) (2 ^ 64 - 1) }
{
    let mut total = 0usize;
    for reads in readers {
        total = total.saturating_add(reads.items().len());
    }
    total
}
