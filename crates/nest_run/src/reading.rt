//! From a text to what it asks for.
ghost use Rattle.std.specs.Prelude.{◌≡◌, ◌-◌, ◌^◌, ◌≤◌, [], IfOk, codes, length, map, min, option_and_then, option_map, Some, None};
ghost use Rattle.serde_json.specs.Find.{get};
ghost use Rattle.serde_json.specs.View.{view};
ghost use Rattle.trace_text.specs.Items.{array_in};
ghost use Rattle.trace_text.specs.Options.{number_from};
ghost use Rattle.nest_run.specs.Inputs.{bytes_asked, bytes_asked_by, call_in, call_of, calls_after, capacity_limit, get_in, input_in, input_of, release_in, retain_in, set_in, slice_in};
ghost use Rattle.nest_run.specs.Steps.{IsGiven, IsInput};

use crate::calls::{Call, CallList, Input};
use serde_json::Value;
use std::alloc::{AllocError, Global};
use trace_text::{
    RowNo, TEXT_LIMIT, TraceNo, array_of, bytes_of, has_keys_of, number_from, number_of, value_from,
};

/// The most bytes of the root.
pub const CAPACITY_LIMIT: u32 = 4_194_304;

/// The most calls.
pub const CALL_LIMIT: u32 = 4096;

/// The most bytes that all `get`s ask for together.
const BYTE_LIMIT: u64 = 67_108_864;

/// The keys of the object.
const KEYS: [&str; 2] = ["capacity", "calls"];

/// What a text asks for. `Memory` may stand in place of any other answer.
#[tactic(auto, unfolding(crate::specs::Inputs::input_of))]
pub fn read_input(alloc: Global, text: &[u8]) -> Result<Input, RowNo>
    ensures reading { IsGiven result (input_of text.now) }
    ensures within { IfOk result IsInput }
{
    if text.len() > TEXT_LIMIT {
        return Err(RowNo::Form);
    }
    match value_from(alloc, text) {
        Ok(value) => input_from(alloc, &value),
        Err(TraceNo::Memory) => Err(RowNo::Memory),
        Err(_) => Err(RowNo::Form),
    }
}

// What a JSON value asks for.
#[tactic(auto, unfolding(crate::specs::Inputs::input_in))]
fn input_from(alloc: Global, value: &Value) -> Result<Input, RowNo>
    ensures reading { IsGiven result (input_in (view value.now)) }
    ensures within { IfOk result IsInput }
{
    if !has_keys_of(&KEYS, value) {
        return Err(RowNo::Form);
    }
    let capacity = capacity_in(value).ok_or(RowNo::Form)?;
    let rows = rows_in(value).ok_or(RowNo::Form)?;
    if rows.len() > CALL_LIMIT as usize {
        return Err(RowNo::Form);
    }
    let calls = calls_from(alloc, rows)?;
    if bytes_asked(calls.items()) > BYTE_LIMIT {
        return Err(RowNo::Form);
    }
    Ok(Input { capacity, calls })
}

// The number at the key `capacity`.
fn capacity_in(object: &Value) -> Option<u32>
    ensures { result ≡ option_and_then (number_from 0 capacity_limit)
        (get (codes "capacity") (view object.now)) }
{
    number_from(object.get("capacity")?, 0, CAPACITY_LIMIT)
}

// The rows at the key `calls`.
fn rows_in(object: &Value) -> Option<&[Value]>
    ensures { option_map (λ rows. map view rows.now) result
        ≡ option_and_then array_in (get (codes "calls") (view object.now)) }
{
    array_of(object.get("calls")?)
}

// The calls of rows, each of which is one.
fn calls_from(alloc: Global, rows: &[Value]) -> Result<CallList, RowNo>
    ensures { IsGiven result (calls_after [] (map view rows.now)) }
{
    let mut calls = Vec::new(alloc);
    for row in rows {
        let call = call_from(alloc, row)?;
        calls.push(call).map_err(AllocError::from)?;
    }
    Ok(CallList::of(calls))
}

// The call of a row.
#[tactic(auto, using(trace_text::proofs::Values::item_view), unfolding(crate::specs::Inputs::call_in))]
fn call_from(alloc: Global, row: &Value) -> Result<Call, RowNo>
    ensures { IsGiven result (call_in (view row.now)) }
{
    let items = array_of(row).ok_or(RowNo::Form)?;
    let word = items.first().and_then(Value::as_str).ok_or(RowNo::Form)?;
    call_of(alloc, word, items)
}

// The call of a word, from the items of its row.
#[tactic(auto, unfolding(crate::specs::Inputs::call_of))]
fn call_of(alloc: Global, word: &str, items: &[Value]) -> Result<Call, RowNo>
    ensures { IsGiven result (call_of word.now (map view items.now)) }
{
    if word == "slice" {
        slice_of(items).ok_or(RowNo::Form)
    } else if word == "retain" {
        retain_of(items).ok_or(RowNo::Form)
    } else if word == "release" {
        release_of(items).ok_or(RowNo::Form)
    } else if word == "set" {
        set_of(alloc, items)
    } else if word == "get" {
        get_of(items).ok_or(RowNo::Form)
    } else {
        Err(RowNo::Form)
    }
}

#[tactic(auto, using(trace_text::proofs::Values::item_view), unfolding(crate::specs::Inputs::slice_in))]
fn slice_of(items: &[Value]) -> Option<Call>
    ensures { result ≡ slice_in (map view items.now) }
{
    let [_, of, at, len] = items else {
        return None;
    };
    let of = number_of(of)?;
    let at = number_of(at)?;
    let len = number_of(len)?;
    Some(Call::Slice { of, at, len })
}

#[tactic(auto, using(trace_text::proofs::Values::item_view), unfolding(crate::specs::Inputs::retain_in))]
fn retain_of(items: &[Value]) -> Option<Call>
    ensures { result ≡ retain_in (map view items.now) }
{
    let [_, of] = items else {
        return None;
    };
    Some(Call::Retain(number_of(of)?))
}

#[tactic(auto, using(trace_text::proofs::Values::item_view), unfolding(crate::specs::Inputs::release_in))]
fn release_of(items: &[Value]) -> Option<Call>
    ensures { result ≡ release_in (map view items.now) }
{
    let [_, of] = items else {
        return None;
    };
    Some(Call::Release(number_of(of)?))
}

#[tactic(auto, using(trace_text::proofs::Values::item_view), unfolding(crate::specs::Inputs::set_in))]
fn set_of(alloc: Global, items: &[Value]) -> Result<Call, RowNo>
    ensures { IsGiven result (set_in (map view items.now)) }
{
    let [_, of, at, bytes] = items else {
        return Err(RowNo::Form);
    };
    let of = number_of(of).ok_or(RowNo::Form)?;
    let at = number_of(at).ok_or(RowNo::Form)?;
    let bytes = bytes_of(alloc, bytes)?;
    Ok(Call::Set { of, at, bytes })
}

#[tactic(auto, using(trace_text::proofs::Values::item_view), unfolding(crate::specs::Inputs::get_in))]
fn get_of(items: &[Value]) -> Option<Call>
    ensures { result ≡ get_in (map view items.now) }
{
    let [_, of, at, len] = items else {
        return None;
    };
    let of = number_of(of)?;
    let at = number_of(at)?;
    let len = number_of(len)?;
    Some(Call::Get { of, at, len })
}

// The bytes that the calls ask to see, or the greatest number where they are more.
fn bytes_asked(calls: &[Call]) -> u64
    ensures { result ≡ min (bytes_asked calls.now) (2 ^ 64 - 1) }
{
    let mut total = 0u64;
    for call in calls {
        total = total.saturating_add(bytes_asked_by(call));
    }
    total
}

fn bytes_asked_by(call: &Call) -> u64
    ensures { result ≡ bytes_asked_by call.now }
{
    match call {
        Call::Get { len, .. } => u64::from(*len),
        _ => 0,
    }
}
