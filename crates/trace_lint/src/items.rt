//! What is wrong with an item of a command.

use crate::forms::Item;
use serde_json::Value;
use std::alloc::{AllocError, Global};
use trace_text::{RowNo, bytes_of, lane_number_of, name_of, number_of};

/// What is wrong with an item in a trace of so many lanes, and nothing where it has its form.
pub fn item_fault(
    alloc: Global,
    lanes: usize,
    item: Item,
    value: &Value,
) -> Result<Option<String>, AllocError> {
    match item {
        Item::New | Item::View | Item::Whole => name_fault(alloc, item, value),
        Item::At | Item::Count | Item::Size => number_fault(alloc, item, value),
        Item::Lane => lane_fault(alloc, lanes, value),
        Item::Bytes => bytes_fault(alloc, value),
    }
}

fn name_fault(alloc: Global, item: Item, value: &Value) -> Result<Option<String>, AllocError> {
    if name_of(value).is_some() {
        return Ok(None);
    }
    let what = item.called();
    let Some(text) = value.as_str() else {
        return Ok(Some(format!(in alloc; "the {what} is no text")?));
    };
    let length = text.len();
    if length == 0 {
        return Ok(Some(format!(in alloc; "the {what} is empty")?));
    }
    if length > 32 {
        return Ok(Some(format!(in alloc;
            "the {what} has {length} bytes, and a name has at most 32"
        )?));
    }
    Ok(Some(format!(in alloc; "the {what} has a character that is none of a to z, 0 to 9 and _")?))
}

fn number_fault(alloc: Global, item: Item, value: &Value) -> Result<Option<String>, AllocError> {
    if number_of(value).is_some() {
        return Ok(None);
    }
    let what = item.called();
    Ok(Some(format!(in alloc; "the {what} is no whole number below 2^32")?))
}

fn lane_fault(alloc: Global, lanes: usize, value: &Value) -> Result<Option<String>, AllocError> {
    if lane_number_of(lanes, value).is_some() {
        return Ok(None);
    }
    let Some(number) = number_of(value) else {
        return number_fault(alloc, Item::Lane, value);
    };
    let last = lanes.saturating_sub(1);
    let reason = if last == 0 {
        format!(in alloc; "there is no lane {number}: the trace has lane 0 alone")?
    } else {
        format!(in alloc; "there is no lane {number}: the trace has the lanes 0 to {last}")?
    };
    Ok(Some(reason))
}

fn bytes_fault(alloc: Global, value: &Value) -> Result<Option<String>, AllocError> {
    match bytes_of(alloc, value) {
        Ok(_) => return Ok(None),
        Err(RowNo::Memory) => return Err(AllocError),
        Err(RowNo::Form) => {}
    }
    let reason = match value.as_str() {
        None => "the bytes are no text",
        Some(text) if !text.as_bytes().iter().all(|byte| byte.is_ascii_hexdigit()) => {
            "the bytes have a character that is no hexadecimal digit"
        }
        Some(_) => "the bytes have an odd number of hexadecimal digits",
    };
    Ok(Some(String::from_str(alloc, reason)?))
}
