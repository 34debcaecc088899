//! The items of a command: names, numbers, lanes and bytes.
ghost use Rattle.std.specs.Prelude.{◌≡◌, map, option_map, IfOk, ◌^◌, nat_lt};
ghost use Rattle.std.specs.List.{list_all};
ghost use Rattle.serde_json.specs.View.{view};
ghost use Rattle.trace_text.specs.Items.{array_in, bytes_in, is_name, is_name_byte, lane_number_in, name_in, number_in, only_if};

use hex::FromHexError;
use pool_law::Bytes;
use serde_json::Value;
use std::alloc::{AllocError, Global};

/// Why a row is no command.
#[derive(Clone, Copy)]
pub enum RowNo {
    /// It has no form.
    Form,
    /// There was no memory for it.
    Memory,
}

impl From<AllocError> for RowNo {
    ghost use Rattle.trace_text.specs.declared.items.RowNo.TheVariants.{Memory};

    ghost from_gives = { λ _ no. no ≡ Memory };

    fn from(_error: AllocError) -> RowNo {
        RowNo::Memory
    }
}

/// The items of an array.
pub fn array_of(value: &Value) -> Option<&[Value]>
    ensures { option_map (λ values. map view values.now) result ≡ array_in (view value.now) }
{
    match value.as_array() {
        Some(values) => Some(values.as_slice()),
        None => None,
    }
}

/// The text of a name.
#[tactic(auto, unfolding(crate::specs::Items::name_in))]
pub fn name_of(value: &Value) -> Option<&str>
    ensures { option_map (λ name. name.now) result ≡ name_in (view value.now) }
{
    match value.as_str() {
        Some(text) if is_name_text(text) => Some(text),
        _ => None,
    }
}

fn is_name_text(text: &str) -> bool
    ensures { result ≡ is_name text.now }
{
    let bytes = text.as_bytes();
    1 <= bytes.len() && bytes.len() <= 32 && are_name_bytes(bytes)
}

fn are_name_bytes(bytes: &[u8]) -> bool
    ensures { result ≡ list_all is_name_byte bytes.now }
{
    bytes.iter().all(|byte| is_byte_of_name(*byte))
}

fn is_byte_of_name(byte: u8) -> bool
    ensures { result ≡ is_name_byte byte }
{
    (b'a' <= byte && byte <= b'z') || (b'0' <= byte && byte <= b'9') || byte == b'_'
}

/// A number below 2^32.
#[tactic(auto, unfolding(crate::specs::Items::number_in))]
pub fn number_of(value: &Value) -> Option<u32>
    ensures { result ≡ number_in (view value.now) }
{
    match value.as_u64() {
        Some(number) => narrowed(number),
        None => None,
    }
}

fn narrowed(number: u64) -> Option<u32>
    ensures { result ≡ only_if (λ n. nat_lt n (2 ^ 32)) number }
{
    if number < 1 << 32 {
        Some(number as u32)
    } else {
        None
    }
}

/// The number of one of so many lanes.
#[tactic(auto, unfolding(crate::specs::Items::lane_number_in))]
pub fn lane_number_of(lanes: usize, value: &Value) -> Option<u32>
    ensures { result ≡ lane_number_in lanes (view value.now) }
{
    match number_of(value) {
        Some(number) if (number as usize) < lanes => Some(number),
        _ => None,
    }
}

/// The bytes of a hexadecimal text.
#[tactic(auto, unfolding(crate::specs::Items::bytes_in))]
pub fn bytes_of(alloc: Global, value: &Value) -> Result<Bytes, RowNo>
    ensures value { IfOk result (λ bytes. bytes_in (view value.now) ≡ Some bytes) }
    ensures form { result ≡ Err RowNo.Form → bytes_in (view value.now) ≡ None }
{
    let Some(text) = value.as_str() else {
        return Err(RowNo::Form);
    };
    match hex::decode(alloc, text) {
        Ok(bytes) => Ok(Bytes::of(bytes)),
        Err(FromHexError::OutOfMemory) => Err(RowNo::Memory),
        Err(_) => Err(RowNo::Form),
    }
}
