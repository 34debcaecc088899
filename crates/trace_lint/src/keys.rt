//! The keys of the objects of a text that is JSON.

use crate::scan::{first_in, next_behind, part_of, value_behind, value_end};
use serde_json::Value;
use std::alloc::{AllocError, Global};

/// The place of the first key of the object that begins here which is none of these.
pub fn unknown_key(
    alloc: Global,
    text: &[u8],
    object: usize,
    known: &[&str],
) -> Result<Option<usize>, AllocError> {
    let mut next = first_in(text, object);
    for _ in 0..text.len() {
        let Some(key) = next else {
            return Ok(None);
        };
        let name = key_at(alloc, text, key)?;
        if !is_known(known, name.as_str()) {
            return Ok(Some(key));
        }
        next = behind_member(text, key);
    }
    Ok(None)
}

fn is_known(known: &[&str], key: &str) -> bool {
    known.contains(&key)
}

/// The place of the value at a key: the last, where the key stands more than once; the object's
/// own, where it doesn't stand there.
pub fn member_place(
    alloc: Global,
    text: &[u8],
    object: usize,
    wanted: &str,
) -> Result<usize, AllocError> {
    let mut place = object;
    let mut next = first_in(text, object);
    for _ in 0..text.len() {
        let Some(key) = next else {
            return Ok(place);
        };
        let name = key_at(alloc, text, key)?;
        if name.as_str() == wanted {
            place = value_behind(text, key);
        }
        next = behind_member(text, key);
    }
    Ok(place)
}

/// The place of the key behind the member whose key begins here.
fn behind_member(text: &[u8], key: usize) -> Option<usize> {
    next_behind(text, value_end(text, value_behind(text, key)))
}

/// The key that begins here, without its escapes.
fn key_at(alloc: Global, text: &[u8], key: usize) -> Result<String, AllocError> {
    match Value::from_slice(alloc, part_of(text, key, value_end(text, key))) {
        Ok(value) => String::from_str(alloc, value.as_str().unwrap_or("")),
        Err(error) if error.is_memory() => Err(AllocError),
        Err(_) => Ok(String::new(alloc)),
    }
}
