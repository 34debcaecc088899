//! Faults of an object that should be a trace of version 2.

use crate::keys::{member_place, unknown_key};
use crate::place::{Fault, shown_at};
use crate::scan::after_space;
use crate::shape::bare_fault;
use serde_json::Value;
use std::alloc::{AllocError, Global};
use trace_text::{OPTION_KEYS, VERSION_KEYS, level_from, number_from, page_from};

const PAGE_REASON: &str = "the page is none of 4096, 8192, 16384, 32768";

const LEVEL_REASON: &str = "the level is none of disabled, simple, advanced, paranoid";

/// An option that is a number, with its range.
struct Range {
    key: &'static str,
    least: u32,
    greatest: u32,
}

const RANGES: [Range; 5] = [
    Range {
        key: "order",
        least: 3,
        greatest: 11,
    },
    Range {
        key: "arenas",
        least: 1,
        greatest: 8,
    },
    Range {
        key: "chunks",
        least: 1,
        greatest: 8,
    },
    Range {
        key: "handles",
        least: 1,
        greatest: 4096,
    },
    Range {
        key: "interval",
        least: 1,
        greatest: 65_536,
    },
];

/// What is wrong with an object that is no trace of version 2.
pub fn options_fault(alloc: Global, text: &[u8], top: &Value) -> Result<Fault, AllocError> {
    let at = after_space(text, 0);
    if let Some(key) = unknown_key(alloc, text, at, &VERSION_KEYS)? {
        return key_fault(alloc, text, key, &VERSION_KEYS);
    }
    let Some(version) = top.get("version") else {
        return bare_fault(alloc, text, at, "the key \"version\" is missing");
    };
    if number_from(version, 2, 2).is_none() {
        let place = member_place(alloc, text, at, "version")?;
        return bare_fault(alloc, text, place, "the version is not the number 2");
    }
    let Some(_) = top.get("lanes") else {
        return bare_fault(alloc, text, at, "the key \"lanes\" is missing");
    };
    let place = member_place(alloc, text, at, "options")?;
    match top.get("options") {
        Some(options) if options.is_object() => asked_fault(alloc, text, place, options),
        _ => bare_fault(alloc, text, place, "the options are no object"),
    }
}

/// A key that is none of these.
fn key_fault(alloc: Global, text: &[u8], key: usize, known: &[&str]) -> Result<Fault, AllocError> {
    let quoted = shown_at(alloc, text, key)?;
    let mut reason = format!(in alloc; "the key {quoted} is none of ")?;
    for (number, name) in known.iter().enumerate() {
        if number > 0 {
            reason.push_str(", ")?;
        }
        reason.push_str(*name)?;
    }
    bare_fault(alloc, text, key, reason.as_str())
}

/// What is wrong with the options, which begin here.
fn asked_fault(
    alloc: Global,
    text: &[u8],
    at: usize,
    options: &Value,
) -> Result<Fault, AllocError> {
    if let Some(key) = unknown_key(alloc, text, at, &OPTION_KEYS)? {
        return key_fault(alloc, text, key, &OPTION_KEYS);
    }
    if let Some(page) = options.get("page") {
        if page_from(page).is_none() {
            let place = member_place(alloc, text, at, "page")?;
            return bare_fault(alloc, text, place, PAGE_REASON);
        }
    }
    for range in &RANGES {
        if let Some(number) = options.get(range.key) {
            if number_from(number, range.least, range.greatest).is_none() {
                return range_fault(alloc, text, at, range);
            }
        }
    }
    if let Some(level) = options.get("level") {
        if level_from(level).is_none() {
            let place = member_place(alloc, text, at, "level")?;
            return bare_fault(alloc, text, place, LEVEL_REASON);
        }
    }
    bare_fault(alloc, text, at, "the options have no form")
}

fn range_fault(alloc: Global, text: &[u8], at: usize, range: &Range) -> Result<Fault, AllocError> {
    let (key, least, greatest) = (range.key, range.least, range.greatest);
    let place = member_place(alloc, text, at, key)?;
    let verb = if key.ends_with('s') { "are" } else { "is" };
    let reason = format!(in alloc; "the {key} {verb} no whole number from {least} to {greatest}")?;
    bare_fault(alloc, text, place, reason.as_str())
}
