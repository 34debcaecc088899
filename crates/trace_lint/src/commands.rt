//! What is wrong with a command.

use crate::forms::{Item, items_behind, more_views};
use crate::items::item_fault;
use crate::lanes::{items_of, word_text};
use crate::place::shown;
use serde_json::Value;
use std::alloc::{AllocError, Global};
use trace_text::{Word, array_of, word_from};

/// What is wrong with a command.
#[derive(Drop)]
pub struct RowFault {
    /// The number of the item at fault; none where it is the command as a whole.
    pub item: Option<usize>,
    /// What is wrong with it.
    pub reason: String,
}

/// What is wrong with a row that comes behind these, in a trace of so many lanes.
pub fn row_fault(
    alloc: Global,
    lanes: usize,
    earlier: &[Value],
    row: &Value,
) -> Result<RowFault, AllocError> {
    let Some(items) = array_of(row) else {
        return whole(alloc, "a command is an array, and this is none");
    };
    let Some(first) = items.first() else {
        return whole(alloc, "the command is empty and has no word");
    };
    let Some(text) = first.as_str() else {
        return Ok(RowFault {
            item: Some(0),
            reason: String::from_str(alloc, "the first item is no text, and so no word")?,
        });
    };
    match word_from(text) {
        None => unknown_word(alloc, first),
        Some(word) => form_fault(alloc, lanes, word, earlier, items),
    }
}

fn whole(alloc: Global, reason: &str) -> Result<RowFault, AllocError> {
    Ok(RowFault {
        item: None,
        reason: String::from_str(alloc, reason)?,
    })
}

fn unknown_word(alloc: Global, word: &Value) -> Result<RowFault, AllocError> {
    let text = word.to_string(alloc)?;
    let quoted = shown(alloc, text.as_bytes())?;
    Ok(RowFault {
        item: Some(0),
        reason: format!(in alloc; "no command has the word {quoted}")?,
    })
}

/// What is wrong with the items of a command of this word.
fn form_fault(
    alloc: Global,
    lanes: usize,
    word: Word,
    earlier: &[Value],
    items: &[Value],
) -> Result<RowFault, AllocError> {
    let form = items_behind(word);
    let least = form.len().saturating_add(1);
    if items.len() < least || items.len() > least.saturating_add(more_views(word)) {
        return wrong_count(alloc, word, items.len());
    }
    for (number, value) in items.iter().enumerate().skip(1) {
        // What stands behind the items of a form is one more view.
        let item = form
            .get(number.saturating_sub(1))
            .copied()
            .unwrap_or(Item::View);
        if let Some(reason) = item_fault(alloc, lanes, item, value)? {
            return Ok(RowFault {
                item: Some(number),
                reason,
            });
        }
    }
    not_new(alloc, earlier, items)
}

/// Of how many items the command is, and how many its form has.
fn wrong_count(alloc: Global, word: Word, count: usize) -> Result<RowFault, AllocError> {
    let name = word.text();
    let plural = if count == 1 { "" } else { "s" };
    let mut reason = format!(in alloc; "this has {count} item{plural}, and {name} has ")?;
    push_form(&mut reason, word)?;
    Ok(RowFault { item: None, reason })
}

/// How many items a command of this word has, and which.
fn push_form(text: &mut String, word: Word) -> Result<(), AllocError> {
    let form = items_behind(word);
    let least = form.len().saturating_add(1);
    let more = more_views(word);
    write!(text, "{least}")?;
    if more > 0 {
        let most = least.saturating_add(more);
        write!(text, " to {most}")?;
    }
    let name = word.text();
    write!(text, ": [\"{name}\"")?;
    for item in form {
        text.push_str(",")?;
        text.push_str(item.name())?;
    }
    text.push_str(if more > 0 { ",..]" } else { "]" })
}

/// A `recv` of a name that an earlier row makes.
fn not_new(alloc: Global, earlier: &[Value], items: &[Value]) -> Result<RowFault, AllocError> {
    let name = items.get(1).and_then(Value::as_str).unwrap_or("");
    for (line, row) in earlier.iter().enumerate() {
        if new_name(row) == Some(name) {
            return Ok(RowFault {
                item: Some(1),
                reason: format!(in alloc;
                    "a recv makes a new name, and line {line} makes this one already"
                )?,
            });
        }
    }
    whole(alloc, "this is no command here")
}

/// The name that a row makes.
fn new_name(row: &Value) -> Option<&str> {
    let word = word_from(word_text(row))?;
    match items_behind(word).first() {
        Some(Item::New) => items_of(row).get(1)?.as_str(),
        _ => None,
    }
}
