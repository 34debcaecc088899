//! The commands by their words.
ghost use Rattle.std.specs.Prelude.{◌≡◌, ◌+◌, ◌≤◌, ◌^◌, OnOk, find, length, map};
ghost use Rattle.std.specs.Str.{bytes_eq};
ghost use Rattle.serde_json.specs.View.{view};
ghost use Rattle.trace_text.specs.Words.{command_in, form_of, text_of, word_of};
ghost use Rattle.trace_text.specs.Steps.{IsRead};

use crate::forms::{compose, get, one_name, set, slice, write};
use crate::items::{RowNo, array_of};
use crate::names::Names;
use crate::pairs;
use pool_law::Command;
use serde_json::Value;
use std::alloc::Global;

/// The first item of a command.
#[derive(Clone, Copy)]
pub enum Word {
    Alloc,
    Set,
    TrySet,
    Get,
    TryGet,
    Write,
    Read,
    Slice,
    RetainedSlice,
    Dup,
    Retain,
    Release,
    Refcnt,
    Touch,
    Forget,
    Send,
    Recv,
    Compose,
    Add,
    Capacity,
}

const WORDS: [Word; 20] = [
    Word::Alloc,
    Word::Set,
    Word::TrySet,
    Word::Get,
    Word::TryGet,
    Word::Write,
    Word::Read,
    Word::Slice,
    Word::RetainedSlice,
    Word::Dup,
    Word::Retain,
    Word::Release,
    Word::Refcnt,
    Word::Touch,
    Word::Forget,
    Word::Send,
    Word::Recv,
    Word::Compose,
    Word::Add,
    Word::Capacity,
];

impl Word {
    /// The text of the word.
    pub fn text(self) -> &'static str
        ensures { result.now ≡ text_of self }
    {
        match self {
            Word::Alloc => "alloc",
            Word::Set => "set",
            Word::TrySet => "tryset",
            Word::Get => "get",
            Word::TryGet => "tryget",
            Word::Write => "write",
            Word::Read => "read",
            Word::Slice => "slice",
            Word::RetainedSlice => "rslice",
            Word::Dup => "dup",
            Word::Retain => "retain",
            Word::Release => "release",
            Word::Refcnt => "refcnt",
            Word::Touch => "touch",
            Word::Forget => "forget",
            Word::Send => "send",
            Word::Recv => "recv",
            Word::Compose => "compose",
            Word::Add => "add",
            Word::Capacity => "capacity",
        }
    }
}

/// The word of this text.
#[tactic(auto, unfolding(crate::specs::Words::word_of))]
pub fn word_from(text: &str) -> Option<Word>
    ensures { result ≡ word_of text.now }
{
    word_among(&WORDS, text)
}

fn word_among(words: &[Word], text: &str) -> Option<Word>
    ensures { result ≡ find (λ word. bytes_eq (text_of word) text.now) words.now }
{
    words.iter().copied().find(|word| word.text() == text)
}

/// The command of this word.
#[tactic(auto, unfolding(crate::specs::Words::form_of))]
fn form(
    word: Word,
    alloc: Global,
    lanes: usize,
    names: &mut Names,
    items: &[Value],
) -> Result<Command, RowNo>
    requires few { length names.old ≤ 2 ^ 31 }
    ensures read { IsRead result names.new (form_of word lanes names.old (map view items.now)) }
    ensures grown { OnOk result (length names.new ≤ length names.old + 25) }
{
    match word {
        Word::Alloc => pairs::alloc(alloc, names, items),
        Word::Set => set(alloc, false, names, items),
        Word::TrySet => set(alloc, true, names, items),
        Word::Get => get(alloc, false, names, items),
        Word::TryGet => get(alloc, true, names, items),
        Word::Write => write(alloc, names, items),
        Word::Read => pairs::read(alloc, names, items),
        Word::Slice => slice(alloc, false, names, items),
        Word::RetainedSlice => slice(alloc, true, names, items),
        Word::Dup => pairs::dup(alloc, names, items),
        Word::Retain => {
            let name = one_name(alloc, names, items)?;
            Ok(Command::Retain { name })
        }
        Word::Release => {
            let name = one_name(alloc, names, items)?;
            Ok(Command::Release { name })
        }
        Word::Refcnt => {
            let name = one_name(alloc, names, items)?;
            Ok(Command::Refcnt { name })
        }
        Word::Touch => {
            let name = one_name(alloc, names, items)?;
            Ok(Command::Touch { name })
        }
        Word::Forget => {
            let name = one_name(alloc, names, items)?;
            Ok(Command::Forget { name })
        }
        Word::Send => pairs::send(alloc, lanes, names, items),
        Word::Recv => pairs::recv(alloc, lanes, names, items),
        Word::Compose => compose(alloc, names, items),
        Word::Add => pairs::add(alloc, names, items),
        Word::Capacity => pairs::capacity(alloc, names, items),
    }
}

/// The command of a row, in a trace of so many lanes.
#[tactic(auto, using(crate::proofs::Values::item_view), unfolding(crate::specs::Words::command_in))]
pub fn command(
    alloc: Global,
    lanes: usize,
    names: &mut Names,
    row: &Value,
) -> Result<Command, RowNo>
    requires few { length names.old ≤ 2 ^ 31 }
    ensures read { IsRead result names.new (command_in lanes names.old (view row.now)) }
    ensures grown { OnOk result (length names.new ≤ length names.old + 25) }
{
    let items = array_of(row).ok_or(RowNo::Form)?;
    let text = items.first().and_then(Value::as_str).ok_or(RowNo::Form)?;
    let word = word_from(text).ok_or(RowNo::Form)?;
    form(word, alloc, lanes, names, items)
}
