//! What a trace of version 2 asks of the pool.
ghost use Rattle.std.specs.Prelude.{◌≡◌, codes, map, option_map};
ghost use Rattle.serde_json.specs.Find.{get};
ghost use Rattle.serde_json.specs.View.{members_view, view};
ghost use Rattle.std.specs.List.{list_all, list_any};
ghost use Rattle.std.specs.Str.{bytes_eq};
ghost use Rattle.trace_text.specs.Options.{has_keys_of, keys_of, level_from, level_named, level_word, may_be, number_from, options_from, page_from, parts_of, version_two};
ghost use Rattle.trace_text.specs.Reading.{GivesAs};

use crate::TraceNo;
use pool_law::{Level, Options};
use serde_json::{Map, Value};

/// All levels, in their order.
const LEVELS: [Level; 4] = [
    Level::Disabled,
    Level::Simple,
    Level::Advanced,
    Level::Paranoid,
];

/// The keys of an object of version 2.
pub const VERSION_KEYS: [&str; 3] = ["version", "lanes", "options"];

/// The keys of options.
pub const OPTION_KEYS: [&str; 7] = [
    "page", "order", "arenas", "chunks", "handles", "level", "interval",
];

/// The word of a level.
fn level_word(level: Level) -> &'static str
    ensures { result.now ≡ level_word level }
{
    match level {
        Level::Disabled => "disabled",
        Level::Simple => "simple",
        Level::Advanced => "advanced",
        Level::Paranoid => "paranoid",
    }
}

/// The level that a word names.
#[tactic(auto, unfolding(crate::specs::Options::level_named))]
pub fn level_named(word: &str) -> Option<Level>
    ensures { result ≡ level_named word.now }
{
    LEVELS
        .iter()
        .copied()
        .find(|level| level_word(*level) == word)
}

/// The lanes of a top value, and what it asks of the pool.
#[tactic(auto, unfolding(crate::specs::Options::parts_of))]
pub fn parts_of(value: &Value) -> Result<(&Value, Options), TraceNo>
    ensures { GivesAs (λ parts. (view parts.0.now, parts.1)) result (parts_of (view value.now)) }
{
    if !value.is_object() {
        return Ok((value, NO_OPTIONS));
    }
    version_two(value).ok_or(TraceNo::Options)
}

/// What a value asks for that asks for nothing.
const NO_OPTIONS: Options = Options {
    page: None,
    order: None,
    arenas: None,
    chunks: None,
    handles: None,
    level: None,
    interval: None,
};

/// The lanes and the options of an object of version 2.
#[tactic(auto, unfolding(crate::specs::Options::version_two))]
fn version_two(object: &Value) -> Option<(&Value, Options)>
    ensures { option_map (λ parts. (view parts.0.now, parts.1)) result
        ≡ version_two (view object.now) }
{
    if !has_keys_of(&VERSION_KEYS, object) {
        return None;
    }
    let _version = number_from(object.get("version")?, 2, 2)?;
    let lanes = object.get("lanes")?;
    let options = match object.get("options") {
        None => NO_OPTIONS,
        Some(value) => options_from(value)?,
    };
    Some((lanes, options))
}

/// The options of an object that has no key but theirs, each with its range.
#[tactic(auto, unfolding(crate::specs::Options::options_from))]
fn options_from(object: &Value) -> Option<Options>
    ensures { result ≡ options_from (view object.now) }
{
    if !has_keys_of(&OPTION_KEYS, object) {
        return None;
    }
    Some(Options {
        page: page_at(object)?,
        order: number_at(object, "order", 3, 11)?,
        arenas: number_at(object, "arenas", 1, 8)?,
        chunks: number_at(object, "chunks", 1, 8)?,
        handles: number_at(object, "handles", 1, 4096)?,
        level: level_at(object)?,
        interval: number_at(object, "interval", 1, 65_536)?,
    })
}

/// Whether a value is an object, all of whose keys are among these.
#[tactic(auto, unfolding(crate::specs::Options::has_keys_of))]
pub fn has_keys_of(known: &[&str], value: &Value) -> bool
    ensures { result ≡ has_keys_of (map (λ key. key.now) known.now) (view value.now) }
{
    match value.as_object() {
        Some(members) => are_known(known, members),
        None => false,
    }
}

/// Whether all keys of an object's members are among these.
fn are_known(known: &[&str], members: &Map<String, Value>) -> bool
    ensures { result ≡ list_all (λ key. list_any (bytes_eq key) (map (λ key. key.now) known.now))
        (keys_of (members_view members.now.entries)) }
{
    members.keys().all(|key| is_known(known, key.as_str()))
}

fn is_known(known: &[&str], key: &str) -> bool
    ensures { result ≡ list_any (bytes_eq key.now) (map (λ key. key.now) known.now) }
{
    known.contains(&key)
}

/// The page at the key `page`, and nothing where that key isn't there.
fn page_at(object: &Value) -> Option<Option<u32>>
    ensures { result ≡ may_be page_from (get (codes "page") (view object.now)) }
{
    match object.get("page") {
        None => Some(None),
        Some(value) => page_from(value).map(Some),
    }
}

/// The number at a key, and nothing where that key isn't there.
fn number_at(object: &Value, key: &str, least: u32, greatest: u32) -> Option<Option<u32>>
    ensures { result ≡ may_be (number_from least greatest) (get key.now (view object.now)) }
{
    match object.get(key) {
        None => Some(None),
        Some(value) => number_from(value, least, greatest).map(Some),
    }
}

/// The level at the key `level`, and nothing where that key isn't there.
fn level_at(object: &Value) -> Option<Option<Level>>
    ensures { result ≡ may_be level_from (get (codes "level") (view object.now)) }
{
    match object.get("level") {
        None => Some(None),
        Some(value) => level_from(value).map(Some),
    }
}

/// A number from the least to the greatest.
#[tactic(auto, unfolding(crate::specs::Options::number_from))]
pub fn number_from(value: &Value, least: u32, greatest: u32) -> Option<u32>
    ensures { result ≡ number_from least greatest (view value.now) }
{
    let number = value.as_u64()?;
    if u64::from(least) <= number && number <= u64::from(greatest) {
        Some(number as u32)
    } else {
        None
    }
}

/// The bytes of a page.
#[tactic(auto, unfolding(crate::specs::Options::page_from))]
pub fn page_from(value: &Value) -> Option<u32>
    ensures { result ≡ page_from (view value.now) }
{
    let bytes = value.as_u64()?;
    if bytes == 4096 || bytes == 8192 || bytes == 16_384 || bytes == 32_768 {
        Some(bytes as u32)
    } else {
        None
    }
}

/// The level that a text names.
#[tactic(auto, unfolding(crate::specs::Options::level_from))]
pub fn level_from(value: &Value) -> Option<Level>
    ensures { result ≡ level_from (view value.now) }
{
    level_named(value.as_str()?)
}
