//! From a text to what it asks about.

ghost use Rattle.std.specs.Prelude.{◌≡◌, [], IfOk, codes, map, option_and_then, option_map, string_bytes};
ghost use Rattle.std.specs.Result.{result_ok};
ghost use Rattle.pool_law.specs.Limits.{IsShape};
ghost use Rattle.serde_json.specs.Find.{as_str, get};
ghost use Rattle.serde_json.specs.View.{view};
ghost use Rattle.trace_text.specs.Items.{array_in};
ghost use Rattle.trace_text.specs.Options.{AreOptions};
ghost use Rattle.run_words.specs.Pools.{reading_for};
ghost use Rattle.run_input.specs.Cases.{asked_by, asked_in, pool_in, text_in, texts_after, value_in};
ghost use Rattle.run_input.specs.Steps.{IsGiven, IsGivenAs};

use pool_law::{Options, Shape, Trace};
use run_words::{Origin, read_for, read_words, shape};
use serde_json::Value;
use std::alloc::{AllocError, Global};
use trace_text::{Read, RowNo, TEXT_LIMIT, TraceNo, array_of, has_keys_of, value_from};

/// The keys of the object.
const KEYS: [&str; 3] = ["words", "trace", "text"];

/// A trace and a pool, of which input tells a run.
#[derive(Drop)]
pub struct Asked {
    /// What the lanes were asked to do.
    pub trace: Trace,
    /// The measures of the pool.
    pub shape: Shape,
}

/// The JSON value of a text. It is refused where it is too long, too.
#[tactic(auto, unfolding(crate::specs::Cases::value_in))]
pub fn read_value(alloc: Global, text: &[u8]) -> Result<Value, RowNo>
    ensures { IsGivenAs view result (value_in text.now) }
{
    if text.len() > TEXT_LIMIT {
        return Err(RowNo::Form);
    }
    match value_from(alloc, text) {
        Ok(value) => Ok(value),
        Err(TraceNo::Memory) => Err(RowNo::Memory),
        Err(_) => Err(RowNo::Form),
    }
}

/// The trace and the pool that a JSON value asks about.
#[tactic(auto, unfolding(crate::specs::Cases::asked_in))]
pub fn asked_from(alloc: Global, value: &Value) -> Result<Asked, RowNo>
    ensures asked { IsGiven result (asked_in (view value.now)) }
    ensures within { IfOk result (λ asked. IsShape asked.shape) }
{
    if !has_keys_of(&KEYS, value) {
        return Err(RowNo::Form);
    }
    let words = words_in(value).ok_or(RowNo::Form)?;
    let pool = pool_from(alloc, words)?;
    let trace = trace_in(value).ok_or(RowNo::Form)?;
    read_asked(alloc, &pool, trace)
}

// The values at the key `words`.
fn words_in(object: &Value) -> Option<&[Value]>
    ensures { option_map (λ words. map view words.now) result
        ≡ option_and_then array_in (get (codes "words") (view object.now)) }
{
    array_of(object.get("words")?)
}

// The text at the key `trace`.
fn trace_in(object: &Value) -> Option<&str>
    ensures { option_map (λ text. text.now) result
        ≡ option_and_then as_str (get (codes "trace") (view object.now)) }
{
    object.get("trace")?.as_str()
}

/// The text at the key `text`.
#[tactic(auto, unfolding(crate::specs::Cases::text_in))]
pub fn text_in(object: &Value) -> Option<&str>
    ensures { option_map (λ text. text.now) result ≡ text_in (view object.now) }
{
    object.get("text")?.as_str()
}

// The trace of a text, and the pool that it asks for beside words.
fn read_asked(alloc: Global, pool: &Options, text: &str) -> Result<Asked, RowNo>
    requires { AreOptions pool.now }
    ensures asked { IsGiven result
        (option_map asked_by (result_ok (reading_for pool.now text.now))) }
    ensures within { IfOk result (λ asked. IsShape asked.shape) }
{
    match read_for(alloc, pool, text.as_bytes()) {
        Ok(Read { trace, options }) => {
            let lanes = trace.lanes.items().len();
            Ok(Asked {
                trace,
                shape: shape(&options, lanes as u32),
            })
        }
        Err(TraceNo::Memory) => Err(RowNo::Memory),
        Err(_) => Err(RowNo::Form),
    }
}

// What words ask of the pool, where a trace is to be read.
#[tactic(auto, unfolding(crate::specs::Cases::pool_in))]
fn pool_from(alloc: Global, words: &[Value]) -> Result<Options, RowNo>
    ensures reading { IsGiven result (pool_in (map view words.now)) }
    ensures within { IfOk result AreOptions }
{
    let words = texts_of(alloc, words)?;
    let asked = read_words(&words).ok_or(RowNo::Form)?;
    match asked.origin {
        Origin::Source => Ok(asked.pool),
        Origin::Generated(_) => Err(RowNo::Form),
    }
}

// The texts that values are.
fn texts_of(alloc: Global, values: &[Value]) -> Result<Vec<String>, RowNo>
    ensures { IsGivenAs (λ texts. map string_bytes texts.items) result
        (texts_after [] (map view values.now)) }
{
    let mut texts = Vec::new(alloc);
    for value in values {
        let text = text_from(alloc, value)?;
        texts.push(text).map_err(AllocError::from)?;
    }
    Ok(texts)
}

// The text that a value is.
fn text_from(alloc: Global, value: &Value) -> Result<String, RowNo>
    ensures { IsGivenAs string_bytes result (as_str (view value.now)) }
{
    let text = value.as_str().ok_or(RowNo::Form)?;
    Ok(String::from_str(alloc, text)?)
}
