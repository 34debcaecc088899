//! The words of the command line.
ghost use Rattle.std.specs.Prelude.{◌≡◌, map, string_bytes, IfSome};
ghost use Rattle.trace_text.specs.Options.{AreOptions};
ghost use Rattle.run_words.specs.Pools.{AreSound};
ghost use Rattle.run_words.specs.Words.{AreWithin, IsOrigin, IsWithin, asked_by, level_given, number_given, options_of};

use crate::asked::{Asked, Given};
use crate::pools::is_within_memory;
use crate::settings::named;
use option_words::{Form, first_given};
use pool_law::Options;
use trace_text::level_named;

/// Where the trace comes from.
#[derive(Clone, Copy)]
pub enum Origin {
    /// It is read from the source.
    Source,
    /// It is made from a number, and the source isn't read.
    Generated(Generation),
}

/// What a generated trace is made from.
#[derive(Clone, Copy)]
pub struct Generation {
    pub start: u64,
    pub lanes: u32,
    /// The most commands of all lanes together.
    pub commands: u32,
}

/// What the words ask for.
#[derive(Clone, Copy)]
pub struct RunOptions {
    /// Where the trace comes from.
    pub origin: Origin,
    /// What they ask of the pool.
    pub pool: Options,
    /// The threads that step the lanes.
    pub workers: u32,
    /// Whether the text has the notes of all lanes.
    pub history: bool,
}

/// The options of this program.
struct RunForm;

impl Form for RunForm {
    ghost use Rattle.run_words.specs.Words.{IsWithin, flag_given, given_by};

    type Given = Given;

    ghost flag = { flag_given };

    ghost valued = { given_by };

    ghost sound = { IsWithin };

    #[tactic(auto, unfolding(crate::specs::Words::flag_given))]
    fn flag(word: &str) -> Option<Given> {
        if word == "--history" {
            Some(Given::History)
        } else {
            None
        }
    }

    #[tactic(auto, unfolding(crate::specs::Words::flag_given))]
    fn is_flag(word: &str) -> bool {
        word == "--history"
    }

    #[tactic(auto, unfolding(crate::specs::Words::given_by))]
    fn valued(name: &str, text: &str) -> Option<Given> {
        if name == "--level" {
            level_given(text)
        } else {
            number_given(name, text)
        }
    }
}

fn level_given(text: &str) -> Option<Given>
    ensures value { result ≡ level_given text.now }
    ensures within { IfSome result IsWithin }
{
    let level = level_named(text)?;
    Some(Given::Level(level))
}

#[tactic(auto, unfolding(crate::specs::Words::number_given))]
fn number_given(name: &str, text: &str) -> Option<Given>
    ensures value { result ≡ number_given name.now text.now }
    ensures within { IfSome result IsWithin }
{
    let setting = named(name)?;
    let number = setting.number_for(text)?;
    Some(Given::Number { setting, number })
}

// What the words ask for; None where they have no form, or give an option twice.
fn asked_by(words: &[String]) -> Option<Asked>
    ensures value { result ≡ asked_by (map string_bytes words.now) }
    ensures within { IfSome result AreWithin }
{
    let mut asked = Asked::nothing();
    let mut left = words;
    while !left.is_empty() {
        let (given, rest) = first_given::<RunForm>(left)?;
        asked = asked.with(given)?;
        left = rest;
    }
    Some(asked)
}

/// The options that the words are; None exactly where the words have no form.
#[tactic(auto, unfolding(crate::specs::Words::options_of))]
pub fn read_words(words: &[String]) -> Option<RunOptions>
    ensures value { result ≡ options_of (map string_bytes words.now) }
    ensures sound { IfSome result (λ options. AreSound options.pool) }
    ensures within { IfSome result (λ options. AreOptions options.pool) }
    ensures origin { IfSome result (λ options. IsOrigin options.origin) }
{
    let options = asked_by(words)?.options()?;
    if is_within_memory(&options.pool) {
        Some(options)
    } else {
        None
    }
}
