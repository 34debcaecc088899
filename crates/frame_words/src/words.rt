//! The words of the command line.
ghost use Rattle.std.specs.Prelude.{◌≡◌, map, string_bytes, IfSome};
ghost use Rattle.frame_words.specs.Words.{AreOptions, AreWithin, IsWithin, asked_by, given_by, options_of};

use crate::asked::{Asked, Given};
use crate::settings::named;
use option_words::{Form, first_given};

/// What the words ask for.
#[derive(Clone, Copy, Debug, PartialEq, Eq)]
pub struct CutOptions {
    /// The workers, 1 to 15: each has a lane and a queue of its own.
    pub workers: u32,
    /// The bytes of a block of the stream, 1,024 to 65,536.
    pub block: u32,
}

/// The options of this program.
struct CutForm;

impl Form for CutForm {
    ghost use Rattle.frame_words.specs.Words.{IsWithin, no_flag, given_by};

    type Given = Given;

    ghost flag = { no_flag };

    ghost valued = { given_by };

    ghost sound = { IsWithin };

    fn flag(word: &str) -> Option<Given> {
        let _ = word;
        None
    }

    fn is_flag(word: &str) -> bool {
        let _ = word;
        false
    }

    fn valued(name: &str, text: &str) -> Option<Given> {
        number_given(name, text)
    }
}

#[tactic(auto, unfolding(crate::specs::Words::given_by))]
fn number_given(name: &str, text: &str) -> Option<Given>
    ensures value { result ≡ given_by name.now text.now }
    ensures within { IfSome result IsWithin }
{
    let setting = named(name)?;
    let number = setting.number_for(text)?;
    Some(Given { setting, number })
}

// What the words ask for; None where they have no form, or give an option twice.
fn asked_by(words: &[String]) -> Option<Asked>
    ensures value { result ≡ asked_by (map string_bytes words.now) }
    ensures within { IfSome result AreWithin }
{
    let mut asked = Asked::nothing();
    let mut left = words;
    while !left.is_empty() {
        let (given, rest) = first_given::<CutForm>(left)?;
        asked = asked.with(given)?;
        left = rest;
    }
    Some(asked)
}

/// The options that the words are; None exactly where the words have no form.
#[tactic(auto, unfolding(crate::specs::Words::options_of))]
pub fn read_words(words: &[String]) -> Option<CutOptions>
    ensures value { result ≡ options_of (map string_bytes words.now) }
    ensures within { IfSome result AreOptions }
{
    let asked = asked_by(words)?;
    Some(asked.options())
}
