//! The options of the command line, as a table.
ghost use Rattle.std.specs.Prelude.{◌≡◌};
ghost use Rattle.frame_words.specs.Words.{named};

use option_words::numeral;

/// An option of the command line.
#[derive(Clone, Copy, Debug, PartialEq, Eq)]
pub enum Setting {
    /// The workers, each with a lane and a queue of its own.
    Workers,
    /// The bytes of a block of the stream.
    Block,
}

/// A row of the table: the range of an option, and its number where it isn't given.
#[derive(Clone, Copy, Debug)]
pub struct Row {
    pub least: u64,
    pub greatest: u64,
    pub default: u64,
}

impl Row {
    ghost use Rattle.std.specs.Prelude.{◌≡◌};
    ghost use Rattle.frame_words.specs.Words.{is_within};

    fn is_within(&self, number: u64) -> bool
        ensures { result ≡ is_within self.now number }
    {
        self.least <= number && number <= self.greatest
    }
}

impl Setting {
    ghost use Rattle.std.specs.Prelude.{◌≡◌};
    ghost use Rattle.frame_words.specs.Words.{number_for, row_of};

    /// Its row of the table.
    pub fn row(self) -> Row
        ensures { result ≡ row_of self }
    {
        match self {
            Setting::Workers => Row {
                least: 1,
                greatest: 15,
                default: 4,
            },
            Setting::Block => Row {
                least: 1024,
                greatest: 65_536,
                default: 8192,
            },
        }
    }

    /// The number that a text gives it: 1 to 20 decimal digits, in its range.
    #[tactic(auto, unfolding(crate::specs::Words::number_for))]
    pub fn number_for(self, text: &str) -> Option<u64>
        ensures { result ≡ number_for self text.now }
    {
        let number = numeral(text)?;
        if self.row().is_within(number) {
            Some(number)
        } else {
            None
        }
    }
}

/// The option that a word names.
#[tactic(auto, unfolding(crate::specs::Words::named))]
pub fn named(word: &str) -> Option<Setting>
    ensures { result ≡ named word.now }
{
    if word == "--workers" {
        return Some(Setting::Workers);
    }
    if word == "--block" {
        return Some(Setting::Block);
    }
    None
}
