//! The options of the command line, as a table.
ghost use Rattle.std.specs.Prelude.{◌≡◌};
ghost use Rattle.run_words.specs.Settings.{named, number_for, row_of};

use option_words::numeral;
use std::marker::Model;

/// An option of the command line that has a number.
#[derive(Clone, Copy, Debug, PartialEq, Eq)]
pub enum Setting {
    /// A chunk has `2^order` pages.
    Order,
    /// The arenas of the pool.
    Arenas,
    /// The most chunks of an arena.
    Chunks,
    /// The buffers that a lane may hold at a time.
    Handles,
    /// The threads that step the lanes.
    Workers,
    /// One root in so many is sampled.
    Interval,
    /// The trace is generated from this number.
    Generate,
    /// The lanes of a generated trace.
    Lanes,
    /// The commands that the blocks of a generated trace may have.
    Commands,
}

/// All options with a number, in the order of the table.
const SETTINGS: [Setting; 9] = [
    Setting::Order,
    Setting::Arenas,
    Setting::Chunks,
    Setting::Handles,
    Setting::Workers,
    Setting::Interval,
    Setting::Generate,
    Setting::Lanes,
    Setting::Commands,
];

/// A row of the table: the word of an option, its range, and its number where it isn't given.
#[derive(Drop)]
pub struct Row {
    name: &'static str,
    least: u64,
    greatest: u64,
    default: u64,
}

impl Model for Row {
    ghost use Rattle.run_words.specs.Settings.{RowData};

    ghost Value = { RowData };

    ghost view = { λ r. record {
      name = r.name.now;
      least = r.least;
      greatest = r.greatest;
      default = r.default;
    } };
}

impl Row {
    ghost use Rattle.std.specs.Prelude.{◌≡◌};
    ghost use Rattle.run_words.specs.Settings.{is_within, row};

    fn of(name: &'static str, least: u64, greatest: u64, default: u64) -> Row
        ensures { result ≡ row name.now least greatest default }
    {
        Row {
            name,
            least,
            greatest,
            default,
        }
    }

    fn name(&self) -> &'static str
        ensures { result.now ≡ self.now.name }
    {
        self.name
    }

    /// The number of an option that isn't given.
    pub fn default(&self) -> u64
        ensures { result ≡ self.now.default }
    {
        self.default
    }

    fn is_within(&self, number: u64) -> bool
        ensures { result ≡ is_within self.now number }
    {
        self.least <= number && number <= self.greatest
    }
}

impl Setting {
    ghost use Rattle.std.specs.Prelude.{◌≡◌};
    ghost use Rattle.run_words.specs.Settings.{number_for, row_of};

    /// Its row of the table.
    pub fn row(self) -> Row
        ensures { result ≡ row_of self }
    {
        match self {
            Setting::Order => Row::of("--order", 3, 11, 9),
            Setting::Arenas => Row::of("--arenas", 1, 8, 2),
            Setting::Chunks => Row::of("--chunks", 1, 8, 4),
            Setting::Handles => Row::of("--handles", 1, 4096, 1024),
            Setting::Workers => Row::of("--workers", 1, 16, 4),
            Setting::Interval => Row::of("--interval", 1, 65_536, 128),
            // Without the word nothing is generated, so this default is never used.
            Setting::Generate => Row::of("--generate", 0, 18_446_744_073_709_551_615, 0),
            Setting::Lanes => Row::of("--lanes", 1, 16, 4),
            Setting::Commands => Row::of("--commands", 8, 65_536, 65_536),
        }
    }

    /// The number that a text gives it: 1 to 20 decimal digits, in its range.
    #[tactic(auto, unfolding(crate::specs::Settings::number_for))]
    pub fn number_for(self, text: &str) -> Option<u64>
        ensures { result ≡ number_for self text.now }
    {
        let number = numeral(text)?;
        if self.row().is_within(number) {
            Some(number)
        } else {
            None
        }
    }
}

/// The option with a number that a word names.
#[tactic(auto, unfolding(crate::specs::Settings::named))]
pub fn named(word: &str) -> Option<Setting>
    ensures { result ≡ named word.now }
{
    SETTINGS
        .iter()
        .copied()
        .find(|setting| setting.row().name() == word)
}
