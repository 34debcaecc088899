//! What the words ask for: options one by one, then what they come to.
ghost use Rattle.std.specs.Prelude.{◌≡◌, IfSome};
ghost use Rattle.frame_words.specs.Words.{IsInRange, or_default};

use crate::settings::Setting;
use crate::words::CutOptions;

/// An option with its number.
#[derive(Clone, Copy)]
pub struct Given {
    pub setting: Setting,
    pub number: u64,
}

/// What was asked for so far.
#[derive(Clone, Copy)]
pub struct Asked {
    pub workers: Option<u64>,
    pub block: Option<u64>,
}

impl Asked {
    ghost use Rattle.std.specs.Prelude.{◌≡◌, IfSome};
    ghost use Rattle.frame_words.specs.Words.{AreOptions, AreWithin, IsWithin, asked_with, nothing, options_for};

    /// Nothing is asked for.
    pub fn nothing() -> Asked
        ensures { result ≡ nothing }
    {
        Asked {
            workers: None,
            block: None,
        }
    }

    /// With one more option; None where it was asked for before.
    #[tactic(auto, unfolding(crate::specs::Words::asked_with))]
    pub fn with(self, given: Given) -> Option<Asked>
        requires given { IsWithin given }
        requires before { AreWithin self }
        ensures value { result ≡ asked_with self given }
        ensures within { IfSome result AreWithin }
    {
        match given.setting {
            Setting::Workers if self.workers.is_none() => Some(Asked {
                workers: Some(given.number),
                ..self
            }),
            Setting::Block if self.block.is_none() => Some(Asked {
                block: Some(given.number),
                ..self
            }),
            _ => None,
        }
    }

    /// What is asked of the cutter.
    pub fn options(self) -> CutOptions
        requires { AreWithin self }
        ensures value { result ≡ options_for self }
        ensures within { AreOptions result }
    {
        CutOptions {
            workers: or_default(Setting::Workers, self.workers),
            block: or_default(Setting::Block, self.block),
        }
    }
}

// The number that is asked for, or the option's default.
fn or_default(setting: Setting, asked: Option<u64>) -> u32
    requires { IfSome asked (IsInRange setting) }
    ensures value { result ≡ or_default setting asked }
    ensures within { IsInRange setting result }
{
    asked.unwrap_or(setting.row().default) as u32
}
