//! What the words ask for: options one by one, then what they come to.
ghost use Rattle.std.specs.Prelude.{◌≡◌, ◌≤◌, IfSome};

use crate::pools::or_default;
use crate::settings::Setting;
use crate::words::{Generation, Origin, RunOptions};
use pool_law::{Level, Options};

// The commands of a block of a generated trace, of which each lane has one at least.
const BLOCK_LEN: u32 = 8;

/// An option as it is given.
#[derive(Clone, Copy)]
pub enum Given {
    /// An option with its number.
    Number { setting: Setting, number: u64 },
    /// How leaks are sampled.
    Level(Level),
    /// The text has the notes of all lanes.
    History,
}

/// What was asked for so far.
#[derive(Clone, Copy)]
pub struct Asked {
    pub order: Option<u64>,
    pub arenas: Option<u64>,
    pub chunks: Option<u64>,
    pub handles: Option<u64>,
    pub workers: Option<u64>,
    pub interval: Option<u64>,
    pub generate: Option<u64>,
    pub lanes: Option<u64>,
    pub commands: Option<u64>,
    pub level: Option<Level>,
    pub history: bool,
}

impl Asked {
    ghost use Rattle.std.specs.Prelude.{◌≡◌, IfSome};
    ghost use Rattle.trace_text.specs.Options.{AreOptions};
    ghost use Rattle.run_words.specs.Words.{AreWithin, IsInRange, IsWithin, asked_with, generated_from, is_for_generated, is_for_source, nothing, options_for, origin_for, pool_asked, with_number};

    /// Nothing is asked for.
    pub fn nothing() -> Asked
        ensures { result ≡ nothing }
    {
        Asked {
            order: None,
            arenas: None,
            chunks: None,
            handles: None,
            workers: None,
            interval: None,
            generate: None,
            lanes: None,
            commands: None,
            level: None,
            history: false,
        }
    }

    /// With one more option; None where it was asked for before.
    #[tactic(auto, unfolding(crate::specs::Words::asked_with))]
    pub fn with(self, given: Given) -> Option<Asked>
        requires given { IsWithin given }
        requires before { AreWithin self }
        ensures value { result ≡ asked_with self given }
        ensures within { IfSome result AreWithin }
    {
        match given {
            Given::Number { setting, number } => self.with_number(setting, number),
            Given::Level(level) if self.level.is_none() => Some(Asked {
                level: Some(level),
                ..self
            }),
            Given::History if !self.history => Some(Asked {
                history: true,
                ..self
            }),
            Given::Level(_) | Given::History => None,
        }
    }

    #[tactic(auto, unfolding(crate::specs::Words::with_number))]
    fn with_number(self, setting: Setting, number: u64) -> Option<Asked>
        requires range { IsInRange setting number }
        requires before { AreWithin self }
        ensures value { result ≡ with_number self setting number }
        ensures within { IfSome result AreWithin }
    {
        match setting {
            Setting::Order if self.order.is_none() => Some(Asked {
                order: Some(number),
                ..self
            }),
            Setting::Arenas if self.arenas.is_none() => Some(Asked {
                arenas: Some(number),
                ..self
            }),
            Setting::Chunks if self.chunks.is_none() => Some(Asked {
                chunks: Some(number),
                ..self
            }),
            Setting::Handles if self.handles.is_none() => Some(Asked {
                handles: Some(number),
                ..self
            }),
            Setting::Workers if self.workers.is_none() => Some(Asked {
                workers: Some(number),
                ..self
            }),
            Setting::Interval if self.interval.is_none() => Some(Asked {
                interval: Some(number),
                ..self
            }),
            Setting::Generate if self.generate.is_none() => Some(Asked {
                generate: Some(number),
                ..self
            }),
            Setting::Lanes if self.lanes.is_none() => Some(Asked {
                lanes: Some(number),
                ..self
            }),
            Setting::Commands if self.commands.is_none() => Some(Asked {
                commands: Some(number),
                ..self
            }),
            _ => None,
        }
    }

    /// What is asked of the run; None where two options have no form together.
    pub fn options(self) -> Option<RunOptions>
        requires { AreWithin self }
        ensures value { result ≡ options_for self }
        ensures within { IfSome result (λ options. AreOptions options.pool) }
    {
        let origin = self.origin()?;
        Some(RunOptions {
            origin,
            pool: self.pool_asked(),
            workers: or_default(Setting::Workers, narrowed(self.workers)),
            history: self.history,
        })
    }

    // What is asked of the pool; no word speaks of the page.
    fn pool_asked(self) -> Options
        requires { AreWithin self }
        ensures value { result ≡ pool_asked self }
        ensures within { AreOptions result }
    {
        Options {
            page: None,
            order: narrowed(self.order),
            arenas: narrowed(self.arenas),
            chunks: narrowed(self.chunks),
            handles: narrowed(self.handles),
            level: self.level,
            interval: narrowed(self.interval),
        }
    }

    // Where the trace comes from; None where two options have no form together.
    fn origin(self) -> Option<Origin>
        requires { AreWithin self }
        ensures { result ≡ origin_for self }
    {
        match self.generate {
            Some(start) => self.generated_from(start),
            None if self.is_for_source() => Some(Origin::Source),
            None => None,
        }
    }

    // The trace is generated from this start, where all else that is asked for has a form beside it.
    fn generated_from(self, start: u64) -> Option<Origin>
        requires { AreWithin self }
        ensures { result ≡ generated_from self start }
    {
        let generation = Generation {
            start,
            lanes: or_default(Setting::Lanes, narrowed(self.lanes)),
            commands: or_default(Setting::Commands, narrowed(self.commands)),
        };
        if self.is_for_generated() && BLOCK_LEN * generation.lanes <= generation.commands {
            Some(Origin::Generated(generation))
        } else {
            None
        }
    }

    // Whether nothing is asked for that speaks of a generated trace alone.
    fn is_for_source(self) -> bool
        ensures { result ≡ is_for_source self }
    {
        self.lanes.is_none() && self.commands.is_none()
    }

    // Whether nothing is asked for that has no form beside a generated trace.
    fn is_for_generated(self) -> bool
        ensures { result ≡ is_for_generated self }
    {
        self.order.is_none()
            && self.arenas.is_none()
            && self.chunks.is_none()
            && self.handles.is_none()
            && !self.history
    }
}

// The number that is asked for, in fewer bits.
fn narrowed(asked: Option<u64>) -> Option<u32>
    requires { IfSome asked (λ n. n ≤ 65536) }
    ensures { result ≡ asked }
{
    asked.map(|number| number as u32)
}
