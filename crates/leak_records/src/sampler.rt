//! The births of a lane, counted, and which of them are sampled.

ghost use Rattle.std.specs.Prelude.{◌≡◌, ◌-◌, ◌<◌, ◌≤◌, ◌^◌};
ghost use Rattle.pool_law.specs.Leaks.{is_sampled, keeps_records};

use pool_law::{Level, Watch};
use std::marker::Model;

/// Counts a lane's births, and tells which of them are watched (Netty: `ResourceLeakDetector`).
#[derive(Debug, Drop)]
pub struct Sampler {
    lane: u32,
    level: Level,
    interval: u32,
    births: u32,
}

impl Model for Sampler {
    ghost use Rattle.std.specs.Prelude.{◌≤◌};
    ghost use Rattle.leak_records.specs.Records.{Sampling};

    ghost Value = { Sampling };

    ghost view = { λ s.
        record { lane = s.lane; level = s.level; interval = s.interval; births = s.births } };

    ghost invariant = { λ s. 1 ≤ s.interval };
}

impl Sampler {
    ghost use Rattle.leak_records.specs.Records.{new_sampler, with_birth, watch_of};

    /// The sampler of a lane that had no birth. Where it goes by the interval, it samples the first
    /// of each `interval` births.
    pub fn new(lane: u32, level: Level, interval: u32) -> Sampler
        requires { 1 ≤ interval }
        ensures { result ≡ new_sampler lane level interval }
    {
        Sampler {
            lane,
            level,
            interval,
            births: 0,
        }
    }

    /// Whether the birth with this serial is sampled. The first birth of the lane has serial 1.
    pub fn sampled(&self, serial: u32) -> bool
        requires { 1 ≤ serial }
        ensures { result ≡ is_sampled self.now.level self.now.interval serial }
    {
        match self.level {
            Level::Disabled => false,
            Level::Simple => (serial - 1) % self.interval == 0,
            Level::Advanced => (serial - 1) % self.interval == 0,
            Level::Paranoid => true,
        }
    }

    /// Counts a birth. The watch comes exactly where the birth is sampled.
    pub fn next(&mut self) -> Option<Watch>
        requires { self.old.births < 2 ^ 32 - 1 }
        ensures births { self.new ≡ with_birth self.old }
        ensures watch { result ≡ watch_of self.new }
    {
        let serial = self.births + 1;
        self.births = serial;
        if !self.sampled(serial) {
            return None;
        }
        Some(Watch {
            lane: self.lane,
            serial,
            keeps: keeps(self.level),
        })
    }
}

// Whether accesses are kept at this level.
fn keeps(level: Level) -> bool
    ensures { result ≡ keeps_records level }
{
    match level {
        Level::Disabled => false,
        Level::Simple => false,
        Level::Advanced => true,
        Level::Paranoid => true,
    }
}
