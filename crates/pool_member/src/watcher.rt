//! Which allocations of a thread are watched.

ghost use Rattle.std.specs.Prelude.{◌≡◌, ◌-◌, ◌<◌, ◌≤◌, ◌^◌, true, None};
ghost use Rattle.pool_law.specs.Leaks.{is_sampled, keeps_records};
ghost use Rattle.pool_law.specs.declared.run.Level.TheVariants.{Paranoid};
ghost use Rattle.leak_records.specs.Records.{new_sampler};

use leak_records::Sampler;
use pool_law::{Level, Shape, Watch};
use std::marker::Model;

/// Tells which of a thread's allocations are watched, of the first 2^32 - 1 that are made. A
/// contract sees the thread's number, how its births are sampled, and how many are counted.
#[derive(Drop)]
pub struct Watcher {
    lane: u32,
    level: Level,
    interval: u32,
    births: u32,
    // None of the births behind these is sampled, up to this one.
    until: u32,
}

impl Model for Watcher {
    ghost use Rattle.std.specs.Prelude.{◌≤◌};
    ghost use Rattle.leak_records.specs.Records.{Sampling};
    ghost use Rattle.pool_member.specs.Watching.{Skips};

    ghost Value = { Sampling };

    ghost view = { λ w.
        record { lane = w.lane; level = w.level; interval = w.interval; births = w.births } };

    ghost invariant = { λ w. (1 ≤ w.interval) × Skips w.level w.interval w.births w.until };
}

impl Watcher {
    ghost use Rattle.pool_member.specs.Watching.{watch_next, with_next};

    /// That of a thread that allocated nothing yet.
    pub(crate) fn new(lane: u32, shape: &Shape) -> Watcher
        requires { 1 ≤ shape.now.interval }
        ensures { result ≡ new_sampler lane shape.now.level shape.now.interval }
    {
        let until = match shape.level {
            Level::Disabled => u32::MAX,
            Level::Simple | Level::Advanced | Level::Paranoid => 0,
        };
        Watcher {
            lane,
            level: shape.level,
            interval: shape.interval,
            births: 0,
            until,
        }
    }

    /// Whether it is known at once that the thread's next birth is not sampled.
    #[inline(always)]
    pub(crate) fn is_quiet(&self) -> bool
        ensures next { result ≡ true → watch_next self.now ≡ None }
        ensures counts { result ≡ true → self.now.births < 2 ^ 32 - 1 }
    {
        self.births < self.until
    }

    /// Counts a birth that is not sampled.
    #[inline(always)]
    pub(crate) fn count_quiet(&mut self)
        requires { self.old.births < 2 ^ 32 - 1 }
        ensures { self.new ≡ with_next self.old }
    {
        self.births += 1;
    }

    /// The watch of the thread's next birth, just where it is sampled.
    #[inline(always)]
    pub(crate) fn watch(&self) -> Option<Watch>
        ensures { result ≡ watch_next self.now }
    {
        if self.births < self.until {
            return None;
        }
        self.draw()
    }

    // The same, where the next birth may be sampled. Here the place for the answer of the call is
    // made, and not at the head of each allocation.
    #[inline(always)]
    fn draw(&self) -> Option<Watch>
        ensures { result ≡ watch_next self.now }
    {
        self.draw_apart()
    }

    // The same: seldom, so apart.
    #[inline(never)]
    fn draw_apart(&self) -> Option<Watch>
        ensures { result ≡ watch_next self.now }
    {
        if self.births == u32::MAX {
            return None;
        }
        let serial = self.births + 1;
        if !self.samples(serial) {
            return None;
        }
        Some(Watch {
            lane: self.lane,
            serial,
            keeps: self.keeps(),
        })
    }

    /// Counts a birth.
    #[inline(always)]
    pub(crate) fn count(&mut self)
        ensures { self.new ≡ with_next self.old }
    {
        if self.births < self.until {
            self.births += 1;
        } else {
            self.count_sampled();
        }
    }

    // The same of a birth that may be sampled.
    #[inline(never)]
    fn count_sampled(&mut self)
        ensures { self.new ≡ with_next self.old }
    {
        if self.births == u32::MAX {
            return;
        }
        self.births += 1;
        if self.samples(self.births) {
            self.until = self.births.saturating_add(self.gap());
        }
    }

    // Whether the birth of this serial is sampled.
    fn samples(&self, serial: u32) -> bool
        requires { 1 ≤ serial }
        ensures { result ≡ is_sampled self.now.level self.now.interval serial }
    {
        Sampler::new(self.lane, self.level, self.interval).sampled(serial)
    }

    // How many births behind one that is sampled are not.
    fn gap(&self) -> u32
        ensures less { result < self.now.interval }
        ensures none { self.now.level ≡ Paranoid → result ≡ 0 }
    {
        match self.level {
            Level::Disabled | Level::Simple | Level::Advanced => self.interval - 1,
            Level::Paranoid => 0,
        }
    }

    // Whether accesses to a root that is watched are recorded.
    fn keeps(&self) -> bool
        ensures { result ≡ keeps_records self.now.level }
    {
        match self.level {
            Level::Disabled | Level::Simple => false,
            Level::Advanced | Level::Paranoid => true,
        }
    }
}
