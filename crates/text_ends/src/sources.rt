//! Sources in memory, for tests and for callers without files.
ghost use Rattle.std.specs.Prelude.{◌≡◌, ◌+◌, ◌-◌, ◌^◌, ◌≤◌, ◌<◌, ◌↔◌, ◌++◌, ℕ, List, Some, length, min, take, drop, Contains, IfOk, IsOk, IsErr, OnErr};
ghost use Rattle.std.specs.Io.{ReadsAtMost};
ghost use Rattle.text_ends.specs.Ends.{GivesNext, HasCause, next_count};
ghost use Rattle.text_ends.specs.Memory.{ListReader, after_failed_read, after_read};

use crate::{Failed, Source};
use std::alloc::{AllocError, Global};
use std::marker::Model;

/// A source over a list, which fails at the listed calls, counted from 1.
#[derive(Drop)]
pub struct ListSource {
    bytes: Vec<u8>,
    at: usize,
    most: usize,
    fails: Vec<u64>,
    calls: u64,
    faults: u64,
}

impl Model for ListSource {
    ghost Value = { ListReader };

    ghost view = { λ s. record {
      left = drop s.at s.bytes.items;
      most = s.most;
      fails = s.fails.items;
      calls = s.calls;
      faults = s.faults;
    } };

    ghost invariant = { λ s. (s.at ≤ length s.bytes.items) × (1 ≤ s.most) };
}

impl ListSource {
    /// A source of these bytes that gives at most `most` of them at a read.
    pub fn new(
        alloc: Global,
        bytes: &[u8],
        most: usize,
        fails: &[u64],
    ) -> Result<ListSource, AllocError>
        requires { 1 ≤ most }
        ensures { IfOk result (λ s. s ≡ record {
          left = bytes.now;
          most = most;
          fails = fails.now;
          calls = 0;
          faults = 0;
        }) }
    {
        let bytes = Vec::from_slice(alloc, bytes)?;
        let fails = Vec::from_slice(alloc, fails)?;
        Ok(ListSource {
            bytes,
            at: 0,
            most,
            fails,
            calls: 0,
            faults: 0,
        })
    }
}

impl Source for ListSource {
    ghost left = { λ s. Some s.left };

    ghost faults = { λ s. s.faults };

    /// Gives the least of `most`, the buffer's length and what is left. A call that fails gives
    /// nothing and leaves the bytes as they were.
    #[tactic(auto, using(crate::proofs::Bytes::nothing_left))]
    fn read(&mut self, buf: &mut [u8]) -> Result<usize, Failed>
        ensures bound { ReadsAtMost result buf.new }
        ensures bytes { GivesNext (Some self.old.left) (Some self.new.left) result buf.new }
        ensures cause { HasCause self.old.faults self.new.faults result }
        ensures count { IfOk result (λ n. n ≡ min self.old.most
            (min (length buf.old) (length self.old.left))) }
        ensures ok { IfOk result (λ n. self.new ≡ after_read self.old n) }
        ensures fails { IsErr result ↔ Contains self.old.fails (next_count self.old.calls) }
        ensures err { OnErr result (self.new ≡ after_failed_read self.old) }
    {
        self.calls = self.calls.saturating_add(1);
        if self.fails.contains(&self.calls) {
            self.faults = self.faults.saturating_add(1);
            return Err(Failed);
        }
        let count = self.most.min(buf.len()).min(self.bytes.len() - self.at);
        hand_out(&self.bytes, self.at, count, buf);
        self.at += count;
        Ok(count)
    }
}

/// A source over a list, which never fails.
#[derive(Drop)]
pub struct SafeSource {
    bytes: Vec<u8>,
    at: usize,
}

impl Model for SafeSource {
    ghost Value = { List ℕ };

    ghost view = { λ s. drop s.at s.bytes.items };

    ghost invariant = { λ s. s.at ≤ length s.bytes.items };
}

impl SafeSource {
    /// A source of these bytes.
    pub fn new(alloc: Global, bytes: &[u8]) -> Result<SafeSource, AllocError>
        ensures { IfOk result (λ s. s ≡ bytes.now) }
    {
        let bytes = Vec::from_slice(alloc, bytes)?;
        Ok(SafeSource { bytes, at: 0 })
    }
}

impl Source for SafeSource {
    ghost left = { λ s. Some s };

    ghost faults = { λ s. 0 };

    /// Gives the least of the buffer's length and what is left.
    #[tactic(auto, using(crate::proofs::Bytes::nothing_left))]
    fn read(&mut self, buf: &mut [u8]) -> Result<usize, Failed>
        ensures bound { ReadsAtMost result buf.new }
        ensures bytes { GivesNext (Some self.old) (Some self.new) result buf.new }
        ensures cause { HasCause 0 0 result }
        ensures count { IfOk result (λ n. n ≡ min (length buf.old) (length self.old)) }
        ensures safe { IsOk result }
    {
        let count = buf.len().min(self.bytes.len() - self.at);
        hand_out(&self.bytes, self.at, count, buf);
        self.at += count;
        Ok(count)
    }
}

// Copies the next bytes to the front of the buffer.
fn hand_out(bytes: &[u8], at: usize, count: usize, buf: &mut [u8])
    requires inside { at + count ≤ length bytes.now }
    requires room { count ≤ length buf.old }
    ensures { drop at bytes.now ≡ take count buf.new ++ drop (at + count) bytes.now }
{
    buf[..count].copy_from_slice(&bytes[at..at + count]);
}
