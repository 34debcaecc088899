//! Sinks in memory, for tests and for callers without files.
ghost use Rattle.std.specs.Prelude.{◌≡◌, ◌-◌, ◌≤◌, ◌↔◌, [], Some, length, min, Contains, vec_capacity, IfOk, IsOk, IsErr, OnErr};
ghost use Rattle.std.specs.Io.{WritesAtMost};
ghost use Rattle.text_ends.specs.Ends.{CountsEmptyTakes, HasCause, TakesFront, next_count};
ghost use Rattle.text_ends.specs.Memory.{ListWriter, SafeWriter, after_failed_write, after_safe_write, after_write};

use crate::{Failed, Sink};
use std::alloc::{AllocError, Global};
use std::marker::Model;

/// A sink over a list with room for so many bytes, which fails at the listed calls, counted from 1.
#[derive(Drop)]
pub struct ListSink {
    got: Vec<u8>,
    room: usize,
    most: usize,
    fails: Vec<u64>,
    calls: u64,
    faults: u64,
    empty_takes: u64,
}

impl Model for ListSink {
    ghost Value = { ListWriter };

    ghost view = { λ s. record {
      got = s.got.items;
      room = s.room;
      most = s.most;
      fails = s.fails.items;
      calls = s.calls;
      faults = s.faults;
      empty_takes = s.empty_takes;
    } };

    ghost invariant = { λ s. (length s.got.items ≤ s.room)
        × (s.room ≤ vec_capacity s.got) × (1 ≤ s.most) };
}

impl ListSink {
    /// An empty sink that takes at most `most` bytes at a write. All its memory is taken here.
    pub fn new(
        alloc: Global,
        room: usize,
        most: usize,
        fails: &[u64],
    ) -> Result<ListSink, AllocError>
        requires { 1 ≤ most }
        ensures { IfOk result (λ s. s ≡ record {
          got = [];
          room = room;
          most = most;
          fails = fails.now;
          calls = 0;
          faults = 0;
          empty_takes = 0;
        }) }
    {
        let got = Vec::with_capacity(alloc, room)?;
        let fails = Vec::from_slice(alloc, fails)?;
        Ok(ListSink {
            got,
            room,
            most,
            fails,
            calls: 0,
            faults: 0,
            empty_takes: 0,
        })
    }

    /// What it got so far.
    pub fn got(&self) -> &[u8]
        ensures { result.now ≡ self.now.got }
    {
        &self.got
    }
}

impl Sink for ListSink {
    ghost got = { λ s. Some s.got };

    ghost faults = { λ s. s.faults };

    ghost empty_takes = { λ s. s.empty_takes };

    /// Takes the least of `most`, the piece's length and the room that is left. A call that fails
    /// takes nothing.
    fn write(&mut self, bytes: &[u8]) -> Result<usize, Failed>
        ensures bound { WritesAtMost result bytes.now }
        ensures bytes { TakesFront (Some self.old.got) (Some self.new.got) result bytes.now }
        ensures cause { HasCause self.old.faults self.new.faults result }
        ensures taken { CountsEmptyTakes self.old.empty_takes self.new.empty_takes
            result bytes.now }
        ensures count { IfOk result (λ n. n ≡ min self.old.most
            (min (length bytes.now) (self.old.room - length self.old.got))) }
        ensures ok { IfOk result (λ n. self.new ≡ after_write self.old n bytes.now) }
        ensures fails { IsErr result ↔ Contains self.old.fails (next_count self.old.calls) }
        ensures err { OnErr result (self.new ≡ after_failed_write self.old) }
    {
        self.calls = self.calls.saturating_add(1);
        if self.fails.contains(&self.calls) {
            self.faults = self.faults.saturating_add(1);
            return Err(Failed);
        }
        let count = self.most.min(bytes.len()).min(self.room - self.got.len());
        if count == 0 && !bytes.is_empty() {
            self.empty_takes = self.empty_takes.saturating_add(1);
        }
        self.got.extend_from_slice(&bytes[..count]).unwrap();
        Ok(count)
    }
}

/// A sink over a list with room for so many bytes, which never fails.
#[derive(Drop)]
pub struct SafeSink {
    got: Vec<u8>,
    room: usize,
    most: usize,
    empty_takes: u64,
}

impl Model for SafeSink {
    ghost Value = { SafeWriter };

    ghost view = { λ s. record {
      got = s.got.items;
      room = s.room;
      most = s.most;
      empty_takes = s.empty_takes;
    } };

    ghost invariant = { λ s. (length s.got.items ≤ s.room)
        × (s.room ≤ vec_capacity s.got) × (1 ≤ s.most) };
}

impl SafeSink {
    /// An empty sink that takes at most `most` bytes at a write. All its memory is taken here.
    pub fn new(alloc: Global, room: usize, most: usize) -> Result<SafeSink, AllocError>
        requires { 1 ≤ most }
        ensures { IfOk result (λ s. s ≡ record {
          got = [];
          room = room;
          most = most;
          empty_takes = 0;
        }) }
    {
        let got = Vec::with_capacity(alloc, room)?;
        Ok(SafeSink {
            got,
            room,
            most,
            empty_takes: 0,
        })
    }

    /// What it got so far.
    pub fn got(&self) -> &[u8]
        ensures { result.now ≡ self.now.got }
    {
        &self.got
    }
}

impl Sink for SafeSink {
    ghost got = { λ s. Some s.got };

    ghost faults = { λ s. 0 };

    ghost empty_takes = { λ s. s.empty_takes };

    /// Takes the least of `most`, the piece's length and the room that is left.
    fn write(&mut self, bytes: &[u8]) -> Result<usize, Failed>
        ensures bound { WritesAtMost result bytes.now }
        ensures bytes { TakesFront (Some self.old.got) (Some self.new.got) result bytes.now }
        ensures cause { HasCause 0 0 result }
        ensures taken { CountsEmptyTakes self.old.empty_takes self.new.empty_takes
            result bytes.now }
        ensures count { IfOk result (λ n. n ≡ min self.old.most
            (min (length bytes.now) (self.old.room - length self.old.got))) }
        ensures ok { IfOk result (λ n. self.new ≡ after_safe_write self.old n bytes.now) }
        ensures safe { IsOk result }
    {
        let count = self.most.min(bytes.len()).min(self.room - self.got.len());
        if count == 0 && !bytes.is_empty() {
            self.empty_takes = self.empty_takes.saturating_add(1);
        }
        self.got.extend_from_slice(&bytes[..count]).unwrap();
        Ok(count)
    }
}
