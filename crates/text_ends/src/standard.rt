//! The real ends, the program's trusted edge. They tell nothing of content.
ghost use Rattle.std.specs.Prelude.{◌≡◌, ◌≤◌, None, IsErr};
ghost use Rattle.text_ends.specs.Ends.{Rose};

use crate::{Failed, Sink, Source};
use std::io::{Read, Write};
use std::marker::Model;

/// A source over any reader.
#[derive(Drop)]
pub struct StdSource<R: Read> {
    inner: R,
    faults: u64,
}

impl<R: Read> Model for StdSource<R> {
    ghost use Rattle.text_ends.specs.Standard.{StdReader};

    ghost Value = { StdReader };

    ghost view = { λ s. record { faults = s.faults } };
}

impl<R: Read> StdSource<R> {
    /// A source over this reader, with no fault so far.
    pub fn new(inner: R) -> StdSource<R>
        ensures { result ≡ record { faults = 0 } }
    {
        StdSource { inner, faults: 0 }
    }
}

impl<R: Read> Source for StdSource<R> {
    ghost left = { λ s. None };

    ghost faults = { λ s. s.faults };

    fn read(&mut self, buf: &mut [u8]) -> Result<usize, Failed> {
        match self.inner.read(buf) {
            Ok(count) => Ok(count),
            Err(_) => {
                self.faults = self.faults.saturating_add(1);
                Err(Failed)
            }
        }
    }
}

/// A sink over any writer. Each write is flushed, and a flush that fails is a fault.
#[derive(Drop)]
pub struct StdSink<W: Write> {
    inner: W,
    faults: u64,
    empty_takes: u64,
}

impl<W: Write> Model for StdSink<W> {
    ghost use Rattle.text_ends.specs.Standard.{StdWriter};

    ghost Value = { StdWriter };

    ghost view = { λ s. record { faults = s.faults; empty_takes = s.empty_takes } };
}

impl<W: Write> StdSink<W> {
    /// A sink over this writer, with no fault and no empty take so far.
    pub fn new(inner: W) -> StdSink<W>
        ensures { result ≡ record { faults = 0; empty_takes = 0 } }
    {
        StdSink {
            inner,
            faults: 0,
            empty_takes: 0,
        }
    }

    // Counts a fault, and answers it.
    fn fault(&mut self) -> Result<usize, Failed>
        ensures err { IsErr result }
        ensures rose { Rose self.old.faults self.new.faults }
        ensures later { self.old.faults ≤ self.new.faults }
        ensures same { self.new.empty_takes ≡ self.old.empty_takes }
    {
        self.faults = self.faults.saturating_add(1);
        Err(Failed)
    }
}

impl<W: Write> Sink for StdSink<W> {
    ghost got = { λ s. None };

    ghost faults = { λ s. s.faults };

    ghost empty_takes = { λ s. s.empty_takes };

    fn write(&mut self, bytes: &[u8]) -> Result<usize, Failed> {
        let Ok(count) = self.inner.write(bytes) else {
            return self.fault();
        };
        if self.inner.flush().is_err() {
            return self.fault();
        }
        if count == 0 && !bytes.is_empty() {
            self.empty_takes = self.empty_takes.saturating_add(1);
        }
        Ok(count)
    }
}
