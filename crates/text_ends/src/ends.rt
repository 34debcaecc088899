//! The ends of the program: where a trace is read from, and where a text is written to.
//! An end may tell its bytes or not; what is said of bytes holds where they are told.
ghost use Rattle.std.specs.Prelude.{ℕ, List};
ghost use Rattle.std.specs.declared.option.Option.{Option};
ghost use Rattle.std.specs.Io.{ReadsAtMost, WritesAtMost};
ghost use Rattle.text_ends.specs.Ends.{CountsEmptyTakes, GivesNext, HasCause, TakesFront};

/// A read or a write that failed.
#[derive(Clone, Copy, Debug, PartialEq, Eq)]
pub struct Failed;

/// Where bytes come from.
pub trait Source {
    /// The bytes that are left, where the source tells them.
    ghost left: { Self → Option (List ℕ) };
    /// How often a read has failed, up to the greatest `u64`.
    ghost faults: { Self → ℕ };

    /// Puts the next bytes at the front of the buffer, and answers how many.
    /// In a buffer that isn't empty it answers 0 exactly where nothing is left.
    /// `Failed` comes only where the count of faults has risen.
    fn read(&mut self, buf: &mut [u8]) -> Result<usize, Failed>
        ensures bound { ReadsAtMost result buf.new }
        ensures bytes { GivesNext (left self.old) (left self.new) result buf.new }
        ensures cause { HasCause (faults self.old) (faults self.new) result };
}

/// Where bytes go.
pub trait Sink {
    /// The bytes that the sink got, where it tells them.
    ghost got: { Self → Option (List ℕ) };
    /// How often a write has failed, up to the greatest `u64`.
    ghost faults: { Self → ℕ };
    /// How often nothing was taken of a piece that isn't empty, up to the greatest `u64`.
    ghost empty_takes: { Self → ℕ };

    /// Takes bytes from the front of the piece, and answers how many.
    /// `Failed` comes only where the count of faults has risen; then some front was taken.
    fn write(&mut self, bytes: &[u8]) -> Result<usize, Failed>
        ensures bound { WritesAtMost result bytes.now }
        ensures bytes { TakesFront (got self.old) (got self.new) result bytes.now }
        ensures cause { HasCause (faults self.old) (faults self.new) result }
        ensures taken { CountsEmptyTakes (empty_takes self.old) (empty_takes self.new)
            result bytes.now };
}
