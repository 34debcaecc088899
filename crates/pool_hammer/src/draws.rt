//! What a thread draws at random.

ghost use Rattle.std.specs.Prelude.{◌+◌, ◌≤◌};

use rand_core::Rng;
use rand_pcg::Pcg32;

/// How many bytes are drawn at once.
pub const SPAN: usize = 64;

/// The draws of one thread.
#[derive(Drop)]
pub struct Draws(Pcg32);

impl Draws {
    /// Those of this thread, of all that begin with one number.
    pub fn of(start: u64, thread: u32) -> Draws {
        Draws(Pcg32::new(start, thread as u64))
    }

    /// A number from 0 up to and with the greatest.
    pub fn up_to(&mut self, greatest: u32) -> u32
        ensures { result ≤ greatest }
    {
        (self.0.next_u32() as u64 % (greatest as u64 + 1)) as u32
    }

    /// True half of the times.
    pub fn flips(&mut self) -> bool {
        self.up_to(1) == 1
    }

    /// Bytes.
    pub fn bytes(&mut self) -> [u8; SPAN] {
        let mut bytes = [0u8; SPAN];
        self.0.fill_bytes(&mut bytes);
        bytes
    }

    /// Some of so many places: where they begin, and how many they are, at most a span.
    pub fn range(&mut self, len: u32) -> (u32, u32)
        ensures within { result.0 + result.1 ≤ len }
        ensures few { result.1 ≤ SPAN }
    {
        let many = self.up_to(len.min(SPAN as u32));
        let start = self.up_to(len - many);
        (start, many)
    }
}
