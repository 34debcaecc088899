//! The numbers that are drawn from a start, one after the other.
ghost use Rattle.std.specs.Prelude.{◌≡◌, ◌/◌};
ghost use Rattle.trace_make.specs.Draws.{first_state, next_state};

use std::marker::Model;

/// The states are below this.
const MODULUS: u64 = 1 << 31;

const MULTIPLIER: u64 = 1_103_515_245;

const INCREMENT: u64 = 12_345;

/// What is drawn is the state without its low byte, which comes round too soon.
const DIVISOR: u64 = 256;

/// Numbers as they are drawn by a linear congruence. Contracts see its state.
#[derive(Drop)]
pub struct Draws {
    state: u64,
}

impl Model for Draws {
    ghost use Rattle.std.specs.Prelude.{ℕ, ◌<◌, ◌^◌};

    ghost Value = { ℕ };

    ghost view = { λ d. d.state };

    ghost invariant = { λ d. d.state < 2 ^ 31 };
}

impl Draws {
    /// The draws of this start.
    pub fn from_start(start: u64) -> Draws
        ensures { result ≡ first_state start }
    {
        Draws {
            state: start % MODULUS,
        }
    }

    /// Draws the next number.
    #[tactic(auto, unfolding(crate::specs::Draws::next_state))]
    pub fn draw(&mut self) -> u64
        ensures state { self.new ≡ next_state self.old }
        ensures value { result ≡ self.new / 256 }
    {
        self.state = (self.state * MULTIPLIER + INCREMENT) % MODULUS;
        self.state / DIVISOR
    }
}
