//! What a thread counts, and what it has left.

ghost use Rattle.std.specs.Prelude.{◌≡◌, MatchResult, OnOk, None, Some, slice_get};
ghost use Rattle.pool_member.specs.Refusals.{accept_no, is_next, MayAccept};

use crate::answers::AcceptNo;
use crate::counts::OwnCounts;
use pool_table::Letter;

/// What a thread counts, what it has left for its calls, and which parcels it accepted.
#[derive(Drop)]
pub struct Account {
    /// The number of the thread.
    pub lane: u32,
    /// It has so many turns left.
    pub turns: u64,
    /// And so many moves.
    pub moves: u32,
    /// How often it counts each root, and what it was told of its capacity.
    pub counts: OwnCounts,
    /// By thread, how many parcels it accepted from there.
    pub received: Vec<u64>,
}

impl Account {
    /// Whether a parcel with this letter may be accepted.
    pub fn may_accept(&self, letter: &Letter) -> Result<(), AcceptNo>
        ensures answers { MatchResult result
            (λ _. accept_no self.now letter.now ≡ None)
            (λ no. accept_no self.now letter.now ≡ Some no) }
        ensures ok { OnOk result (MayAccept self.now letter.now) }
    {
        if self.lane != letter.to {
            return Err(AcceptNo::NotHere);
        }
        if !self.is_next(letter.from, letter.number) {
            return Err(AcceptNo::OutOfOrder);
        }
        if self.turns < 1 {
            return Err(AcceptNo::Spent);
        }
        Ok(())
    }

    // Whether the thread accepts a letter of this number next from another.
    fn is_next(&self, from: u32, number: u64) -> bool
        ensures { result ≡ is_next (slice_get self.now.received.items «from») number }
    {
        match self.received.get(from as usize) {
            Some(accepted) => number > 0 && number - 1 == *accepted,
            None => false,
        }
    }
}
