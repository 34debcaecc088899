//! Which calls on a buffer its thread lets in.

ghost use Rattle.std.specs.Prelude.{◌≡◌, ◌≤◌, true, MatchResult, OnOk, None, Some};
ghost use Rattle.pool_member.specs.Refusals.{call_no, is_here, IsHere, part_no};

use crate::buffer::Buffer;
use crate::name::PoolName;
use pool_member::{AccessNo, Account};

impl<B: PoolName> Buffer<B> {
    /// Whether it is the buffer of the thread with this account, which counts its root and knows of
    /// as much capacity as it reaches.
    #[inline(always)]
    pub(crate) fn is_here(&self, account: &Account) -> bool
        ensures { result ≡ is_here account.now self.now }
    {
        let root = self.view.at.root;
        let end = self.view.at.offset + self.view.at.len;
        account.lane == self.thread && account.counts.reaches(root, end)
    }

    /// Whether a call on it may take so many turns.
    pub(crate) fn may(&self, account: &Account, turns: u64) -> Result<(), AccessNo>
        ensures answers { MatchResult result
            (λ _. call_no account.now self.now turns ≡ None)
            (λ no. call_no account.now self.now turns ≡ Some no) }
        ensures ok { OnOk result (IsHere account.now self.now × (turns ≤ account.now.turns)) }
    {
        if !self.is_here(account) {
            return Err(AccessNo::NotHere);
        }
        if account.turns < turns {
            return Err(AccessNo::Spent);
        }
        Ok(())
    }

    /// Whether a call on a part of it may take a turn and so many moves, where the part lies within
    /// its bounds or doesn't.
    pub(crate) fn may_part(
        &self,
        account: &Account,
        inside: bool,
        moves: u32,
    ) -> Result<(), AccessNo>
        ensures answers { MatchResult result
            (λ _. part_no account.now self.now inside 1 moves ≡ None)
            (λ no. part_no account.now self.now inside 1 moves ≡ Some no) }
        ensures ok { OnOk result (IsHere account.now self.now × (inside ≡ true)
            × (1 ≤ account.now.turns) × (moves ≤ account.now.moves)) }
    {
        self.may(account, 0)?;
        if !inside {
            return Err(AccessNo::Range);
        }
        if account.turns < 1 || account.moves < moves {
            return Err(AccessNo::Spent);
        }
        Ok(())
    }
}
