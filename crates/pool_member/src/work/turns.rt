//! How a thread takes the turns of a call.

ghost use Rattle.std.specs.Prelude.{◌≡◌, ◌+◌, ◌<◌, ◌≤◌, ◌^◌, ◌%◌, MatchBool};
ghost use Rattle.pool_member.specs.Threads.{less_turns, with_turns};

use crate::member::Member;

/// Takes so many turns, or tells that the thread lacks them. Test and taking are one step of the
/// machine, since what the thread had is needed by neither way that follows.
#[inline(always)]
pub fn lacks(member: &mut Member, turns: u64) -> bool
    ensures { MatchBool result
        ((member.old.account.turns < turns) × (member.new ≡ member.old))
        ((turns ≤ member.old.account.turns) × (member.new ≡ less_turns turns member.old)) }
{
    let had = member.account.turns;
    member.account.turns = had.wrapping_sub(turns);
    if had < turns {
        give_back(member, turns);
        return true;
    }
    false
}

/// Turns that were taken come back. It goes by the whole thread, whose address is at hand.
#[inline(never)]
pub fn give_back(member: &mut Member, turns: u64)
    ensures wraps { member.new ≡ record member.old {
      account = record member.old.account {
        turns = (member.old.account.turns + turns) % 2 ^ 64;
      };
    } }
    ensures small { member.old.account.turns + turns < 2 ^ 64 →
        member.new ≡ with_turns turns member.old }
{
    member.account.turns = member.account.turns.wrapping_add(turns);
}
