//! How a thread parts with a root, by a letter, and accepts one.

ghost use Rattle.std.specs.Prelude.{◌≡◌, ◌<◌, ◌≤◌, [], ◌∷◌, None, Some};
ghost use Rattle.pool_law.specs.Views.{IsView, LiesIn};
ghost use Rattle.pool_table.specs.Letters.{next_letter};
ghost use Rattle.shared_pool.specs.SeatViews.{view_of};
ghost use Rattle.seat_work.specs.Changes.{no_change, once_more};
ghost use Rattle.pool_member.specs.Counting.{counted, known};
ghost use Rattle.pool_member.specs.Refusals.{MayAccept};
ghost use Rattle.pool_member.specs.Threads.{Does, HasOwnChannels, IsThread};
ghost use Rattle.pool_member.specs.Windows.{IsParcelOf};

use crate::member::Member;
use pool_law::{Parcel, ViewData};
use shared_pool::{Posted, SharedPool};

/// A view becomes a letter to a thread, and the thread then counts its root once less.
pub fn part(pool: &SharedPool, member: &mut Member, to: u32, at: ViewData) -> Posted
    requires thread { IsThread pool.now member.old }
    requires own { HasOwnChannels pool.now }
    requires to { to < pool.now.table.layout.shape.lanes }
    requires counts { 0 < counted member.old.account.counts at.root }
    requires reaches { LiesIn (known member.old.account.counts at.root) at }
    requires turns { 1 ≤ member.old.account.turns }
    requires view { IsView at }
    ensures does { Does pool.now 1 (record no_change { gone = at.root ∷ [] }) (Some at.root)
        member.old member.new }
    ensures moves { member.new.account.moves ≡ member.old.account.moves }
    ensures parcel { IsParcelOf pool.now result }
    ensures letter { result.letter
        ≡ next_letter to (record { view = Some at }) (view_of member.old.seat) }
{
    member.account.turns -= 1;
    let posted = pool.send(&mut member.seat, to, Parcel { view: Some(at) });
    member.account.counts.part(at.root);
    posted
}

/// The view of a letter, whose root the thread then counts once more.
pub fn accept(pool: &SharedPool, member: &mut Member, posted: Posted) -> ViewData
    requires thread { IsThread pool.now member.old }
    requires own { HasOwnChannels pool.now }
    requires parcel { IsParcelOf pool.now posted }
    requires may { MayAccept member.old.account posted.letter }
    ensures does { Does pool.now 1 (once_more result.root) None member.old member.new }
    ensures moves { member.new.account.moves ≡ member.old.account.moves }
    ensures view { IsView result }
    ensures at { posted.letter.parcel.view ≡ Some result }
    ensures counts { 0 < counted member.new.account.counts result.root }
    ensures reaches { LiesIn (known member.new.account.counts result.root) result }
{
    let from = posted.letter().from;
    let (number, parcel) = pool.receive(&mut member.seat, posted);
    let Some(at) = parcel.view else {
        unreachable!()
    };
    member.account.turns -= 1;
    member.account.received[from as usize] = number;
    member.account.counts.add(at.root);
    member.account.counts.tell(at.root, at.offset + at.len);
    at
}
