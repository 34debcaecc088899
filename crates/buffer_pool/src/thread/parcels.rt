//! How buffers go from one thread to another, in parcels that the server carries.

ghost use Rattle.std.specs.Prelude.{◌≡◌, [], ◌∷◌, IfOk, IfErr, IsTrue, OnOk, MatchResult, None, Some};
ghost use Rattle.pool_table.specs.Letters.{next_letter};
ghost use Rattle.shared_pool.specs.SeatViews.{view_of};
ghost use Rattle.seat_work.specs.Changes.{no_change, once_more};
ghost use Rattle.pool_member.specs.Refusals.{accept_no, as_part, is_here, send_no};
ghost use Rattle.pool_member.specs.Threads.{HasChanged};

use crate::answers::{NotAccepted, Unsent};
use crate::buffer::Buffer;
use crate::name::PoolName;
use crate::parcel::Parcel;
use crate::pool::Pool;
use crate::thread::PoolThread;
use byte_view::View;
use pool_member::work::passing;
use pool_member::{AccessNo, PartNo};
use std::marker::PhantomData;

impl<B: PoolName> PoolThread<B> {
    /// Makes a parcel of a buffer, for the thread of that number, which alone can accept it. The
    /// parcel has the buffer's count, its reader and its writer. Parcels that one thread makes for
    /// another are accepted in the order in which they were made. No number of them ends a pool's
    /// life. A refusal changes nothing, and hands the buffer back.
    pub fn part(
        &mut self,
        pool: &Pool<B>,
        buffer: Buffer<B>,
        to: u32,
    ) -> Result<Parcel<B>, Unsent<B>>
        ensures answers { let threads = pool.now.table.layout.shape.lanes in
            let no = send_no threads self.old.account buffer to in
            MatchResult result (λ _. no ≡ None) (λ back. no ≡ Some back.why) }
        ensures parcel { IfOk result (λ p.
            p ≡ next_letter to (record { view = Some buffer.at }) (view_of self.old.seat)) }
        ensures changed { IfOk result (λ p.
            HasChanged 1 (record no_change { gone = buffer.at.root ∷ [] }) (Some buffer.at.root)
            self.old self.new) }
        ensures moves { OnOk result (self.new.account.moves ≡ self.old.account.moves) }
        ensures back { IfErr result (λ back. (back.buffer ≡ buffer) × (self.new ≡ self.old)) }
    {
        if to >= pool.threads {
            let why = PartNo::NoThread;
            return Err(Unsent { why, buffer });
        }
        if let Err(no) = buffer.may(&self.member.account, 1) {
            let why = part_no(no);
            return Err(Unsent { why, buffer });
        }
        let Buffer {
            view,
            thread: _,
            of: _,
        } = buffer;
        let posted = passing::part(&pool.shared, &mut self.member, to, view.at);
        Ok(Parcel {
            posted,
            of: PhantomData,
        })
    }

    /// The buffer of a parcel, which is then this thread's. A parcel that is for another thread or
    /// out of order comes back, and nothing has changed.
    pub fn accept(&mut self, pool: &Pool<B>, parcel: Parcel<B>) -> Result<Buffer<B>, NotAccepted<B>>
        ensures answers { let no = accept_no self.old.account parcel in
            MatchResult result (λ _. no ≡ None) (λ back. no ≡ Some back.why) }
        ensures buffer { IfOk result (λ b.
            (parcel.parcel.view ≡ Some b.at) × (b.thread ≡ self.old.account.lane)) }
        ensures here { IfOk result (λ b. IsTrue (is_here self.new.account b)) }
        ensures changed { IfOk result (λ b.
            HasChanged 1 (once_more b.at.root) None self.old self.new) }
        ensures moves { OnOk result (self.new.account.moves ≡ self.old.account.moves) }
        ensures back { IfErr result (λ back. (back.parcel ≡ parcel) × (self.new ≡ self.old)) }
    {
        let letter = parcel.posted.letter();
        if let Err(why) = self.member.account.may_accept(&letter) {
            return Err(NotAccepted { why, parcel });
        }
        let Parcel { posted, of: _ } = parcel;
        let at = passing::accept(&pool.shared, &mut self.member, posted);
        Ok(Buffer {
            view: View { at },
            thread: self.member.account.lane,
            of: PhantomData,
        })
    }
}

// Why a buffer isn't parted with, where a call on it is refused.
fn part_no(no: AccessNo) -> PartNo
    ensures { result ≡ as_part no }
{
    match no {
        AccessNo::NotHere | AccessNo::Range => PartNo::NotHere,
        AccessNo::Spent => PartNo::Spent,
    }
}
