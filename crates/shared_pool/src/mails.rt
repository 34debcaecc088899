//! The mails: parcels go from one lane to another, by the pool's own queues, or as letters that the
//! caller carries.

ghost use Rattle.std.specs.Prelude.{◌≡◌, ◌*◌, ◌+◌, ◌<◌, ◌^◌, Some, IfSome, slice_get};
ghost use Rattle.pool_law.specs.Views.{IsView};
ghost use Rattle.pool_table.specs.Counts.{CountsOne, HasCount};
ghost use Rattle.pool_table.specs.Letters.{next_letter, received_on, sent_on};
ghost use Rattle.shared_pool.specs.Knowing.{ReachesKnown};
ghost use Rattle.shared_pool.specs.MailAnswers.{HasOwnChannel, HasRoom, IfEmpty, IfGot, IsDrained, IsFetched, IsPosted};
ghost use Rattle.shared_pool.specs.Mails.{table_of};
ghost use Rattle.shared_pool.specs.SeatLanes.{lane_of};
ghost use Rattle.shared_pool.specs.SeatViews.{view_of, HasView, SameSeat};
ghost use Rattle.shared_pool.specs.Seats.{IsPoolSeat};

use crate::mail::Mail;
use crate::noting::lane_of;
use crate::pool::SharedPool;
use crate::posted::Posted;
use crate::queue::{pop, push};
use crate::seat::PoolSeat;
use crate::went::Fetched;
use pool_law::Parcel;
use std::sync::Wait;

impl SharedPool {
    // The mail from one lane to another.
    pub(crate) fn mail(&self, from: u32, to: u32) -> &Mail
        requires from_is { «from» < self.now.table.layout.shape.lanes }
        requires to { to < self.now.table.layout.shape.lanes }
        ensures { Some result.now ≡ slice_get self.now.mails.items
            («from» * self.now.table.layout.shape.lanes + to) }
    {
        &self.mails[(from * self.layout.shape.lanes + to) as usize]
    }

    // A parcel becomes a letter to a lane, and the seat then counts its root once less.
    fn sent(&self, seat: &mut PoolSeat, to: u32, parcel: Parcel) -> Posted
        requires seat { IsPoolSeat self.now seat.old }
        requires to { to < self.now.table.layout.shape.lanes }
        requires few { sent_on (lane_of seat.old) to (view_of seat.old).own.notes < 2 ^ 62 }
        requires view { IfSome parcel.view IsView }
        requires known { IfSome parcel.view (ReachesKnown (view_of seat.old)) }
        requires counts { IfSome parcel.view (λ v. HasCount v.root (view_of seat.old)) }
        ensures same { SameSeat seat.old seat.new }
        ensures ends { (seat.new.posts ≡ seat.old.posts) × (seat.new.fetches ≡ seat.old.fetches) }
        ensures letter { (result.table ≡ table_of self.now)
            × (result.letter ≡ next_letter to parcel (view_of seat.old)) }
        ensures posted { IsPosted seat.old seat.new to result.letter.number parcel }
        ensures counts { CountsOne (view_of seat.new) }
    {
        Posted::new(self.table.send(&mut seat.seat, to, parcel))
    }

    /// Posts a parcel to another lane, and answers the number of the post. Its view reaches no
    /// further into its root than the seat knows of the root's capacity. The seat then counts the
    /// root once less.
    pub fn post<W: Wait>(&self, rt: &W, seat: &mut PoolSeat, to: u32, parcel: Parcel) -> u64
        requires seat { IsPoolSeat self.now seat.old }
        requires to { to < self.now.table.layout.shape.lanes }
        requires room { HasRoom self.now (lane_of seat.old) to (view_of seat.old) }
        requires view { IfSome parcel.view IsView }
        requires known { IfSome parcel.view (ReachesKnown (view_of seat.old)) }
        requires counts { IfSome parcel.view (λ v. HasCount v.root (view_of seat.old)) }
        ensures same { SameSeat seat.old seat.new }
        ensures seat { IsPoolSeat self.now seat.new }
        ensures posted { IsPosted seat.old seat.new to result parcel }
    {
        let lane = lane_of(seat);
        let mail = self.mail(lane, to);
        let posted = self.sent(seat, to, parcel);
        let number = posted.letter().number;
        push(rt, &mail.queue, &mut seat.posts[to as usize], posted);
        number
    }

    /// Fetches the next parcel from another lane. The seat then counts its root once more, and knows
    /// that the root's capacity reaches as far as the view. Empty comes exactly where the mail's
    /// queue was empty at this call's own step on it; then nothing is noted.
    pub fn fetch<W: Wait>(&self, rt: &W, seat: &mut PoolSeat, from: u32) -> Fetched
        requires seat { IsPoolSeat self.now seat.old }
        requires from_is { «from» < self.now.table.layout.shape.lanes }
        ensures same { SameSeat seat.old seat.new }
        ensures seat { IsPoolSeat self.now seat.new }
        ensures got { IfGot result (λ number parcel.
            IsFetched seat.old seat.new «from» number parcel) }
        ensures view { IfGot result (λ number parcel. IfSome parcel.view IsView) }
        ensures known { IfGot result (λ number parcel.
            IfSome parcel.view (ReachesKnown (view_of seat.new))) }
        ensures counts { IfGot result (λ number parcel.
            IfSome parcel.view (λ w. HasCount w.root (view_of seat.new))) }
        ensures place { let s = self.now.table.layout.shape in
            IfGot result (λ number parcel.
            IfSome parcel.view (λ w. w.root.place < s.lanes * s.handles)) }
        ensures empty { IfEmpty result (HasView seat.new (view_of seat.old)) }
        ensures drained { IfEmpty result (IsDrained «from» seat.old) }
    {
        let lane = lane_of(seat);
        let queue = &self.mail(from, lane).queue;
        let Some(posted) = pop(rt, queue, &mut seat.fetches[from as usize]) else {
            return Fetched::Empty;
        };
        let letter = self.table.receive(&mut seat.seat, posted.into_seat());
        Fetched::Got(letter.number, letter.parcel)
    }

    /// Sends a parcel to another lane as a letter that the caller carries by a channel of his own,
    /// where the pool was made with no room between the two lanes. So no number of parcels ends a
    /// pool's life. The parcel's view reaches no further into its root than the seat knows of the
    /// root's capacity. The seat then counts the root once less.
    pub fn send(&self, seat: &mut PoolSeat, to: u32, parcel: Parcel) -> Posted
        requires seat { IsPoolSeat self.now seat.old }
        requires to { to < self.now.table.layout.shape.lanes }
        requires own { HasOwnChannel self.now (lane_of seat.old) to }
        requires few { sent_on (lane_of seat.old) to (view_of seat.old).own.notes < 2 ^ 62 }
        requires view { IfSome parcel.view IsView }
        requires known { IfSome parcel.view (ReachesKnown (view_of seat.old)) }
        requires counts { IfSome parcel.view (λ v. HasCount v.root (view_of seat.old)) }
        ensures same { SameSeat seat.old seat.new }
        ensures seat { IsPoolSeat self.now seat.new }
        ensures letter { (result.table ≡ table_of self.now)
            × (result.letter ≡ next_letter to parcel (view_of seat.old)) }
        ensures posted { IsPosted seat.old seat.new to result.letter.number parcel }
    {
        self.sent(seat, to, parcel)
    }

    /// Receives a letter to the seat's lane that is the next from the lane that sent it; the seat
    /// then counts the parcel's root once more, and knows that its capacity reaches as far as the
    /// view. `Posted::letter` tells all that is asked.
    pub fn receive(&self, seat: &mut PoolSeat, posted: Posted) -> (u64, Parcel)
        requires seat { IsPoolSeat self.now seat.old }
        requires table { posted.table ≡ table_of self.now }
        requires from_is { posted.letter.from < self.now.table.layout.shape.lanes }
        requires to { posted.letter.to ≡ lane_of seat.old }
        requires next { posted.letter.number
            ≡ received_on posted.letter.from (lane_of seat.old) (view_of seat.old).own.notes + 1 }
        requires own { HasOwnChannel self.now posted.letter.from (lane_of seat.old) }
        ensures same { SameSeat seat.old seat.new }
        ensures seat { IsPoolSeat self.now seat.new }
        ensures letter { (result.0 ≡ posted.letter.number) × (result.1 ≡ posted.letter.parcel) }
        ensures received { IsFetched seat.old seat.new posted.letter.from result.0 result.1 }
        ensures view { IfSome result.1.view IsView }
        ensures known { IfSome result.1.view (ReachesKnown (view_of seat.new)) }
        ensures counts { IfSome result.1.view (λ w. HasCount w.root (view_of seat.new)) }
        ensures place { let s = self.now.table.layout.shape in
            IfSome result.1.view (λ w. w.root.place < s.lanes * s.handles) }
    {
        let letter = self.table.receive(&mut seat.seat, posted.into_seat());
        (letter.number, letter.parcel)
    }
}
