//! The queue of a mail: letters from one lane to another, in order. Only the first lane's pass
//! pushes, and only the second's pops.

ghost use Rattle.std.specs.Prelude.{◌≡◌, ◌<◌, ◌≤◌, [], IfOk, IfSome, IfNone};
ghost use Rattle.atomic_table.specs.Seated.{TableId};
ghost use Rattle.crossbeam_queue.specs.Fifo.{Pops};
ghost use Rattle.crossbeam_queue.specs.Passes.{view, IsPassOf, ruled_capacity};
ghost use Rattle.shared_pool.specs.Carries.{Carries, IsNextSent, Received, Stood};
ghost use Rattle.shared_pool.specs.MailEnds.{IsReceiver, IsSender, no_ends, one_sent, receiver, sender};

use crate::mail_ends::MailEnds;
use crate::posted::Posted;
use crate::seat::TableSeat;
use crossbeam_queue::protocol::{Lesson, Outcome, Protocol, Split};
use crossbeam_queue::{Pass, RuledArrayQueue};
use std::alloc::{AllocError, Global};
use std::marker::{Brand, PhantomData};
use std::sync::Wait;

/// The rule of each mail: its letters come out in the order in which they went in.
pub struct InOrder;

impl Protocol<Posted, MailEnds> for InOrder {
    ghost use Rattle.shared_pool.specs.Carries.{Carries};
    ghost use Rattle.shared_pool.specs.MailEnds.{no_ends};

    ghost holds = { Carries };

    ghost first = { no_ends };
}

/// The queue of one mail.
pub type Queue = RuledArrayQueue<Posted, MailEnds, InOrder>;

/// A pass on it: the end of one lane.
pub type MailPass = Pass<Posted, MailEnds>;

// Names the table, the lanes and the room of a mail. Each call picks it.
pub(crate) trait Naming {
    ghost use Rattle.std.specs.Prelude.{ℕ};
    ghost use Rattle.atomic_table.specs.Seated.{TableId};

    ghost table: { TableId };

    ghost sender: { ℕ };

    ghost receiver: { ℕ };

    ghost room: { ℕ };
}

impl Naming for Brand {
    ghost use Rattle.shared_pool.specs.MailEnds.{no_table};

    ghost table = { no_table };

    ghost sender = { 0 };

    ghost receiver = { 0 };

    ghost room = { 0 };
}

// Cuts the first pass into the two ends, and names them.
struct TwoEnds<J: Naming>(PhantomData<J>);

impl<J: Naming> Split<MailEnds> for TwoEnds<J> {
    ghost use Rattle.shared_pool.specs.MailEnds.{sender, receiver};

    ghost left = { λ v. sender J.table J.sender J.receiver J.room 0 };

    ghost right = { λ v. receiver J.table J.sender J.receiver J.room 0 };
}

// A letter is sent, after which the queue holds no more than were sent.
struct Sends;

impl Outcome<Posted, MailEnds> for Sends {
    ghost use Rattle.std.specs.Prelude.{◌≡◌};
    ghost use Rattle.shared_pool.specs.MailEnds.{one_sent};

    ghost then = { λ v x w. w ≡ one_sent v };
}

impl Lesson<Posted, MailEnds> for Sends {
    ghost use Rattle.std.specs.Prelude.{◌≤◌, length};

    ghost fact = { λ v items. length items ≤ v.sent };
}

// A letter is received. Where there is none, the queue was empty under this rule.
struct Receives<P: Protocol<Posted, MailEnds>>(PhantomData<P>);

impl<P: Protocol<Posted, MailEnds>> Outcome<Posted, MailEnds> for Receives<P> {
    ghost use Rattle.shared_pool.specs.Carries.{Received};

    ghost then = { Received };
}

impl<P: Protocol<Posted, MailEnds>> Lesson<Posted, MailEnds> for Receives<P> {
    ghost use Rattle.shared_pool.specs.Carries.{Stood};

    ghost fact = { Stood P.holds };
}

/// A queue for so many letters, and its first pass.
pub(crate) fn new_queue(alloc: Global, capacity: usize) -> Result<(Queue, MailPass), AllocError>
    requires { 0 < capacity }
    ensures { IfOk result (λ r. (ruled_capacity r.0 ≡ capacity)
        × IsPassOf r.0 r.1 × (view r.1 ≡ no_ends)) }
{
    Queue::ruled(alloc, capacity)
}

// The ends, by the names that the type has: the first pass is that of the sender from then on.
fn cut<J: Naming>(
    queue: &Queue,
    pass: &mut MailPass,
    seat: &TableSeat,
    from: u32,
    to: u32,
    room: u32,
) -> MailPass
    requires pass { IsPassOf queue.now pass.old × (view pass.old ≡ no_ends) }
    requires named { (seat.now.seat.table_id ≡ J.table) × («from» ≡ J.sender) × (to ≡ J.receiver)
        × (room ≡ J.room) }
    ensures sender { IsPassOf queue.now pass.new
        × (view pass.new ≡ sender (seat.now.seat.table_id) «from» to room 0) }
    ensures receiver { IsPassOf queue.now result
        × (view result ≡ receiver (seat.now.seat.table_id) «from» to room 0) }
{
    queue.another::<TwoEnds<J>>(pass)
}

/// Makes the first pass of a mail the end of the lane that sends, and gives the other lane's end.
/// The seat is any one of the pool's table.
pub(crate) fn ends(
    queue: &Queue,
    pass: &mut MailPass,
    seat: &TableSeat,
    from: u32,
    to: u32,
    room: u32,
) -> MailPass
    requires pass { IsPassOf queue.now pass.old × (view pass.old ≡ no_ends) }
    ensures sender { IsPassOf queue.now pass.new
        × (view pass.new ≡ sender (seat.now.seat.table_id) «from» to room 0) }
    ensures receiver { IsPassOf queue.now result
        × (view result ≡ receiver (seat.now.seat.table_id) «from» to room 0) }
{
    cut::<Brand>(queue, pass, seat, from, to, room)
}

/// Pushes the next letter. The queue has room, since fewer letters were sent than it can hold.
pub(crate) fn push<W: Wait>(rt: &W, queue: &Queue, pass: &mut MailPass, posted: Posted)
    requires pass { IsPassOf queue.now pass.old × IsSender (view pass.old) }
    requires letter { IsNextSent (view pass.old) posted }
    requires room { (view pass.old).sent < (view pass.old).room }
    requires capacity { (view pass.old).room ≤ ruled_capacity queue.now }
    ensures pass { IsPassOf queue.now pass.new × (view pass.new ≡ one_sent (view pass.old)) }
{
    match queue.push_as::<Sends, W>(rt, pass, posted) {
        Ok(()) => {}
        Err(_) => unreachable!(),
    }
}

// The front letter, under any rule under which the pass that pops gets its next one. None comes
// exactly where the queue was empty at this call's own step: the rule is not known here, so nothing
// else shows that it held of no letters.
#[inline(always)]
fn pop_under<P: Protocol<Posted, MailEnds>, W: Wait>(
    rt: &W,
    queue: &RuledArrayQueue<Posted, MailEnds, P>,
    pass: &mut MailPass,
) -> Option<Posted>
    requires pass { IsPassOf queue.now pass.old }
    requires rule { Pops P.holds pass.old.id (view pass.old) (Received (view pass.old)) }
    ensures pass { IsPassOf queue.now pass.new }
    ensures received { IfSome result (λ p. Received (view pass.old) p (view pass.new)) }
    ensures none { IfNone result
        ((view pass.new ≡ view pass.old) × Stood P.holds (view pass.old) []) }
{
    queue.pop_as::<Receives<P>, W>(rt, pass)
}

/// Pops the next letter. None comes exactly where the queue was empty at this call's own step.
#[inline(always)]
pub(crate) fn pop<W: Wait>(rt: &W, queue: &Queue, pass: &mut MailPass) -> Option<Posted>
    requires pass { IsPassOf queue.now pass.old × IsReceiver (view pass.old) }
    ensures pass { IsPassOf queue.now pass.new }
    ensures received { IfSome result (λ p. Received (view pass.old) p (view pass.new)) }
    ensures none { IfNone result
        ((view pass.new ≡ view pass.old) × Stood Carries (view pass.old) []) }
{
    pop_under::<InOrder, W>(rt, queue, pass)
}
