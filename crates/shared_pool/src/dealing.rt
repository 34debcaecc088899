//! How the mails of a new pool are made, and their ends dealt to its seats.

ghost use Rattle.std.specs.Prelude.{◌≡◌, ◌*◌, ◌+◌, ◌<◌, ◌≤◌, [], length, map, take, All, IfOk, vec_capacity, vec_len};
ghost use Rattle.pool_table.specs.Seats.{IsSeatOf};
ghost use Rattle.shared_pool.specs.Dealing.{AreColumns, AreDealt, AreFirstPasses, AreFirstRows, HasSeatRoom, IsEmptyFor, Longer};
ghost use Rattle.shared_pool.specs.Mails.{ArePosts};

use crate::mail::Mail;
use crate::pool::SharedPool;
use crate::queue::{MailPass, ends};
use crate::seat::{PoolSeat, TableSeat};
use std::alloc::{AllocError, Global};

// The mails of so many lanes, with this room each, and of each its first pass, by its two lanes.
pub(crate) fn new_mails(
    alloc: Global,
    lanes: u32,
    mail: &[u32],
) -> Result<(Vec<Mail>, Vec<Vec<MailPass>>), AllocError>
    requires lanes { lanes ≤ 16 }
    requires mail { length mail.now ≡ lanes * lanes }
    ensures rooms { IfOk result (λ r. map (λ m. m.room) r.0.items ≡ mail.now) }
    ensures rows { IfOk result (λ r. AreFirstRows r.0.items lanes lanes r.1.items) }
{
    let mut mails = Vec::with_capacity(alloc, mail.len())?;
    let mut rows = Vec::with_capacity(alloc, lanes as usize)?;
    for lane in 0..lanes {
        let row = new_row(alloc, lanes, lane, mail, &mut mails)?;
        rows.push(row)?;
    }
    Ok((mails, rows))
}

// The mails from one lane, behind those of the lanes before it, and their first passes.
fn new_row(
    alloc: Global,
    lanes: u32,
    lane: u32,
    mail: &[u32],
    mails: &mut Vec<Mail>,
) -> Result<Vec<MailPass>, AllocError>
    requires lanes { lanes ≤ 16 }
    requires lane { lane < lanes }
    requires mail { length mail.now ≡ lanes * lanes }
    requires before { map (λ m. m.room) mails.old.items ≡ take (lane * lanes) mail.now }
    ensures longer { IfOk result (λ r. Longer mails.old.items mails.new.items) }
    ensures rooms { IfOk result (λ r.
        map (λ m. m.room) mails.new.items ≡ take (lane * lanes + lanes) mail.now) }
    ensures row { IfOk result (λ r.
        AreFirstPasses mails.new.items (lane * lanes) lanes r.items) }
{
    let mut row = Vec::with_capacity(alloc, lanes as usize)?;
    for to in 0..lanes {
        let (made, pass) = Mail::new(alloc, mail[(lane * lanes + to) as usize])?;
        mails.push(made)?;
        row.push(pass)?;
    }
    Ok(row)
}

// What the seats of a pool are made of beside those of its table: the first passes of all mails, by
// both lanes, and room for the rest.
pub(crate) struct SeatRoom {
    posts: Vec<Vec<MailPass>>,
    fetches: Vec<Vec<MailPass>>,
    seats: Vec<PoolSeat>,
}

impl SeatRoom {
    // All memory is taken here.
    pub(crate) fn take(
        alloc: Global,
        lanes: u32,
        posts: Vec<Vec<MailPass>>,
    ) -> Result<SeatRoom, AllocError>
        ensures posts { IfOk result (λ r. r.posts ≡ posts) }
        ensures room { IfOk result (HasSeatRoom lanes) }
    {
        let mut fetches = Vec::with_capacity(alloc, lanes as usize)?;
        for _lane in 0..lanes {
            fetches.push(Vec::with_capacity(alloc, lanes as usize)?)?;
        }
        let seats = Vec::with_capacity(alloc, lanes as usize)?;
        Ok(SeatRoom {
            posts,
            fetches,
            seats,
        })
    }

    pub(crate) fn give_up(self)
        requires { self.seats.items ≡ [] }
    {
        let SeatRoom {
            posts: _,
            fetches: _,
            seats,
        } = self;
        seats.destroy_empty();
    }

    // The seats, of these seats of the table: each lane's has its ends of the mails.
    pub(crate) fn deal(self, pool: &SharedPool, first: Vec<TableSeat>) -> Vec<PoolSeat>
        requires room { HasSeatRoom pool.now.table.layout.shape.lanes self }
        requires rows { let lanes = pool.now.table.layout.shape.lanes in
            AreFirstRows pool.now.mails.items lanes lanes self.posts.items }
        requires many { vec_len first ≡ pool.now.table.layout.shape.lanes }
        requires table { All (IsSeatOf pool.now.table) first.items }
        ensures seats { map (λ s. s.seat) result.items ≡ first.items }
        ensures ends { AreDealt pool.now result.items }
    {
        let SeatRoom {
            mut posts,
            mut fetches,
            seats,
        } = self;
        for lane in 0..pool.layout.shape.lanes {
            let row = &mut posts[lane as usize];
            name_row(pool, lane, &first[lane as usize], row, &mut fetches);
        }
        assemble(first, posts, fetches, seats)
    }
}

// Names the mails from one lane: its first passes become its ends, and the other lanes' ends go
// behind those that they have.
fn name_row(
    pool: &SharedPool,
    from: u32,
    seat: &TableSeat,
    row: &mut Vec<MailPass>,
    fetches: &mut Vec<Vec<MailPass>>,
)
    requires from_is { «from» < pool.now.table.layout.shape.lanes }
    requires seat { IsSeatOf pool.now.table seat.now }
    requires row { let lanes = pool.now.table.layout.shape.lanes in
        AreFirstPasses pool.now.mails.items («from» * lanes) lanes row.old.items }
    requires columns { AreColumns pool.now «from» fetches.old.items }
    ensures row { ArePosts pool.now «from» [] row.new.items }
    ensures many { vec_len row.new ≡ vec_len row.old }
    ensures columns { AreColumns pool.now («from» + 1) fetches.new.items }
{
    for to in 0..pool.layout.shape.lanes {
        let mail = pool.mail(from, to);
        let pass = &mut row[to as usize];
        let end = ends(&mail.queue, pass, seat, from, to, mail.room);
        let Ok(()) = fetches[to as usize].push(end) else {
            unreachable!()
        };
    }
}

// Puts the seats of a pool together, in order.
fn assemble(
    mut first: Vec<TableSeat>,
    mut posts: Vec<Vec<MailPass>>,
    mut fetches: Vec<Vec<MailPass>>,
    mut seats: Vec<PoolSeat>,
) -> Vec<PoolSeat>
    requires posts { vec_len posts ≡ vec_len first }
    requires fetches { vec_len fetches ≡ vec_len first }
    requires seats { IsEmptyFor (vec_len first) seats }
    ensures first { map (λ s. s.seat) result.items ≡ first.items }
    ensures posts { map (λ s. s.posts) result.items ≡ posts.items }
    ensures fetches { map (λ s. s.fetches) result.items ≡ fetches.items }
{
    while let Some(seat) = first.pop() {
        let Some(posts) = posts.pop() else {
            unreachable!()
        };
        let Some(fetches) = fetches.pop() else {
            unreachable!()
        };
        let pushed = seats.push(PoolSeat {
            seat,
            posts,
            fetches,
        });
        let Ok(()) = pushed else { unreachable!() };
    }
    first.destroy_empty();
    seats.as_mut_slice().reverse();
    seats
}
