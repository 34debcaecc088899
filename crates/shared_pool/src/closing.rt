//! How a pool ends: closed, with what stands then, or abandoned.

ghost use Rattle.std.specs.Prelude.{◌≡◌, ◌*◌, ◌<◌, ◌≤◌, length, map, All, IfErr, IfOk};
ghost use Rattle.size_classes.specs.Sizes.{below};
ghost use Rattle.pool_law.specs.Legal.{ends_from};
ghost use Rattle.pool_table.specs.Views.{parts_of};
ghost use Rattle.pool_table.specs.Seats.{view_of, IsSeatOf, IsOutside};
ghost use Rattle.shared_pool.specs.Closing.{AreWhole, logs_in};
ghost use Rattle.shared_pool.specs.Joining.{AreApart, IsSettled, HaveFetches, AreFetchesOf, IsFetchesOf};
ghost use Rattle.shared_pool.specs.Live.{AreLiveRoots};
ghost use Rattle.shared_pool.specs.Rooms.{AreSparesFor};
ghost use Rattle.shared_pool.specs.Seated.{AreDone, WereDone, parts_in};
ghost use Rattle.shared_pool.specs.Seats.{IsPoolSeat};

use crate::emptying::close_arenas;
use crate::home::Home;
use crate::last_chunks::chunk_ends;
use crate::live_roots::live_roots;
use crate::mail::Mail;
use crate::pool::SharedPool;
use crate::queue::{MailPass, pop};
use crate::seat::{PoolSeat, TableSeat};
use crate::spares::Spares;
use crate::went::PoolEnd;
use pool_law::Items;
use pool_table::PoolTable;
use std::alloc::Global;
use std::mem::ManuallyDrop;
use std::sync::Wait;

impl SharedPool {
    /// Closes the pool with the seats of all lanes, in order, which have nothing in hand, and tells
    /// what stands then: the chunks that are in a list, and the sampled roots that are live.
    ///
    /// It takes its memory first. After want of memory the pool and the seats come back as they
    /// were. Else the letters that nobody fetched are taken out of the mails, and stay unfetched:
    /// the roots that they count are live. What caches and live roots still have goes back to the
    /// arenas, which give the memory of all chunks back.
    pub fn close<W: Wait>(
        self,
        rt: &W,
        alloc: Global,
        mut seats: Vec<PoolSeat>,
    ) -> Result<PoolEnd, (SharedPool, Vec<PoolSeat>)>
        requires seats { AreDone self seats.items }
        ensures err { IfErr result (λ e. (e.0 ≡ self) × (e.1.items ≡ seats.items)) }
        ensures whole { IfOk result (λ end.
            AreWhole self.table.layout.shape (parts_in seats.items)) }
        ensures chunks { IfOk result (λ end. let shape = self.table.layout.shape in
            end.chunks ≡ ends_from shape (logs_in (parts_in seats.items)) (below shape.arenas)) }
        ensures live { IfOk result (λ end. AreLiveRoots (parts_in seats.items) end.live) }
    {
        let Ok(room) = Spares::reserve(alloc, &self.layout.shape) else {
            return Err((self, seats));
        };
        empty_mails(rt, &self.mails, self.layout.shape.lanes, &mut seats);
        Ok(self.close_in(room, seats))
    }

    /// Closes the pool as `close` does, and waits for nobody: the letters that nobody fetched are
    /// dropped with the mails, and stay unfetched.
    pub fn close_at_once(
        self,
        alloc: Global,
        seats: Vec<PoolSeat>,
    ) -> Result<PoolEnd, (SharedPool, Vec<PoolSeat>)>
        requires seats { AreDone self seats.items }
        ensures err { IfErr result (λ e. (e.0 ≡ self) × (e.1.items ≡ seats.items)) }
        ensures whole { IfOk result (λ end.
            AreWhole self.table.layout.shape (parts_in seats.items)) }
        ensures chunks { IfOk result (λ end. let shape = self.table.layout.shape in
            end.chunks ≡ ends_from shape (logs_in (parts_in seats.items)) (below shape.arenas)) }
        ensures live { IfOk result (λ end. AreLiveRoots (parts_in seats.items) end.live) }
    {
        let Ok(room) = Spares::reserve(alloc, &self.layout.shape) else {
            return Err((self, seats));
        };
        Ok(self.close_in(room, seats))
    }

    // Closes the pool, with the memory for what it tells.
    fn close_in(self, room: Spares, seats: Vec<PoolSeat>) -> PoolEnd
        requires seats { WereDone self seats.items }
        requires room { AreSparesFor room self.layout.shape }
        ensures whole { AreWhole self.table.layout.shape (parts_in seats.items) }
        ensures chunks { let shape = self.table.layout.shape in
            result.chunks ≡ ends_from shape (logs_in (parts_in seats.items)) (below shape.arenas) }
        ensures live { AreLiveRoots (parts_in seats.items) result.live }
    {
        let SharedPool {
            table,
            mails: _,
            layout,
        } = self;
        let seat = joined(&table, seats);
        let (mut homes, words) = table.close_with(seat);
        let Spares {
            chunks,
            live,
            records,
        } = room;
        let chunks = chunk_ends(&homes, &layout.shape, chunks);
        let live = live_roots(&mut homes, &words, &layout.shape, records, live);
        close_arenas(homes, layout.shape.arenas as usize);
        PoolEnd {
            chunks: Items::of(chunks),
            live: Items::of(live),
        }
    }

    /// Spends the pool and its seats as they are. All memory of the pool stays taken until the
    /// program ends.
    pub fn abandon(self, seats: Vec<PoolSeat>)
        requires seats { All (λ s. IsPoolSeat self s) seats.items }
    {
        let _pool = unsafe { ManuallyDrop::new_unchecked(self) };
        let _seats = unsafe { ManuallyDrop::new_unchecked(seats) };
    }
}

// The seat of the table that has the parts of all of these, in order.
fn joined(table: &PoolTable<Home>, mut seats: Vec<PoolSeat>) -> TableSeat
    requires some_seat { 0 < length seats.items }
    requires apart { AreApart table.now (map (λ s. s.seat) seats.items) }
    ensures own { IsSeatOf table.now result }
    ensures outside { IsOutside result }
    ensures settled { IsSettled table.now result }
    ensures parts { parts_of (view_of result) ≡ parts_in seats.items }
{
    seats.as_mut_slice().reverse();
    let Some(first) = seats.pop() else {
        unreachable!()
    };
    let mut whole = bare(first);
    while let Some(seat) = seats.pop() {
        table.join(&mut whole, bare(seat));
    }
    seats.destroy_empty();
    whole
}

// The table's seat of a lane, without its ends of the mails.
fn bare(seat: PoolSeat) -> TableSeat
    ensures { result ≡ seat.seat }
{
    let PoolSeat {
        seat,
        posts: _,
        fetches: _,
    } = seat;
    seat
}

// Takes the letters that nobody fetched out of all mails, with the ends of the lanes' seats. They
// stay unfetched.
fn empty_mails<W: Wait>(rt: &W, mails: &[Mail], lanes: u32, seats: &mut Vec<PoolSeat>)
    requires many { (length mails.now ≡ lanes * lanes) × (length seats.old.items ≡ lanes) }
    requires lanes { lanes ≤ 16 }
    requires ends { HaveFetches mails.now lanes seats.old.items }
    ensures same { map (λ s. s.seat) seats.new.items ≡ map (λ s. s.seat) seats.old.items }
{
    for lane in 0..lanes {
        empty_all(rt, mails, lanes, lane, &mut seats[lane as usize].fetches);
    }
}

// Takes the letters out of all mails to a lane, with its ends of them.
fn empty_all<W: Wait>(rt: &W, mails: &[Mail], lanes: u32, lane: u32, ends: &mut Vec<MailPass>)
    requires lanes { lane < lanes × (lanes ≤ 16) }
    requires many { length mails.now ≡ lanes * lanes }
    requires ends { AreFetchesOf mails.now lanes lane ends.old.items }
{
    for from in 0..lanes {
        empty(
            rt,
            &mails[(from * lanes + lane) as usize],
            &mut ends[from as usize],
        );
    }
}

// Takes the letters out of a mail.
fn empty<W: Wait>(rt: &W, mail: &Mail, pass: &mut MailPass)
    requires end { IsFetchesOf mail.now pass.old }
{
    while let Some(_letter) = pop(rt, &mail.queue, pass) {}
}
