//! A run that was played: lanes that have finished, and the pool that they ran over, closed.

ghost use Rattle.std.specs.Prelude.{◌≡◌, ℕ, Bool, ◌+◌, ◌<◌, ◌≤◌, [], ◌∷◌, ◌++◌, length, map, All, IfOk, vec_capacity};
ghost use Rattle.shared_pool.specs.Seats.{IsPoolSeat};
ghost use Rattle.lane_core.specs.Lanes.{Heeds, IsFinished, number_of};
ghost use Rattle.lane_core.specs.Played.{AreFinished, IsHeeded, IsRunOf, ArePartedAs, HasRoom, HasSpare, log_written};

use crate::lane::Lane;
use leak_records::report;
use pool_law::{CommandList, CommandLists, LaneLog, LaneLogs, Run, Shape, Trace};
use shared_pool::{PoolSeat, SharedPool};
use std::alloc::{AllocError, Global};
use std::marker::Model;
use std::sync::Wait;

/// A run that lanes played over a pool. It is legal, what a lane did before it sent a parcel
/// stands, at each object, before what the receiver did there after it fetched it, and all steps of
/// all lanes stand in one order, in which each fits those before it.
#[derive(Drop)]
pub struct Played {
    run: Run,
}

impl Model for Played {
    ghost use Rattle.pool_law.specs.declared.run.Run.{Run};
    ghost use Rattle.lane_core.specs.Played.{IsPlayed};

    ghost Value = { Run };

    ghost view = { λ played. played.run };

    ghost invariant = { λ played. IsPlayed played.run };
}

impl Played {
    ghost use Rattle.lane_core.specs.Played.{IsPlayed};

    /// The run.
    pub fn run(&self) -> &Run
        ensures run { result.now ≡ self.now }
        ensures played { IsPlayed result.now }
    {
        &self.run
    }

    /// The run.
    pub fn into_run(self) -> Run
        ensures run { result ≡ self }
        ensures played { IsPlayed result }
    {
        self.run
    }
}

/// Closes a pool with the seats of all its lanes, lane `i` at place `i`, each of which has
/// finished, and makes the run of their commands and logs, with the pool's chunks and the report
/// of its leaks.
///
/// After want of memory the pool and the lanes are spent.
pub fn finish<W: Wait>(
    rt: &W,
    alloc: Global,
    pool: SharedPool,
    shape: &Shape,
    lanes: Vec<Lane>,
) -> Result<Played, AllocError>
    requires shape { shape.now ≡ pool.table.layout.shape }
    requires lanes { AreFinished pool lanes.items }
    ensures run { IfOk result (IsRunOf shape.now lanes.items) }
    // A reply is `Stopped` exactly where its lane's gate stops it at its line or at an earlier one.
    ensures heeds { IfOk result (λ run. (stops : ℕ → ℕ → Bool) →
        All (λ l. Heeds (stops (number_of l)) l) lanes.items → IsHeeded stops run) }
{
    let Ok(parted) = room_for(alloc, lanes.len()) else {
        abandon_all(pool, lanes);
        return Err(AllocError);
    };
    let (Parted { commands, logs }, seats) = part(lanes, parted);
    let end = match pool.close(rt, alloc, seats) {
        Ok(end) => end,
        Err((pool, seats)) => {
            pool.abandon(seats);
            return Err(AllocError);
        }
    };
    let leaks = report(alloc, &end.live)?;
    let run = Run {
        trace: Trace {
            lanes: CommandLists::of(commands),
        },
        shape: *shape,
        logs: LaneLogs::of(logs),
        chunks: end.chunks,
        leaks,
    };
    Ok(Played { run })
}

// The commands and the logs of lanes.
#[derive(Drop)]
struct Parted {
    commands: Vec<CommandList>,
    logs: Vec<LaneLog>,
}

// Room for those of so many lanes.
fn room_for(alloc: Global, count: usize) -> Result<Parted, AllocError>
    ensures empty { IfOk result (ArePartedAs [] []) }
    ensures room { IfOk result (HasRoom count) }
{
    let commands = Vec::with_capacity(alloc, count)?;
    let logs = Vec::with_capacity(alloc, count)?;
    Ok(Parted { commands, logs })
}

// Takes lanes that have finished apart: their commands and logs, and their seats in a list for
// which the first of them kept the room.
fn part(mut lanes: Vec<Lane>, mut parted: Parted) -> (Parted, Vec<PoolSeat>)
    requires some_lane { 0 < length lanes.items }
    requires finished { All IsFinished lanes.items }
    requires room { HasRoom (length lanes.items) parted }
    requires spare { All (HasSpare (length lanes.items)) lanes.items }
    ensures commands { result.0.commands.items
        ≡ parted.commands.items ++ map (λ l. l.commands) lanes.items }
    ensures logs { result.0.logs.items ≡ parted.logs.items ++ map log_written lanes.items }
    ensures seats { result.1.items ≡ map (λ l. l.context.seat) lanes.items }
{
    let (commands, log, seat, spare) = lanes.remove(0).into_parts();
    let mut seats = spare.into_seats();
    keep(&mut parted, &mut seats, commands, log, seat);
    let count = lanes.len();
    for _ in 0..count {
        let (commands, log, seat, spare) = lanes.remove(0).into_parts();
        spare.end();
        keep(&mut parted, &mut seats, commands, log, seat);
    }
    lanes.destroy_empty();
    (parted, seats)
}

// Adds what a lane is made of, where there is room.
fn keep(
    parted: &mut Parted,
    seats: &mut Vec<PoolSeat>,
    commands: CommandList,
    log: LaneLog,
    seat: PoolSeat,
)
    requires room { HasRoom 1 parted.old }
    requires seat_room { length seats.old.items < vec_capacity seats.old }
    ensures commands { parted.new.commands.items ≡ parted.old.commands.items ++ commands ∷ [] }
    ensures logs { parted.new.logs.items ≡ parted.old.logs.items ++ log ∷ [] }
    ensures seats { seats.new.items ≡ seats.old.items ++ seat ∷ [] }
    ensures room { (count : ℕ) → HasRoom (count + 1) parted.old → HasRoom count parted.new }
    ensures seat_room { vec_capacity seats.old ≤ vec_capacity seats.new }
{
    let (Ok(()), Ok(())) = (parted.commands.push(commands), parted.logs.push(log)) else {
        unreachable!()
    };
    add(seats, seat);
}

// Adds a seat, where there is room.
fn add(seats: &mut Vec<PoolSeat>, seat: PoolSeat)
    requires { length seats.old.items < vec_capacity seats.old }
    ensures items { seats.new.items ≡ seats.old.items ++ seat ∷ [] }
    ensures room { vec_capacity seats.old ≤ vec_capacity seats.new }
{
    let pushed = seats.push(seat);
    let Ok(()) = pushed else { unreachable!() };
}

// Spends a pool and its lanes.
fn abandon_all(pool: SharedPool, mut lanes: Vec<Lane>)
    requires some_lane { 0 < length lanes.items }
    requires seats { All (λ l. IsPoolSeat pool l.context.seat) lanes.items }
    requires spare { All (HasSpare (length lanes.items)) lanes.items }
{
    let (seat, spare) = lanes.remove(0).into_seat();
    let mut seats = spare.into_seats();
    add(&mut seats, seat);
    let count = lanes.len();
    for _ in 0..count {
        let (seat, spare) = lanes.remove(0).into_seat();
        spare.end();
        add(&mut seats, seat);
    }
    lanes.destroy_empty();
    pool.abandon(seats);
}
