//! A lane, which is stepped over its pool: how it is made, and what is left of it.

ghost use Rattle.std.specs.Prelude.{◌≡◌, ◌≤◌, Bool, [], length, IsSome, IfOk, IfErr, ℕ};
ghost use Rattle.pool_law.specs.Limits.{IsShape};
ghost use Rattle.shared_pool.specs.SeatViews.{view_of};
ghost use Rattle.shared_pool.specs.declared.pool.SharedPool.{SharedPool};
ghost use Rattle.shared_pool.specs.SeatLanes.{lane_of};
ghost use Rattle.lane_core.specs.Lanes.{Heeds, IsLane, IsFinished, commands_of, noted_by, replies_of, seat_of};
ghost use Rattle.lane_core.specs.Opened.{IsFirstSeat, AreFirst, AreParts};

mod stepping;

use crate::room::{makes_composites, name_count, note_bound};
use crate::spare::Spare;
use crate::spending::spend;
use lane_context::{Context, Names, Stage};
use lane_stages::{Draining, OwnCounts, lane_of};
use leak_records::Sampler;
use pool_law::{Answered, CommandList, LaneLog, Note, NoteList, ReplyList, Shape};
use shared_pool::PoolSeat;
use size_classes::SizeClasses;
use std::alloc::{AllocError, Global};

/// A lane with its commands and its log. It must be spent.
pub struct Lane {
    commands: CommandList,
    context: Context,
    stage: Stage,
    /// For how many lines the gate was asked.
    asked: usize,
    /// The gate stopped it: no further command is carried out.
    stopped: bool,
    /// Room for the seats with which the pool is closed.
    spare: Spare,
}

impl Lane {
    /// A lane that has done nothing, with the memory for its log and its names.
    pub fn new(
        alloc: Global,
        commands: CommandList,
        shape: &Shape,
        seat: PoolSeat,
    ) -> Result<Lane, (CommandList, PoolSeat)>
        requires commands { AreFirst shape.now commands }
        requires seat { (pool : SharedPool) × IsFirstSeat pool shape.now commands seat }
        ensures lane { IfOk result (λ lane. (pool : SharedPool) →
            IsFirstSeat pool shape.now commands seat → IsLane pool lane) }
        ensures commands { IfOk result (λ lane. commands_of lane ≡ commands) }
        ensures seat { IfOk result (λ lane. seat_of lane ≡ seat) }
        // Nothing was answered or noted, and no gate was asked.
        ensures blank { IfOk result (λ lane. (replies_of lane ≡ []) × (noted_by lane ≡ [])) }
        ensures fresh { IfOk result (λ lane. (stops : ℕ → Bool) → Heeds stops lane) }
        ensures err { IfErr result (λ back. back ≡ (commands, seat)) }
    {
        let Ok(parts) = equipped(alloc, &commands, shape, &seat) else {
            return Err((commands, seat));
        };
        let Parts {
            classes,
            composes,
            names,
            counts,
            sampler,
            log,
            spare,
        } = parts;
        let context = Context {
            shape: *shape,
            classes,
            seat,
            composes,
            names,
            counts,
            sampler,
            replies: log.0,
            notes: log.1,
            begun: 0,
            asked: 0,
        };
        Ok(Lane {
            commands,
            context,
            stage: Stage::Ready,
            asked: 0,
            stopped: false,
            spare,
        })
    }

    /// The seat of a lane in any state, with its log lost. What the lane had in hand is spent.
    pub fn abandon(self) -> PoolSeat
        ensures { result ≡ seat_of self }
    {
        let (seat, spare) = self.into_seat();
        spare.end();
        seat
    }

    /// The same, and the room that the lane kept for the seats of all.
    pub(crate) fn into_seat(self) -> (PoolSeat, Spare)
        ensures { result ≡ (self.context.seat, self.spare) }
    {
        let Lane {
            commands: _,
            context,
            stage,
            asked: _,
            stopped: _,
            spare,
        } = self;
        spend(stage);
        (context.into_seat(), spare)
    }

    /// The commands and the log of a lane that has finished, and its seat.
    pub fn into_log(self) -> (CommandList, LaneLog, PoolSeat)
        requires { IsFinished self }
        ensures commands { result.0 ≡ commands_of self }
        ensures replies { result.1.replies ≡ replies_of self }
        ensures notes { result.1.notes ≡ noted_by self }
        ensures seat { result.2 ≡ seat_of self }
    {
        let (commands, log, seat, spare) = self.into_parts();
        spare.end();
        (commands, log, seat)
    }

    /// The same, and the room that the lane kept for the seats of all.
    pub(crate) fn into_parts(self) -> (CommandList, LaneLog, PoolSeat, Spare)
        requires { IsFinished self }
        ensures commands { result.0 ≡ self.commands }
        ensures replies { result.1.replies ≡ self.context.replies.items }
        ensures notes { result.1.notes ≡ self.context.notes.items }
        ensures seat { result.2 ≡ self.context.seat }
        ensures spare { result.3 ≡ self.spare }
    {
        let Lane {
            commands,
            context,
            stage,
            asked: _,
            stopped: _,
            spare,
        } = self;
        let Stage::Closing(Draining::Done) = stage else {
            unreachable!()
        };
        let (seat, replies, notes) = context.into_log();
        let log = LaneLog {
            replies: ReplyList::of(replies),
            notes: NoteList::of(notes),
        };
        (commands, log, seat, spare)
    }
}

// What a lane is made of beside its commands and its seat.
struct Parts {
    classes: SizeClasses,
    composes: bool,
    names: Names,
    counts: OwnCounts,
    sampler: Sampler,
    log: (Vec<Answered>, Vec<Note>),
    spare: Spare,
}

fn equipped(
    alloc: Global,
    commands: &CommandList,
    shape: &Shape,
    seat: &PoolSeat,
) -> Result<Parts, AllocError>
    requires shape { IsShape shape.now }
    requires few { length commands.now ≤ 65536 }
    requires lane { IsSome (view_of seat.now).own.number }
    ensures { IfOk result (AreParts shape.now (lane_of seat.now) commands.now) }
{
    let classes = SizeClasses::new(alloc, shape.order, shape.page)?;
    let composes = makes_composites(commands.items());
    let names = Names::new(alloc, name_count(commands.items()))?;
    let counts = OwnCounts::new(alloc, shape.lanes * shape.handles)?;
    let replies = Vec::with_capacity(alloc, commands.items().len())?;
    let notes = Vec::with_capacity(alloc, note_bound(commands.items(), composes))?;
    let spare = Spare::new(alloc, shape.lanes as usize)?;
    Ok(Parts {
        classes,
        composes,
        names,
        counts,
        sampler: Sampler::new(lane_of(seat), shape.level, shape.interval),
        log: (replies, notes),
        spare,
    })
}
