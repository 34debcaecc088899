//! What a command needs before its first note, and how it begins with that.

ghost use Rattle.std.specs.Prelude.{◌≡◌, ◌+◌, ◌<◌, length, IfOk};
ghost use Rattle.pool_law.specs.Limits.{geometry_of};
ghost use Rattle.pool_law.specs.LaneStates.{LaneState};
ghost use Rattle.lane_context.specs.Accesses.{IsState};
ghost use Rattle.lane_context.specs.Contexts.{FitsContext, left_for};
ghost use Rattle.lane_context.specs.ContextSteps.{MayTurn, Turns};
ghost use Rattle.lane_context.specs.Named.{AreComposites, AreInside, known_to};
ghost use Rattle.lane_core.specs.Prepared.{IsPreparedFor};

use lane_context::{Access, Context, Turn, Work};
use lane_plans::{plan, prepare};
use pool_law::Command;
use shared_pool::SharedPool;
use std::alloc::{AllocError, Global};
use std::sync::Wait;

// What a command needs before its first note.
#[derive(Drop)]
pub(crate) enum Prepared {
    /// It is one on a composite.
    Work(Work),
    /// It accesses the bytes of a view.
    Access(Access),
    /// Nothing.
    Alone,
}

// Takes all memory that the command needs.
pub(crate) fn provide(
    alloc: Global,
    context: &Context,
    command: &Command,
) -> Result<Prepared, AllocError>
    requires composites { AreComposites context.now.composes (1 + length context.now.replies.items)
        context.now.names }
    requires inside { AreInside (known_to context.now.seat) context.now.names }
    requires classes { context.now.classes ≡ geometry_of context.now.shape }
    requires fits { FitsContext context.now command.now }
    ensures { IfOk result (IsPreparedFor context.now command.now) }
{
    if let Some(work) = plan(alloc, context, command)? {
        return Ok(Prepared::Work(work));
    }
    match prepare(alloc, &context.names, &context.counts, command)? {
        Some(access) => Ok(Prepared::Access(access)),
        None => Ok(Prepared::Alone),
    }
}

// Begins the command with what it needs.
pub(crate) fn begin_with<W: Wait>(
    rt: &W,
    context: &mut Context,
    pool: &SharedPool,
    command: &Command,
    prepared: Prepared,
) -> Turn
    requires may { MayTurn pool.now (left_for context.old.composes command.now) context.old }
    requires few { length context.old.replies.items < 65536 }
    requires fits { FitsContext context.old command.now }
    requires prepared { IsPreparedFor context.old command.now prepared }
    requires state { (s : LaneState) × IsState s context.old.names context.old.counts }
    ensures { Turns pool.now context.old context.new command.now result }
{
    match prepared {
        Prepared::Work(work) => context.work(pool, work),
        Prepared::Access(access) => context.access(pool, access),
        Prepared::Alone => context.obey(rt, pool, command),
    }
}
