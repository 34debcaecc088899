//! How a lane sweeps its caches, and how it closes them.

ghost use Rattle.std.specs.Prelude.{◌≢◌, ◌<◌, length, vec_capacity};
ghost use Rattle.pool_law.specs.LaneStates.{LaneState};
ghost use Rattle.pool_law.specs.declared.command.Command.{Command};
ghost use Rattle.lane_context.specs.Named.{NamesAre};
ghost use Rattle.lane_stages.specs.Drainings as draining;
ghost use Rattle.lane_context.specs.Contexts.{IsContext, hand_of, Fits, HasRoomFor, left_draining, HasTurned, HasTurnedClosing};
ghost use Rattle.lane_context.specs.declared.context.Stage.{Stage};
ghost use Rattle.lane_stages.specs.declared.draining.DrainKind.TheVariants.{Close};
ghost use Rattle.lane_stages.specs.declared.draining.Draining.{Draining};

use crate::context::{Context, Stage, Turn};
use lane_stages::{DrainKind, Draining, Drains, drain};
use pool_law::Reply;
use shared_pool::SharedPool;

impl Context {
    /// Goes on with a sweep of the caches, behind which the command has this reply.
    pub(crate) fn sweep(&mut self, pool: &SharedPool, reply: Reply, stage: Draining) -> Turn
        requires context { IsContext pool.now (hand_of (Stage.Sweeping reply stage)) self.old }
        requires fits { Fits pool.now self.old (Stage.Sweeping reply stage) }
        requires room { HasRoomFor pool.now self.old (left_draining self.old stage) }
        requires replies { length self.old.replies.items < vec_capacity self.old.replies }
        ensures { (s : LaneState) (command : Command) → NamesAre s.names self.old.names →
            HasTurned pool.now self.old self.new s command (Stage.Sweeping reply stage) result }
    {
        match drain(
            pool,
            &mut self.seat,
            &mut self.notes,
            DrainKind::Trim,
            stage,
        ) {
            Drains::More(stage) => match stage {
                Draining::Done => self.answer(reply),
                stage => Turn::Went(Stage::Sweeping { reply, stage }),
            },
            Drains::Held(held, stage) => Turn::Pending(held, Stage::Sweeping { reply, stage }),
        }
    }

    /// Goes on with the closing of the caches.
    pub fn close(&mut self, pool: &SharedPool, stage: Draining) -> Turn
        requires context { IsContext pool.now (draining.hand_of Close stage) self.old }
        requires fits { draining.Fits pool.now self.old.seat stage }
        requires room { HasRoomFor pool.now self.old (left_draining self.old stage) }
        requires more { stage ≢ Draining.Done }
        ensures { HasTurnedClosing pool.now self.old self.new stage result }
    {
        match drain(
            pool,
            &mut self.seat,
            &mut self.notes,
            DrainKind::Close,
            stage,
        ) {
            Drains::More(stage) => Turn::Went(Stage::Closing(stage)),
            Drains::Held(held, stage) => Turn::Pending(held, Stage::Closing(stage)),
        }
    }
}
