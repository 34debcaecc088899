//! How a lane asks the root of a view for more capacity, up to the end of which the view then
//! reaches. (Netty: `PooledByteBuf.capacity`)

ghost use Rattle.std.specs.Prelude.{◌≡◌, ◌<◌, length};
ghost use Rattle.pool_law.specs.declared.command.Command.{Command};
ghost use Rattle.shared_pool.specs.declared.pool.SharedPool.{SharedPool};
ghost use Rattle.lane_context.specs.ContextSteps.{MayGoOn, MayTurn, StageTurns, Turns};
ghost use Rattle.lane_context.specs.Contexts.{left_for};
ghost use Rattle.lane_stages.specs.Growings as growing;
ghost use Rattle.lane_context.specs.declared.context.Stage.{Stage};
ghost use Rattle.lane_context.specs.declared.context.Turn.{Turn};

use crate::access::{Refusal, counted};
use crate::bound::Bound;
use crate::context::{Context, Stage, Turn};
use byte_view::View;
use lane_stages::{Growing, Regrown, StageStep, grow};
use pool_law::{Command, Reply};
use shared_pool::SharedPool;

// How many allocations asked a cache, with one that is about to do what its stage says.
fn asked_with(stage: &Growing, asked: u32) -> u32
    requires { asked < 4294967295 }
    ensures { result ≡ growing.asks_of stage.now asked }
{
    match stage {
        Growing::Cache => asked + 1,
        _ => asked,
    }
}

impl Context {
    /// Asks the root of a name's view for so much capacity.
    pub(crate) fn lengthen(&mut self, pool: &SharedPool, name: u32, size: u32) -> Turn
        requires may { MayTurn pool.now (left_for self.old.composes (Command.Capacity name size))
            self.old }
        ensures { Turns pool.now self.old self.new (Command.Capacity name size) result }
    {
        let view = match counted(&self.names, &self.counts, name) {
            Ok(view) => view.duplicate(),
            Err(refusal) => return self.refuse(refusal),
        };
        let Some(class) = self.classes.class_of(size) else {
            return self.refuse(Refusal::TooLarge);
        };
        self.regrow(pool, name, view, size, class, Growing::Ask)
    }

    /// Goes on with that. Once the root has so much, the view reaches up to its end.
    pub(crate) fn regrow(
        &mut self,
        pool: &SharedPool,
        name: u32,
        mut view: View,
        size: u32,
        class: u32,
        stage: Growing,
    ) -> Turn
        requires may { MayGoOn pool.now (Stage.Growing name view size class stage) self.old }
        ensures { StageTurns pool.now self.old self.new
            (Stage.Growing name view size class stage) result }
    {
        self.asked = asked_with(&stage, self.asked);
        let root = view.at.root;
        let step = grow(
            pool,
            &self.shape,
            &mut self.seat,
            &mut self.notes,
            root,
            size,
            class,
            stage,
        );
        match step {
            StageStep::More(stage) => Turn::Went(Stage::Growing {
                name,
                view,
                size,
                class,
                stage,
            }),
            StageStep::Held(held, stage) => {
                let next = Stage::Growing {
                    name,
                    view,
                    size,
                    class,
                    stage,
                };
                Turn::Pending(held, next)
            }
            StageStep::Done(Regrown::Has(capacity)) => {
                view.reach(capacity);
                self.names.bind(name, Bound::Plain(view));
                self.conclude(Reply::OkNumber(capacity))
            }
            StageStep::Done(Regrown::Full) => self.conclude(Reply::Full),
        }
    }
}
