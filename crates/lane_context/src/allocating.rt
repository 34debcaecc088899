//! How a lane allocates: a new name is bound to a root that is made step by step.

ghost use Rattle.std.specs.Prelude.{◌≡◌, ◌<◌, length, vec_capacity};
ghost use Rattle.pool_law.specs.LaneStates.{LaneState};
ghost use Rattle.pool_law.specs.declared.command.Command.{Command};
ghost use Rattle.lane_context.specs.ContextSteps.{MayTurn, Turns};
ghost use Rattle.lane_context.specs.Named.{NamesAre};
ghost use Rattle.lane_stages.specs.Allotments as allotment;
ghost use Rattle.lane_context.specs.Contexts.{IsContext, Fits, HasRoomFor, left_for, HasTurned};
ghost use Rattle.lane_context.specs.declared.context.Stage.{Stage};

use crate::access::Refusal;
use crate::bound::Bound;
use crate::context::{Context, Stage, Turn};
use byte_view::View;
use lane_stages::{Allotted, Allotting, StageStep, allot};
use pool_law::Reply;
use shared_pool::SharedPool;

// How many allocations asked a cache, with one that is about to do what its stage says.
pub(crate) fn asked_with(stage: &Allotting, asked: u32) -> u32
    requires { asked < 4294967295 }
    ensures { result ≡ allotment.asks_of stage.now asked }
{
    match stage {
        Allotting::Cache(_) => asked + 1,
        _ => asked,
    }
}

impl Context {
    pub(crate) fn alloc(&mut self, pool: &SharedPool, name: u32, size: u32) -> Turn
        requires may { MayTurn pool.now (left_for self.old.composes (Command.Alloc name size))
            self.old }
        requires name { name < length self.old.names }
        ensures { Turns pool.now self.old self.new (Command.Alloc name size) result }
    {
        if let Some(_) = self.names.get(name) {
            return self.refuse(Refusal::Taken);
        }
        let Some(class) = self.classes.class_of(size) else {
            return self.answer(Reply::TooLarge);
        };
        self.allot(pool, name, size, class, Allotting::Handle)
    }

    /// Goes on with an allocation.
    pub(crate) fn allot(
        &mut self,
        pool: &SharedPool,
        name: u32,
        size: u32,
        class: u32,
        stage: Allotting,
    ) -> Turn
        requires context { IsContext pool.now (allotment.hand_of stage) self.old }
        requires fits { Fits pool.now self.old (Stage.Allotting name size class stage) }
        requires room { HasRoomFor pool.now self.old (allotment.left_of stage) }
        requires replies { length self.old.replies.items < vec_capacity self.old.replies }
        requires name { name < length self.old.names }
        ensures { (s : LaneState) (command : Command) → NamesAre s.names self.old.names →
            let stage = Stage.Allotting name size class stage in
            HasTurned pool.now self.old self.new s command stage result }
    {
        self.asked = asked_with(&stage, self.asked);
        let step = allot(
            pool,
            &self.shape,
            &mut self.seat,
            &mut self.sampler,
            &mut self.notes,
            size,
            class,
            stage,
        );
        match step {
            StageStep::More(stage) => Turn::Went(Stage::Allotting {
                name,
                size,
                class,
                stage,
            }),
            StageStep::Held(held, stage) => {
                let next = Stage::Allotting {
                    name,
                    size,
                    class,
                    stage,
                };
                Turn::Pending(held, next)
            }
            StageStep::Done(Allotted::New(root, region)) => {
                self.counts.add(root);
                self.names.bind(name, Bound::Plain(View::of_root(root)));
                self.conclude(Reply::OkPlace {
                    size: region.place.len,
                    place: region.place,
                })
            }
            StageStep::Done(Allotted::NoHandle) => self.conclude(Reply::Handles),
            StageStep::Done(Allotted::Full) => self.conclude(Reply::Full),
        }
    }
}
