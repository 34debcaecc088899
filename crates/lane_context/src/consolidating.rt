//! How a lane moves a composite that has too many parts to a root of its own.

ghost use Rattle.std.specs.Prelude.{◌≡◌};
ghost use Rattle.pool_law.specs.Composites.{size_of};
ghost use Rattle.lane_context.specs.Composing.{IsMoved};
ghost use Rattle.lane_context.specs.ContextSteps.{MayGoOn, StageTurns};
ghost use Rattle.lane_context.specs.declared.context.Stage.{Stage};

use crate::allocating::asked_with;
use crate::composed::Composed;
use crate::context::{Context, Stage, Turn};
use crate::work::Consolidation;
use crate::working::all_of;
use lane_stages::{
    Allotted, Allotting, Copying, Releasing, StageStep, allot, copy, next_of, release, unfinished,
};
use pool_law::{Part, Reply, RootId};
use shared_pool::SharedPool;

// What follows once a root is there for the bytes of a composite: its parts are copied, or where
// all of them are empty they are released.
fn copying_to(root: RootId, plan: Consolidation) -> Stage
    requires { root.capacity ≡ size_of plan.whole.value.parts }
    ensures { IsMoved plan root result }
{
    let Consolidation {
        name,
        mut whole,
        size: _,
        class: _,
        transfers,
        parts,
    } = plan;
    whole.move_to(root);
    match next_of(transfers) {
        Some((first, later)) => Stage::Copying {
            name,
            whole,
            parts,
            stage: Copying::Get {
                root,
                at: 0,
                first,
                later,
            },
        },
        None => Stage::Replacing {
            name,
            whole,
            stage: all_of(parts),
        },
    }
}

impl Context {
    /// Goes on with the allotment of a root for a composite of too many parts.
    pub(crate) fn consolidate(
        &mut self,
        pool: &SharedPool,
        plan: Consolidation,
        stage: Allotting,
    ) -> Turn
        requires may { MayGoOn pool.now (Stage.Consolidating plan stage) self.old }
        ensures { StageTurns pool.now self.old self.new (Stage.Consolidating plan stage) result }
    {
        self.asked = asked_with(&stage, self.asked);
        let step = allot(
            pool,
            &self.shape,
            &mut self.seat,
            &mut self.sampler,
            &mut self.notes,
            plan.size,
            plan.class,
            stage,
        );
        match step {
            StageStep::More(stage) => Turn::Went(Stage::Consolidating { plan, stage }),
            StageStep::Held(held, stage) => {
                let next = Stage::Consolidating { plan, stage };
                Turn::Pending(held, next)
            }
            StageStep::Done(Allotted::New(root, _region)) => {
                self.counts.add(root);
                Turn::Went(copying_to(root, plan))
            }
            StageStep::Done(Allotted::NoHandle) => self.conclude(Reply::Handles),
            StageStep::Done(Allotted::Full) => self.conclude(Reply::Full),
        }
    }

    /// Copies the next part of a composite to its new root.
    pub(crate) fn copy(
        &mut self,
        pool: &SharedPool,
        name: u32,
        whole: Box<Composed>,
        parts: Vec<Part>,
        stage: Copying,
    ) -> Turn
        requires may { MayGoOn pool.now (Stage.Copying name whole parts stage) self.old }
        ensures { StageTurns pool.now self.old self.new
            (Stage.Copying name whole parts stage) result }
    {
        match copy(pool, &mut self.seat, &mut self.notes, stage) {
            StageStep::More(stage) => Turn::Went(Stage::Copying {
                name,
                whole,
                parts,
                stage,
            }),
            StageStep::Held(held, stage) => {
                let next = Stage::Copying {
                    name,
                    whole,
                    parts,
                    stage,
                };
                Turn::Pending(held, next)
            }
            StageStep::Done(()) => {
                let stage = all_of(parts);
                Turn::Went(Stage::Replacing { name, whole, stage })
            }
        }
    }

    /// Releases the next part of those that were copied. Some root of them is counted; behind the
    /// last of those the name is bound.
    pub(crate) fn replace(
        &mut self,
        pool: &SharedPool,
        name: u32,
        whole: Box<Composed>,
        stage: Releasing,
    ) -> Turn
        requires may { MayGoOn pool.now (Stage.Replacing name whole stage) self.old }
        ensures { StageTurns pool.now self.old self.new (Stage.Replacing name whole stage) result }
    {
        match release(
            pool,
            &mut self.seat,
            &mut self.counts,
            &mut self.notes,
            stage,
        ) {
            StageStep::More(stage) => match unfinished(&self.counts, stage) {
                Some(stage) => Turn::Went(Stage::Replacing { name, whole, stage }),
                None => self.bind(name, whole),
            },
            StageStep::Held(held, stage) => {
                let next = Stage::Replacing { name, whole, stage };
                Turn::Pending(held, next)
            }
            StageStep::Done(()) => unreachable!(),
        }
    }
}
