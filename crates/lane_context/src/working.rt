//! How a lane works on its composites: it sets and gets their bytes, releases their parts, and
//! consolidates what has too many. (Netty: `CompositeByteBuf`)

ghost use Rattle.std.specs.Prelude.{◌≡◌};
ghost use Rattle.pool_law.specs.Composites.{size_of};
ghost use Rattle.pool_law.specs.declared.run.Reply.{Reply};
ghost use Rattle.lane_context.specs.Composing.{IsBindable, MarksFit};
ghost use Rattle.lane_context.specs.ContextSteps.{CanAnswer, Concludes, HasMarked, MayGoOn, MayTurn, StageTurns, bound_to};
ghost use Rattle.lane_context.specs.Works.{IsReady, WorkTurns, left_of};
ghost use Rattle.lane_context.specs.declared.context.Stage.{Stage};

use crate::bound::Bound;
use crate::composed::{Composed, Marks};
use crate::context::{Context, Stage, Turn};
use crate::work::Work;
use lane_stages::{Allotting, Crossed, Crossing, Releasing, StageStep, cross, release};
use pool_law::{Bytes, Part, Reply};
use shared_pool::SharedPool;

/// The parts that are released, of which none is under way.
pub(crate) fn all_of(parts: Vec<Part>) -> Releasing
    ensures ending { result.ending ≡ None }
    ensures left { result.left ≡ parts }
{
    Releasing {
        ending: None,
        left: parts,
    }
}

impl Context {
    /// Begins what was planned.
    pub fn work(&mut self, pool: &SharedPool, work: Work) -> Turn
        requires may { MayTurn pool.now (left_of work) self.old }
        requires ready { IsReady self.old work }
        ensures { WorkTurns pool.now self.old self.new work result }
    {
        match work {
            Work::Refused(refusal) => self.refuse(refusal),
            Work::Empty { name, marks, reply } => {
                self.mark(name, marks);
                self.answer(reply)
            }
            Work::Cross { name, marks, stage } => self.cross(pool, name, marks, stage),
            Work::End { name, parts } => self.part(pool, name, all_of(parts)),
            Work::Bind { name, whole } => self.bind(name, whole),
            Work::Consolidate(plan) => self.consolidate(pool, plan, Allotting::Handle),
        }
    }

    // Moves the reader and the writer of a composite, if they move.
    fn mark(&mut self, name: u32, marks: Option<Marks>)
        requires { MarksFit self.old.names name marks }
        ensures { HasMarked self.old self.new name marks }
    {
        if let Some(marks) = marks {
            self.names.mark(name, marks);
        }
    }

    // Binds a name to a composite, and answers how long it is.
    pub(crate) fn bind(&mut self, name: u32, whole: Box<Composed>) -> Turn
        requires may { CanAnswer self.old }
        requires whole { IsBindable self.old name whole.value }
        ensures { Concludes (bound_to self.old name whole.value) self.new
            (Reply.OkNumber (size_of whole.value.parts)) result }
    {
        let len = whole.len();
        self.names.bind(name, Bound::Composed(whole));
        self.conclude(Reply::OkNumber(len))
    }

    /// Sets or gets the next part of a range.
    pub(crate) fn cross(
        &mut self,
        pool: &SharedPool,
        name: u32,
        marks: Option<Marks>,
        stage: Crossing,
    ) -> Turn
        requires may { MayGoOn pool.now (Stage.Crossing name marks stage) self.old }
        ensures { StageTurns pool.now self.old self.new (Stage.Crossing name marks stage) result }
    {
        match cross(pool, &mut self.seat, &mut self.notes, stage) {
            StageStep::More(stage) => Turn::Went(Stage::Crossing { name, marks, stage }),
            StageStep::Held(held, stage) => {
                let next = Stage::Crossing { name, marks, stage };
                Turn::Pending(held, next)
            }
            StageStep::Done(Crossed::Set) => {
                self.mark(name, marks);
                self.answer(Reply::Ok)
            }
            StageStep::Done(Crossed::Got(got)) => {
                self.mark(name, marks);
                self.answer(Reply::OkBytes(Bytes::of(got)))
            }
        }
    }

    /// Releases the next part of a composite that ends.
    pub(crate) fn part(&mut self, pool: &SharedPool, name: u32, stage: Releasing) -> Turn
        requires may { MayGoOn pool.now (Stage.Parting name stage) self.old }
        ensures { StageTurns pool.now self.old self.new (Stage.Parting name stage) result }
    {
        match release(
            pool,
            &mut self.seat,
            &mut self.counts,
            &mut self.notes,
            stage,
        ) {
            StageStep::More(stage) => Turn::Went(Stage::Parting { name, stage }),
            StageStep::Held(held, stage) => Turn::Pending(held, Stage::Parting { name, stage }),
            StageStep::Done(()) => self.recount(name, 0, Reply::Freed),
        }
    }
}
