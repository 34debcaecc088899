//! How a lane counts the roots of its names: it retains, releases, looks and forgets.

ghost use Rattle.std.specs.Prelude.{◌≡◌, ◌+◌, ◌-◌, ◌<◌, length, Some, None, vec_capacity};
ghost use Rattle.pool_law.specs.Composites.{Composite};
ghost use Rattle.pool_law.specs.LaneStates.{LaneState};
ghost use Rattle.pool_law.specs.Names.{Composed as Whole};
ghost use Rattle.pool_law.specs.declared.command.Command.{Command};
ghost use Rattle.seat_work.specs.Hands.{empty_hand};
ghost use Rattle.lane_stages.specs.Allotments.{left_with};
ghost use Rattle.lane_stages.specs.Counting.{counted};
ghost use Rattle.lane_context.specs.ContextSteps.{CanAnswer, recounted, HasReplied, HasRetained, MayTurn, Turns};
ghost use Rattle.lane_context.specs.declared.context.Turn.{Turn};
ghost use Rattle.shared_pool.specs.declared.pool.SharedPool.{SharedPool};
ghost use Rattle.lane_context.specs.Named.{bound_at, NamesAre};
ghost use Rattle.lane_stages.specs.Endings as ending;
ghost use Rattle.lane_context.specs.Contexts.{IsContext, hand_of, Fits, HasRoomFor, left_for, HasTurned};
ghost use Rattle.lane_context.specs.Composing.{HasLast};
ghost use Rattle.lane_context.specs.declared.context.Stage.{Stage};

use crate::access::{Owned, Refusal, counted, own_count};
use crate::context::{Context, Stage, Turn, waits};
use byte_view::View;
use lane_stages::{Ending, StageStep, end, note_at, note_to};
use pool_law::{Command, Did, Held, Object, RefDid, Reply, RootId};
use shared_pool::{Release, SharedPool, Went};

impl Context {
    // One count more of a root.
    pub(crate) fn count_more(&mut self, pool: &SharedPool, root: RootId)
        requires context { IsContext pool.now empty_hand self.old }
        requires room { HasRoomFor pool.now self.old (left_with 1 0 0 1) }
        requires counts { 0 < counted self.old.counts root }
        ensures { HasRetained pool.now self.old self.new root }
    {
        pool.retain(&mut self.seat, root);
        self.note(note_to(root, RefDid::Retain));
        self.counts.add(root);
    }

    // Gives the composite of a name another count of its own, and answers that.
    pub(crate) fn recount(&mut self, name: u32, count: u32, reply: Reply) -> Turn
        requires may { CanAnswer self.old }
        requires composed { (c : Composite) × (bound_at self.old.names name ≡ Some (Whole c)) }
        ensures replied { (c : Composite) → bound_at self.old.names name ≡ Some (Whole c) →
            HasReplied (recounted self.old name c count) self.new reply }
        ensures ready { result ≡ Turn.Went Stage.Ready }
    {
        self.names.recount(name, count);
        self.answer(reply)
    }

    pub(crate) fn retain(&mut self, pool: &SharedPool, name: u32) -> Turn
        requires may { MayTurn pool.now (left_for self.old.composes (Command.Retain name))
            self.old }
        requires few { length self.old.replies.items < 65536 }
        ensures { Turns pool.now self.old self.new (Command.Retain name) result }
    {
        let root = match own_count(&self.names, &self.counts, name) {
            Ok(Owned::View(view)) => view.root,
            Ok(Owned::Composite(count)) => return self.recount(name, count + 1, Reply::Ok),
            Err(refusal) => return self.refuse(refusal),
        };
        self.count_more(pool, root);
        self.answer(Reply::Ok)
    }

    pub(crate) fn release(&mut self, pool: &SharedPool, name: u32) -> Turn
        requires may { MayTurn pool.now (left_for self.old.composes (Command.Release name))
            self.old }
        requires plain { HasLast self.old.names name → ⊥ }
        ensures { Turns pool.now self.old self.new (Command.Release name) result }
    {
        let root = match own_count(&self.names, &self.counts, name) {
            Ok(Owned::View(view)) => view.root,
            Ok(Owned::Composite(1)) => unreachable!(),
            Ok(Owned::Composite(count)) => return self.recount(name, count - 1, Reply::Kept),
            Err(refusal) => return self.refuse(refusal),
        };
        let release = pool.release(&mut self.seat, root);
        self.counts.take(root);
        match release {
            Release::Kept => {
                self.note(note_to(root, RefDid::Kept));
                self.answer(Reply::Kept)
            }
            Release::Ended(token) => {
                self.note(note_to(root, RefDid::Ended));
                Turn::Went(Stage::Ending(Ending::Root(token)))
            }
        }
    }

    /// Goes on with the end of a root.
    pub(crate) fn end(&mut self, pool: &SharedPool, stage: Ending) -> Turn
        requires context { IsContext pool.now (hand_of (Stage.Ending stage)) self.old }
        requires fits { Fits pool.now self.old (Stage.Ending stage) }
        requires room { HasRoomFor pool.now self.old (ending.left_of stage) }
        requires replies { length self.old.replies.items < vec_capacity self.old.replies }
        ensures { (s : LaneState) (command : Command) → NamesAre s.names self.old.names →
            HasTurned pool.now self.old self.new s command (Stage.Ending stage) result }
    {
        match end(pool, &mut self.seat, &mut self.notes, stage) {
            StageStep::More(stage) => Turn::Went(Stage::Ending(stage)),
            StageStep::Held(held, stage) => Turn::Pending(held, Stage::Ending(stage)),
            StageStep::Done(()) => self.answer(Reply::Freed),
        }
    }

    pub(crate) fn look(&mut self, pool: &SharedPool, name: u32) -> Turn
        requires { MayTurn pool.now (left_for self.old.composes (Command.Refcnt name)) self.old }
        ensures { Turns pool.now self.old self.new (Command.Refcnt name) result }
    {
        let root = match own_count(&self.names, &self.counts, name) {
            Ok(Owned::View(view)) => view.root,
            Ok(Owned::Composite(count)) => return self.answer(Reply::OkNumber(count)),
            Err(refusal) => return self.refuse(refusal),
        };
        let count = pool.look(&mut self.seat, root);
        self.note(note_to(root, RefDid::Look(count)));
        self.answer(Reply::OkNumber(count))
    }

    pub(crate) fn touch(&mut self, pool: &SharedPool, name: u32) -> Turn
        requires { MayTurn pool.now (left_for self.old.composes (Command.Touch name)) self.old }
        ensures { Turns pool.now self.old self.new (Command.Touch name) result }
    {
        let root = match counted(&self.names, &self.counts, name) {
            Ok(view) => view.at.root,
            Err(refusal) => return self.refuse(refusal),
        };
        match pool.touch(&mut self.seat, root) {
            Went::Did(number, ()) => {
                self.note(note_at(Object::Root(root.place), number, Did::Touch));
                self.answer(Reply::Ok)
            }
            Went::Held(held, ()) => waits(held),
        }
    }

    pub(crate) fn forget(&mut self, name: u32) -> Turn
        requires may { CanAnswer self.old }
        requires name { name < length self.old.names }
        ensures { (pool : SharedPool) →
            MayTurn pool (left_for self.old.composes (Command.Forget name)) self.old →
            Turns pool self.old self.new (Command.Forget name) result }
    {
        let None = self.names.get(name) else {
            self.names.unbind(name);
            return self.answer(Reply::Ok);
        };
        self.refuse(Refusal::Unbound)
    }
}
