//! How a lane works on bytes: it sets and gets what a view or a composite has, and derives views.

ghost use Rattle.std.specs.Prelude.{◌≡◌, ◌-◌, ◌<◌, length, vec_capacity};
ghost use Rattle.pool_law.specs.LaneLaw.{sweep_period};
ghost use Rattle.pool_law.specs.LaneStates.{LaneState};
ghost use Rattle.pool_law.specs.declared.command.Command.{Command};
ghost use Rattle.seat_work.specs.Hands.{empty_hand};
ghost use Rattle.lane_context.specs.Accesses.{IsState, Reaches, AccessIsReady, IsPrepared};
ghost use Rattle.lane_context.specs.declared.access.Access.TheVariants.{Set, Get};
ghost use Rattle.lane_context.specs.ContextSteps.{CanAnswer, FindsBusy, MayTurn, Turns, AccessTurns};
ghost use Rattle.lane_context.specs.declared.context.Turn.{Turn};
ghost use Rattle.shared_pool.specs.declared.pool.SharedPool.{SharedPool};
ghost use Rattle.lane_context.specs.Contexts.{IsContext, HasRoomFor, left_for, AccessFits, HasTurned};
ghost use Rattle.lane_context.specs.declared.context.Stage.{Stage};
ghost use Rattle.lane_stages.specs.Budgets.{notes_alone};
ghost use Rattle.lane_context.specs.Named.{known_to};

use crate::access::{Access, Reach, Refusal, derived};
use crate::bound::Bound;
use crate::context::{Context, Stage, Turn, waits};
use lane_stages::note_at;
use pool_law::{Bytes, Command, Did, Held, Note, Object, Reply};
use shared_pool::{SharedPool, Went};

impl Context {
    /// Accesses bytes, or answers why not.
    pub fn access(&mut self, pool: &SharedPool, access: Access) -> Turn
        requires context { IsContext pool.now empty_hand self.old }
        requires room { HasRoomFor pool.now self.old (notes_alone 1) }
        requires replies { length self.old.replies.items < vec_capacity self.old.replies }
        requires ready { AccessIsReady (known_to self.old.seat) self.old.counts access }
        requires asked { self.old.asked < sweep_period }
        requires name { AccessFits self.old access }
        ensures { (s : LaneState) (command : Command) → IsState s self.old.names self.old.counts →
            IsPrepared self.old.names self.old.counts command access s →
            HasTurned pool.now self.old self.new s command Stage.Ready result }
    {
        match access {
            Access::Refused(refusal) => self.refuse(refusal),
            Access::Set(reach, bytes) => self.set(pool, reach, bytes),
            Access::Get(reach, note, reply) => self.get(pool, reach, note, reply),
        }
    }

    fn set(&mut self, pool: &SharedPool, reach: Reach, bytes: Vec<u8>) -> Turn
        requires may { MayTurn pool.now (notes_alone 1) self.old }
        requires reaches { Reaches (known_to self.old.seat) self.old.counts (length bytes.items)
            reach }
        requires name { reach.name < length self.old.names }
        ensures { AccessTurns pool.now self.old self.new (Set reach bytes) result }
    {
        let offset = reach.offset;
        let root = reach.root;
        match pool.write(&mut self.seat, root, offset, &bytes, reach.tries) {
            Went::Did(number, ()) => {
                let bytes = Bytes::of(bytes);
                self.note(note_at(Object::Root(root.place), number, Did::Set { offset, bytes }));
                self.names.bind(reach.name, Bound::Plain(reach.after));
                self.answer(Reply::Ok)
            }
            Went::Held(held, ()) => self.find_busy(reach.tries, held),
        }
    }

    pub(crate) fn get(
        &mut self,
        pool: &SharedPool,
        reach: Reach,
        mut note: Vec<u8>,
        mut reply: Vec<u8>,
    ) -> Turn
        requires may { MayTurn pool.now (notes_alone 1) self.old }
        requires reaches { Reaches (known_to self.old.seat) self.old.counts (length note.items)
            reach }
        requires reply { length reply.items ≡ length note.items }
        requires name { reach.name < length self.old.names }
        ensures { AccessTurns pool.now self.old self.new (Get reach note reply) result }
    {
        let offset = reach.offset;
        let root = reach.root;
        match pool.read(&mut self.seat, root, offset, &mut note, reach.tries) {
            Went::Did(number, ()) => {
                reply.copy_from_slice(&note);
                let bytes = Bytes::of(note);
                self.note(note_at(Object::Root(root.place), number, Did::Get { offset, bytes }));
                self.names.bind(reach.name, Bound::Plain(reach.after));
                self.answer(Reply::OkBytes(Bytes::of(reply)))
            }
            Went::Held(held, ()) => self.find_busy(reach.tries, held),
        }
    }

    // Another seat was at the root: a command that only tries says so, another waits.
    fn find_busy(&mut self, tries: bool, held: Held) -> Turn
        requires may { CanAnswer self.old }
        requires room { length self.old.notes.items < vec_capacity self.old.notes }
        requires few { length self.old.notes.items < 4294967295 }
        ensures { FindsBusy tries self.old self.new held result }
    {
        if !tries {
            return waits(held);
        }
        self.note(Note::Busy(held));
        self.answer(Reply::Busy(held.number))
    }

    pub(crate) fn slice(
        &mut self,
        pool: &SharedPool,
        fresh: u32,
        name: u32,
        range: (u32, u32),
        retained: bool,
    ) -> Turn
        requires may { MayTurn pool.now
            (left_for self.old.composes (Command.Slice fresh name range.0 range.1 retained))
            self.old }
        requires name { fresh < length self.old.names }
        ensures { let command = Command.Slice fresh name range.0 range.1 retained in
            Turns pool.now self.old self.new command result }
    {
        let view = match derived(&self.names, &self.counts, fresh, name) {
            Ok(view) => view,
            Err(refusal) => return self.refuse(refusal),
        };
        let Ok(slice) = view.slice(range.0, range.1) else {
            return self.refuse(Refusal::Range);
        };
        if retained {
            self.count_more(pool, slice.at.root);
        }
        self.names.bind(fresh, Bound::Plain(slice));
        self.answer(Reply::Ok)
    }

    pub(crate) fn duplicate(&mut self, fresh: u32, name: u32) -> Turn
        requires may { CanAnswer self.old }
        requires name { fresh < length self.old.names }
        ensures { (pool : SharedPool) →
            MayTurn pool (left_for self.old.composes (Command.Dup fresh name)) self.old →
            Turns pool self.old self.new (Command.Dup fresh name) result }
    {
        let view = match derived(&self.names, &self.counts, fresh, name) {
            Ok(view) => view.duplicate(),
            Err(refusal) => return self.refuse(refusal),
        };
        self.names.bind(fresh, Bound::Plain(view));
        self.answer(Reply::Ok)
    }
}
