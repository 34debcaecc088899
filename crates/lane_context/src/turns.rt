//! How a command is begun, and gone on with.

ghost use Rattle.std.specs.Prelude.{◌<◌, length, vec_capacity};
ghost use Rattle.pool_law.specs.LaneLaw.{sweep_period};
ghost use Rattle.pool_law.specs.LaneStates.{LaneState};
ghost use Rattle.pool_law.specs.declared.command.Command.{Command};
ghost use Rattle.seat_work.specs.Hands.{empty_hand};
ghost use Rattle.lane_context.specs.Accesses.{IsState, IsAccess};
ghost use Rattle.lane_context.specs.Named.{NamesAre};
ghost use Rattle.lane_context.specs.Contexts.{IsContext, hand_of, Fits, FitsContext, HasRoomFor, left_for, left_from, IsUnderway, NameFits, HasTurned};
ghost use Rattle.lane_context.specs.Works.{IsUnplanned};
ghost use Rattle.lane_context.specs.declared.context.Stage.{Stage};

use crate::context::{Context, Stage, Turn};
use pool_law::Command;
use shared_pool::SharedPool;
use std::sync::Wait;

impl Context {
    /// Begins a command that accesses no bytes.
    pub fn obey<W: Wait>(&mut self, rt: &W, pool: &SharedPool, command: &Command) -> Turn
        requires context { IsContext pool.now empty_hand self.old }
        requires room { HasRoomFor pool.now self.old (left_for self.old.composes command.now) }
        requires replies { length self.old.replies.items < vec_capacity self.old.replies }
        requires fits { FitsContext self.old command.now }
        requires other { IsAccess command.now → ⊥ }
        requires asked { self.old.asked < sweep_period }
        requires few { length self.old.replies.items < 65536 }
        requires plain { IsUnplanned self.old.names command.now }
        ensures { (s : LaneState) → IsState s self.old.names self.old.counts →
            HasTurned pool.now self.old self.new s command.now Stage.Ready result }
    {
        match command {
            Command::Alloc { name, size } => self.alloc(pool, *name, *size),
            Command::Slice {
                fresh,
                name,
                at,
                len,
                retained,
            } => self.slice(pool, *fresh, *name, (*at, *len), *retained),
            Command::Dup { fresh, name } => self.duplicate(*fresh, *name),
            Command::Retain { name } => self.retain(pool, *name),
            Command::Release { name } => self.release(pool, *name),
            Command::Refcnt { name } => self.look(pool, *name),
            Command::Touch { name } => self.touch(pool, *name),
            Command::Forget { name } => self.forget(*name),
            Command::Send { name, lane } => self.send(rt, pool, *name, *lane),
            Command::Recv { fresh, lane } => self.receive(rt, pool, *fresh, *lane),
            Command::Capacity { name, size } => self.lengthen(pool, *name, *size),
            _ => unreachable!(),
        }
    }

    /// Goes on with a command that was begun.
    pub fn go_on(&mut self, pool: &SharedPool, stage: Stage) -> Turn
        requires context { IsContext pool.now (hand_of stage) self.old }
        requires fits { Fits pool.now self.old stage }
        requires begun { IsUnderway stage }
        requires room { (command : Command) →
            HasRoomFor pool.now self.old (left_from self.old command stage) }
        requires replies { length self.old.replies.items < vec_capacity self.old.replies }
        requires name { NameFits self.old stage }
        ensures { (s : LaneState) (command : Command) → NamesAre s.names self.old.names →
            HasTurned pool.now self.old self.new s command stage result }
    {
        match stage {
            Stage::Allotting {
                name,
                size,
                class,
                stage,
            } => self.allot(pool, name, size, class, stage),
            Stage::Ending(stage) => self.end(pool, stage),
            Stage::Sweeping { reply, stage } => self.sweep(pool, reply, stage),
            Stage::Crossing { name, marks, stage } => self.cross(pool, name, marks, stage),
            Stage::Parting { name, stage } => self.part(pool, name, stage),
            Stage::Consolidating { plan, stage } => self.consolidate(pool, plan, stage),
            Stage::Copying {
                name,
                whole,
                parts,
                stage,
            } => self.copy(pool, name, whole, parts, stage),
            Stage::Replacing { name, whole, stage } => self.replace(pool, name, whole, stage),
            Stage::Growing {
                name,
                view,
                size,
                class,
                stage,
            } => self.regrow(pool, name, view, size, class, stage),
            _ => unreachable!(),
        }
    }
}
