//! The steps of a lane: each command in its turn, and the closing of the caches behind them.

ghost use Rattle.std.specs.Prelude.{◌≡◌, ◌+◌, ◌<◌, ◌&&◌, max, nat_le, Bool, IfOk, OnErr, Ok, ℕ};
ghost use Rattle.lane_stages.specs.declared.stepped.Stepped.TheVariants.{Finished};
ghost use Rattle.lane_core.specs.Lanes.{Heeds, IsLane, IsRunningLane, IsStoppedLane, IsFinished, SameLane, number_of};
ghost use Rattle.lane_core.specs.Steps.{HasStepped, at_stage, stepped_of};
ghost use Rattle.lane_context.specs.Contexts.{next_of};
ghost use Rattle.lane_stages.specs.declared.draining.Draining.{Draining};
ghost use Rattle.lane_context.specs.declared.context.Stage.{Stage};

use super::Lane;
use crate::gate::{Gate, Pass};
use crate::prepared::{begin_with, provide};
use lane_context::{Stage, Turn};
use lane_stages::{Draining, Stepped, lane_of};
use shared_pool::SharedPool;
use std::alloc::{AllocError, Global};
use std::mem::replace;
use std::sync::Wait;

impl Lane {
    /// Does the next thing that the lane has to do. It notes at most one section or busy mark, and at
    /// most one step on a reference word; by reading it enters no section that it doesn't note.
    ///
    /// The gate is asked once before each command, until it stops the lane. From then on each command
    /// is answered `Stopped`, and a `send` still posts one empty parcel, so that no lane waits for
    /// ever; nothing is fetched, and what the lane has bound and counts stays.
    pub fn step<W: Wait, G: Gate>(
        &mut self,
        rt: &W,
        alloc: Global,
        pool: &SharedPool,
        gate: &G,
    ) -> Result<Stepped, AllocError>
        requires lane { IsLane pool.now self.old }
        ensures lane { IsLane pool.now self.new }
        ensures same { SameLane self.old self.new }
        ensures stepped { IfOk result (HasStepped pool.now self.old self.new) }
        ensures finished { IsFinished self.old → result ≡ Ok Finished }
        ensures err { OnErr result (self.new ≡ self.old) }
        // A reply is `Stopped` exactly where the gate stops the lane at its line or an earlier one.
        ensures heeds { let stops = G.stops gate.now (number_of self.old) in
            Heeds stops self.old → Heeds stops self.new }
    {
        match replace(&mut self.stage, Stage::Ready) {
            Stage::Ready => self.begin(rt, alloc, pool, gate),
            Stage::Closing(stage) => Ok(self.close(pool, stage)),
            stage => {
                let turn = self.context.go_on(pool, stage);
                Ok(self.after(turn))
            }
        }
    }

    // Begins the next command, or the closing.
    fn begin<W: Wait, G: Gate>(
        &mut self,
        rt: &W,
        alloc: Global,
        pool: &SharedPool,
        gate: &G,
    ) -> Result<Stepped, AllocError>
        requires lane { IsLane pool.now self.old }
        requires ready { self.old.stage ≡ Stage.Ready }
        ensures lane { IsLane pool.now self.new }
        ensures same { SameLane self.old self.new }
        ensures stepped { IfOk result (HasStepped pool.now self.old self.new) }
        ensures err { OnErr result (self.new ≡ self.old) }
        ensures heeds { let stops = G.stops gate.now (number_of self.old) in
            Heeds stops self.old → Heeds stops self.new }
    {
        let stopped = self.stopped;
        if stopped {
            return Ok(self.pass_over(rt, pool));
        }
        self.carry_out(rt, alloc, pool, gate)
    }

    // Begins the next command, unless the gate stops the lane there, or the closing.
    fn carry_out<W: Wait, G: Gate>(
        &mut self,
        rt: &W,
        alloc: Global,
        pool: &SharedPool,
        gate: &G,
    ) -> Result<Stepped, AllocError>
        requires lane { IsRunningLane pool.now self.old }
        requires ready { self.old.stage ≡ Stage.Ready }
        ensures lane { IsLane pool.now self.new }
        ensures same { SameLane self.old self.new }
        ensures stepped { IfOk result (HasStepped pool.now self.old self.new) }
        ensures err { OnErr result (self.new ≡ self.old) }
        ensures heeds { let stops = G.stops gate.now (number_of self.old) in
            Heeds stops self.old → Heeds stops self.new }
    {
        let line = self.context.replies.len();
        let Some(command) = self.commands.items().get(line) else {
            let turn = self.context.close(pool, Draining::Ask { class: 0 });
            return Ok(self.after(turn));
        };
        let prepared = provide(alloc, &self.context, command)?;
        let number = lane_of(&self.context.seat);
        let stops = stops_at(gate, number, line, &mut self.asked);
        if stops {
            self.stopped = true;
            return Ok(self.pass_over(rt, pool));
        }
        let turn = begin_with(rt, &mut self.context, pool, command, prepared);
        Ok(self.after(turn))
    }

    // Passes the next command over, or begins the closing.
    fn pass_over<W: Wait>(&mut self, rt: &W, pool: &SharedPool) -> Stepped
        requires lane { IsStoppedLane pool.now self.old }
        requires ready { self.old.stage ≡ Stage.Ready }
        ensures lane { IsStoppedLane pool.now self.new }
        ensures same { SameLane self.old self.new }
        ensures stepped { HasStepped pool.now self.old self.new result }
        ensures heeds { (stops : ℕ → Bool) → Heeds stops self.old → Heeds stops self.new }
    {
        let line = self.context.replies.len();
        let Some(command) = self.commands.items().get(line) else {
            let turn = self.context.close(pool, Draining::Ask { class: 0 });
            return self.after(turn);
        };
        let turn = self.context.pass_over(rt, pool, command);
        self.after(turn)
    }

    // Goes on with the closing, unless it is done.
    fn close(&mut self, pool: &SharedPool, stage: Draining) -> Stepped
        requires lane { IsLane pool.now (at_stage self.old (Stage.Closing stage)) }
        requires ready { self.old.stage ≡ Stage.Ready }
        ensures lane { IsLane pool.now self.new }
        ensures same { SameLane (at_stage self.old (Stage.Closing stage)) self.new }
        ensures stepped { HasStepped pool.now (at_stage self.old (Stage.Closing stage))
            self.new result }
        ensures finished { stage ≡ Draining.Done → result ≡ Finished }
        ensures heeds { (stops : ℕ → Bool) → Heeds stops (at_stage self.old (Stage.Closing stage)) →
            Heeds stops self.new }
    {
        match stage {
            Draining::Done => {
                self.put(Stage::Closing(Draining::Done));
                Stepped::Finished
            }
            stage => {
                let turn = self.context.close(pool, stage);
                self.after(turn)
            }
        }
    }

    // Keeps what is to be done next, where nothing is kept.
    fn put(&mut self, stage: Stage)
        requires { self.old.stage ≡ Stage.Ready }
        ensures { self.new ≡ at_stage self.old stage }
    {
        match replace(&mut self.stage, stage) {
            Stage::Ready => {}
            _ => unreachable!(),
        }
    }

    // Keeps what is to be done next, and says what the turn came to.
    fn after(&mut self, turn: Turn) -> Stepped
        requires { self.old.stage ≡ Stage.Ready }
        ensures next { self.new ≡ at_stage self.old (next_of Stage.Ready turn) }
        ensures stepped { result ≡ stepped_of turn }
    {
        match turn {
            Turn::Went(stage) => {
                self.put(stage);
                Stepped::Went
            }
            Turn::Pending(held, stage) => {
                self.put(stage);
                Stepped::Pending(held)
            }
            Turn::Waiting { from } => Stepped::Waiting { from },
        }
    }
}

// Asks the gate for a line, unless it was asked and let it pass; answers whether it stops the lane.
fn stops_at<G: Gate>(gate: &G, lane: u32, line: usize, asked: &mut usize) -> bool
    requires few { line < 65536 }
    ensures asked { asked.new ≡ max asked.old (line + 1) }
    ensures stops { result ≡ nat_le asked.old line && G.stops gate.now lane line }
{
    if *asked > line {
        return false;
    }
    *asked = line + 1;
    gate.pass(lane, line as u32) == Pass::Stop
}
