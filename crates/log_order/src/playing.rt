//! Notes played one after another, as far as they go.

ghost use Rattle.std.specs.Prelude.{◌≡◌, ◌<◌, ◌↔◌, ℕ, nat_lt, Some, length, get_or, slice_get, IfOk, IfSome, OnOk, IsTrue};
ghost use Rattle.pool_law.specs.Logs.{Logs};
ghost use Rattle.log_order.specs.Spots.{notes_in};
ghost use Rattle.log_order.specs.Graphs.{AreNeeds, IsGraph};
ghost use Rattle.log_order.specs.Playing.{IsSoFar, IsOver, IsHeld, IsLeft, MustWait, AreHeld, MovesOn};
ghost use Rattle.log_order.specs.declared.playing.Eager.TheVariants.{Any};

mod looks;

use crate::graph::Graph;
use crate::spots::{Spot, note_at};
use crate::tally::Tally;
use pool_law::LaneLog;
use std::alloc::{AllocError, Global};

/// Which notes may be played: a step that changes a count may spoil what another lane is to look up.
#[derive(Clone, Copy, PartialEq, Eq, Drop)]
pub(crate) enum Eager {
    /// Those that change no count of a living root.
    Quiet,
    /// And those that bring a count nearer to what a lane is to look up.
    Helpful,
    /// All.
    Any,
}

/// What was played: how many notes of each lane, how many steps of each kind, and in which order.
#[derive(Drop)]
pub(crate) struct Playing {
    next: Vec<usize>,
    tally: Tally,
    order: Vec<Spot>,
}

impl Playing {
    /// Nothing was played.
    pub(crate) fn new(alloc: Global, logs: &[LaneLog]) -> Result<Playing, AllocError>
        ensures { IfOk result (λ play. IsSoFar (notes_in logs.now) play) }
    {
        let next = vec![in alloc; 0; logs.len()]?;
        Ok(Playing {
            next,
            tally: Tally::new(alloc),
            order: Vec::new(alloc),
        })
    }

    // The place of a lane's next note.
    fn next_spot(&self, lane: usize) -> Spot
        requires { lane < length self.now.next.items }
        ensures { result ≡ record { lane = lane; at = get_or self.now.next.items lane 0 } }
    {
        Spot {
            lane,
            at: self.next[lane],
        }
    }

    // Whether a note was played.
    fn has_played(&self, spot: &Spot) -> bool
        ensures { result ≡ nat_lt spot.now.at (get_or self.now.next.items spot.now.lane 0) }
    {
        if spot.lane < self.next.len() {
            spot.at < self.next[spot.lane]
        } else {
            false
        }
    }

    // The first of these nodes that was not played.
    fn first_left(&self, graph: &Graph, nodes: &[usize]) -> Option<usize>
        requires { (k node : ℕ) → slice_get nodes.now k ≡ Some node →
            node < length graph.now.spots.items }
        ensures { IfSome result (λ node. (k : ℕ) × (slice_get nodes.now k ≡ Some node)
            × IsLeft graph.now.spots.items self.now.next.items node) }
    {
        for node in nodes {
            if !self.has_played(&graph.spots[*node]) {
                return Some(*node);
            }
        }
        None
    }

    // Whether a note that must stand before this one was not played.
    fn must_wait(&self, graph: &Graph, spot: &Spot) -> bool
        requires { AreNeeds graph.now.spots.items graph.now.needs.items }
        ensures { (logs : Logs) → IsGraph logs graph.now → IsTrue result →
            MustWait logs self.now.next.items spot.now }
    {
        let Some(node) = graph.node_of(spot) else {
            return false;
        };
        let left = self.first_left(graph, &graph.needs[node]);
        left.is_some()
    }

    // Plays the next note of a lane, if it may, need not wait, and fits.
    fn try_lane(
        &mut self,
        logs: &[LaneLog],
        graph: &Graph,
        lane: usize,
        eager: Eager,
    ) -> Result<bool, AllocError>
        requires graph { IsGraph (notes_in logs.now) graph.now }
        requires so_far { IsSoFar (notes_in logs.now) self.old }
        requires lane { lane < length logs.now }
        ensures { IfOk result (λ moved.
            MovesOn (notes_in logs.now) self.old self.new moved
            (eager ≡ Any → IsHeld (notes_in logs.now) self.new lane)) }
    {
        let spot = self.next_spot(lane);
        let Some(note) = note_at(logs, &spot) else {
            return Ok(false);
        };
        if !self.may_go(logs, note, eager) {
            return Ok(false);
        }
        // No list is so long that a count of its places could run over.
        prove!(self.order.len() < usize::MAX);
        if !self.tally.fits(note) {
            return Ok(false);
        }
        if self.must_wait(graph, &spot) {
            return Ok(false);
        }
        self.tally.pass(note)?;
        self.order.push(spot)?;
        self.next[lane] += 1;
        Ok(true)
    }

    // Plays quiet notes of a lane, as far as they go.
    fn run_lane(&mut self, logs: &[LaneLog], graph: &Graph, lane: usize) -> Result<bool, AllocError>
        requires graph { IsGraph (notes_in logs.now) graph.now }
        requires so_far { IsSoFar (notes_in logs.now) self.old }
        requires lane { lane < length logs.now }
        ensures { IfOk result (λ moved.
            MovesOn (notes_in logs.now) self.old self.new moved (Unit {0})) }
    {
        let mut moved = false;
        while self.try_lane(logs, graph, lane, Eager::Quiet)? {
            moved = true;
        }
        Ok(moved)
    }

    // Plays quiet notes of all lanes, as far as they go in turn.
    fn run_lanes(&mut self, logs: &[LaneLog], graph: &Graph) -> Result<bool, AllocError>
        requires graph { IsGraph (notes_in logs.now) graph.now }
        requires so_far { IsSoFar (notes_in logs.now) self.old }
        ensures { IfOk result (λ moved.
            MovesOn (notes_in logs.now) self.old self.new moved (Unit {0})) }
    {
        let mut moved = false;
        for lane in 0..logs.len() {
            let went = self.run_lane(logs, graph, lane)?;
            moved = moved || went;
        }
        Ok(moved)
    }

    // Plays the next note of some lane.
    fn move_one(
        &mut self,
        logs: &[LaneLog],
        graph: &Graph,
        eager: Eager,
    ) -> Result<bool, AllocError>
        requires graph { IsGraph (notes_in logs.now) graph.now }
        requires so_far { IsSoFar (notes_in logs.now) self.old }
        ensures { IfOk result (λ moved. MovesOn (notes_in logs.now) self.old self.new moved
            (eager ≡ Any → AreHeld (notes_in logs.now) self.new)) }
    {
        for lane in 0..logs.len() {
            if self.try_lane(logs, graph, lane, eager)? {
                return Ok(true);
            }
        }
        Ok(false)
    }

    // Plays notes of some lanes, the quiet ones first.
    fn go_on(&mut self, logs: &[LaneLog], graph: &Graph) -> Result<bool, AllocError>
        requires graph { IsGraph (notes_in logs.now) graph.now }
        requires so_far { IsSoFar (notes_in logs.now) self.old }
        ensures { IfOk result (λ moved. MovesOn (notes_in logs.now) self.old self.new moved
            (AreHeld (notes_in logs.now) self.new)) }
    {
        if self.run_lanes(logs, graph)? {
            return Ok(true);
        }
        if self.move_one(logs, graph, Eager::Helpful)? {
            return Ok(true);
        }
        self.move_one(logs, graph, Eager::Any)
    }

    /// Plays notes until no lane's next may be played.
    pub(crate) fn play_on(&mut self, logs: &[LaneLog], graph: &Graph) -> Result<(), AllocError>
        requires graph { IsGraph (notes_in logs.now) graph.now }
        requires so_far { IsSoFar (notes_in logs.now) self.old }
        ensures so_far { OnOk result (IsSoFar (notes_in logs.now) self.new) }
        ensures held { OnOk result (AreHeld (notes_in logs.now) self.new) }
    {
        while self.go_on(logs, graph)? {}
        Ok(())
    }

    /// Whether all notes of all lanes were played.
    pub(crate) fn is_over(&self, logs: &[LaneLog]) -> bool
        requires { length self.now.next.items ≡ length logs.now }
        ensures { IsTrue result ↔ IsOver (notes_in logs.now) self.now.next.items }
    {
        for lane in 0..logs.len() {
            if self.next[lane] < logs[lane].notes.items().len() {
                return false;
            }
        }
        true
    }

    /// The order.
    pub(crate) fn into_order(self) -> Vec<Spot>
        ensures { result.items ≡ self.order.items }
    {
        self.order
    }
}
