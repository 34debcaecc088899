//! The notes of a run as nodes.

ghost use Rattle.std.specs.Prelude.{◌≡◌, ℕ, ◌<◌, [], ◌∷◌, ◌++◌, length, Some, slice_get, IfOk, IfSome, OnOk};
ghost use Rattle.pool_law.specs.Logs.{Logs};
ghost use Rattle.log_order.specs.Spots.{notes_in};
ghost use Rattle.log_order.specs.Graphs.{IsGraph, AreBack};
ghost use Rattle.log_order.specs.Filling.{Grows, Links};

use crate::precedence::must_precede;
use crate::spots::Spot;
use pool_law::LaneLog;
use std::alloc::{AllocError, Global};

/// The notes, and of each those that must stand before it.
#[derive(Drop)]
pub struct Graph {
    pub spots: Vec<Spot>,
    pub needs: Vec<Vec<usize>>,
    // The first node of each lane.
    firsts: Vec<usize>,
}

impl Graph {
    /// No note.
    pub(crate) fn new(alloc: Global) -> Graph
        ensures graph { (logs : Logs) → IsGraph logs result }
        ensures spots { result.spots.items ≡ [] }
    {
        Graph {
            spots: Vec::new(alloc),
            needs: Vec::new(alloc),
            firsts: Vec::new(alloc),
        }
    }

    /// One more node.
    pub(crate) fn push(&mut self, alloc: Global, spot: Spot) -> Result<(), AllocError>
        ensures graph { (logs : Logs) → IsGraph logs self.old →
            OnOk result (IsGraph logs self.new) }
        ensures spots { OnOk result (self.new.spots.items ≡ self.old.spots.items ++ spot ∷ []) }
    {
        self.spots.push(spot)?;
        self.needs.push(Vec::new(alloc))?;
        Ok(())
    }

    /// A node must stand before another, if their notes say so.
    pub(crate) fn link(
        &mut self,
        logs: &[LaneLog],
        first: usize,
        node: usize,
    ) -> Result<(), AllocError>
        requires { IsGraph (notes_in logs.now) self.old }
        ensures { OnOk result (Grows (notes_in logs.now) self.old self.new
            (Links (notes_in logs.now) self.new first node)) }
    {
        if first >= self.spots.len() || node >= self.spots.len() {
            return Ok(());
        }
        if must_precede(logs, &self.spots[first], &self.spots[node]) {
            self.needs[node].push(first)?;
        }
        Ok(())
    }

    /// The first node of a lane is the next.
    pub(crate) fn begin_lane(&mut self) -> Result<(), AllocError>
        ensures spots { OnOk result (self.new.spots.items ≡ self.old.spots.items) }
        ensures needs { OnOk result (self.new.needs.items ≡ self.old.needs.items) }
    {
        self.firsts.push(self.spots.len())?;
        Ok(())
    }

    /// The node of a note.
    pub(crate) fn node_of(&self, spot: &Spot) -> Option<usize>
        ensures { IfSome result (λ node. slice_get self.now.spots.items node ≡ Some spot.now) }
    {
        if spot.lane >= self.firsts.len() {
            return None;
        }
        let node = self.firsts[spot.lane].checked_add(spot.at)?;
        if node >= self.spots.len() {
            return None;
        }
        let found = self.spots[node];
        if found.lane == spot.lane && found.at == spot.at {
            Some(node)
        } else {
            None
        }
    }

    /// The places of these nodes, from the last to the first.
    pub(crate) fn places_back(
        &self,
        alloc: Global,
        nodes: &[usize],
    ) -> Result<Vec<Spot>, AllocError>
        requires { (k node : ℕ) → slice_get nodes.now k ≡ Some node →
            node < length self.now.spots.items }
        ensures { IfOk result (λ spots. AreBack self.now.spots.items nodes.now spots.items) }
    {
        let mut spots = Vec::new(alloc);
        for k in 0..nodes.len() {
            let node = nodes[nodes.len() - 1 - k];
            spots.push(self.spots[node])?;
        }
        Ok(spots)
    }
}
