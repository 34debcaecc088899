#![tactic(auto)]
//! All nodes of a graph in a list, each behind those that must stand before it; or a circle, where
//! there is no such list. It stands on nothing.

ghost use Rattle.std.specs.Prelude.{ℕ, List, IfOk};
ghost use Rattle.topo_order.specs.Sorting.{Graph, AreNodes, IsOrder, IsCircle, IsSorted};

mod walk;

use crate::walk::Walk;
use std::alloc::{AllocError, Global};

/// What is found of a graph.
#[derive(Drop)]
pub enum Sorted {
    /// All nodes, each behind those that must stand before it.
    Ordered(Vec<usize>),
    /// Nodes of which each must stand behind the next, and the last behind the first.
    Circle(Vec<usize>),
}

/// Puts the nodes of a graph in order, or finds a circle: `needs` has of each node, by number, the
/// nodes that must stand before it. It takes a step for each node and each need.
pub fn order_of(alloc: Global, needs: &[Vec<usize>]) -> Result<Sorted, AllocError>
    requires { AreNodes needs.now }
    ensures { IfOk result (λ found. IsSorted needs.now found) }
{
    let mut walk = Walk::new(alloc, needs)?;
    for node in 0..needs.len() {
        let depth = walk.visit(needs, node)?;
        match depth {
            Some(depth) => {
                let circle = walk.path_from(alloc, depth)?;
                return Ok(Sorted::Circle(circle));
            }
            None => {}
        }
    }
    Ok(Sorted::Ordered(walk.into_order()))
}

/// A graph that has an order has no circle.
pub fn an_order_has_no_circle()
    ensures none { (graph : Graph) (order circle : List ℕ) → IsOrder graph order →
        IsCircle graph circle → ⊥ }
{}
