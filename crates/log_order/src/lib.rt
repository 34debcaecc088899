#![tactic(auto)]
//! Whether the notes of logs stand in one order.
//!
//! The notes are the nodes of a graph: a note must stand before another where it is next before it in one
//! log, has the number before it in one history, is the post of a fetch, or the birth of a root's count, or
//! where the other ends this; and a busy mark stands between two notes. The notes are played one after
//! another, of each lane the next, where it fits what was played; where no lane can go on, a circle is
//! looked for.

ghost use Rattle.std.specs.Prelude.{IfOk};
ghost use Rattle.log_order.specs.Filling.{IsWhole};
ghost use Rattle.log_order.specs.Judging.{Tells};
ghost use Rattle.log_order.specs.Spots.{notes_in};

mod graph;
mod index;
mod keys;
mod making;
mod playing;
mod precedence;
mod spots;
mod stages;
mod tally;

use crate::graph::Graph;
use crate::making::graph_of;
use crate::playing::Playing;
use pool_law::LaneLog;
pub use spots::Spot;
use std::alloc::{AllocError, Global};
use topo_order::{Sorted, order_of};

/// What is said of the notes of logs.
#[derive(Drop)]
pub enum OrderFound {
    /// They are in one order: this.
    Ordered(Vec<Spot>),
    /// They are in no order: each of these must stand before the next, and the last before the first.
    Circle(Vec<Spot>),
    /// None go in a circle, but behind these no lane can go on. So it is where a lane looks up a count of
    /// a root that these do not leave; others, or these in another order, may.
    Stuck(Vec<Spot>),
}

// What is said of logs with this graph.
fn judged(alloc: Global, logs: &[LaneLog], graph: &Graph) -> Result<OrderFound, AllocError>
    requires { IsWhole (notes_in logs.now) graph.now }
    ensures { IfOk result (λ told. Tells (notes_in logs.now) told) }
{
    let mut play = Playing::new(alloc, logs)?;
    play.play_on(logs, graph)?;
    if play.is_over(logs) {
        return Ok(OrderFound::Ordered(play.into_order()));
    }
    match order_of(alloc, &graph.needs)? {
        Sorted::Ordered(_) => Ok(OrderFound::Stuck(play.into_order())),
        Sorted::Circle(nodes) => {
            let circle = graph.places_back(alloc, &nodes)?;
            Ok(OrderFound::Circle(circle))
        }
    }
}

/// Whether one thread could make the notes of these logs, one after another in one order: an order, or
/// a circle of notes of which each must stand before the next.
pub fn order_of_logs(alloc: Global, logs: &[LaneLog]) -> Result<OrderFound, AllocError>
    ensures { IfOk result (λ found. Tells (notes_in logs.now) found) }
{
    let graph = graph_of(alloc, logs)?;
    judged(alloc, logs, &graph)
}
