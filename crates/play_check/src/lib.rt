#![tactic(auto)]
//! Whether a run is one that the pool can make, and all its notes stand in one order.

ghost use Rattle.std.specs.Prelude.{IfOk};
ghost use Rattle.play_check.specs.Judging.{Judges};

use log_order::{OrderFound, Spot, order_of_logs};
use pool_law::Run;
use run_check::{Breach, find_breach};
use std::alloc::{AllocError, Global};

/// What is said of a run.
#[derive(Drop)]
pub enum Played {
    /// It isn't legal: it doesn't keep this part of the law.
    Illegal(Breach),
    /// It is legal, and its notes are in one order: this.
    Ordered(Vec<Spot>),
    /// It is legal, and its notes are in no order: each of these must stand before the next, and the
    /// last before the first.
    Circle(Vec<Spot>),
    /// It is legal, and no notes go in a circle, but behind these no lane can go on. So it is where a lane
    /// looks up a count of a root that these do not leave; others, or these in another order, may.
    Stuck(Vec<Spot>),
}

/// Whether the pool can make a run, and one thread could make its notes, one after another in one
/// order: an order, or a circle of notes of which each must stand before the next. Of a run that the
/// pool can't make, the first part of the law that it doesn't keep.
pub fn check_played(alloc: Global, run: &Run) -> Result<Played, AllocError>
    ensures { IfOk result (λ played. Judges run.now played) }
{
    if let Some(breach) = find_breach(alloc, run)? {
        return Ok(Played::Illegal(breach));
    }
    match order_of_logs(alloc, run.logs.items())? {
        OrderFound::Ordered(order) => Ok(Played::Ordered(order)),
        OrderFound::Circle(circle) => Ok(Played::Circle(circle)),
        OrderFound::Stuck(order) => Ok(Played::Stuck(order)),
    }
}
