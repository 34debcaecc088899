#![tactic(auto)]
//! Which runs are determined by their text: a law that is the contract of a function that does nothing.

ghost use Rattle.pool_law.specs.declared.run.Run.{Run};
ghost use Rattle.pool_law.specs.Legal.{IsLegal, logs_of};
ghost use Rattle.run_order.specs.Order.{InOneOrder};
ghost use Rattle.run_text.specs.Derived.{IsDerived};
ghost use Rattle.text_laws.specs.Typed.{IsTyped};

/// A legal run whose notes stand in one order is the one that its text determines, with its trace and
/// its pool, among runs in memory: what the lines of notes leave out of roots and regions, other lines
/// say. Of a run that is legal in no order this is not so: of one region that a lane hits twice, the
/// lines say which use came before a hit by the order of that lane's notes.
pub fn legal_runs_are_determined()
    ensures derived { (run : Run) → IsLegal run → InOneOrder (logs_of run) → IsTyped run →
        IsDerived run }
{}
