#![tactic(auto)]
//! Laws of runs in one order: what is so at each moment. Each law is the contract of a function that
//! does nothing.

ghost use Rattle.pool_law.specs.declared.run.Run.{Run};
ghost use Rattle.pool_law.specs.declared.run.Shape.{Shape};
ghost use Rattle.pool_law.specs.Legal.{IsLegal, HistoriesHold, logs_of};
ghost use Rattle.pool_law.specs.Logs.{Logs};
ghost use Rattle.run_order.specs.Order.{InOneOrder};
ghost use Rattle.run_order.specs.HandOver.{IsHandedOver};
ghost use Rattle.order_laws.specs.Accepted.{FrontsAccepted};
ghost use Rattle.order_laws.specs.HeadlineInOrder.{HeadlineInOrder};
ghost use Rattle.order_laws.specs.Shares.{FrontsAreShared};

/// The headline at each moment. In a legal run whose steps stand in one order: regions in use have no
/// byte in common; a root uses one while anybody counts it, parcels in the mail included; each read
/// gives what was last written before it, whichever lane wrote; a region returns after the release
/// that ended its root or the growth that replaced it, and before its bytes are used again.
pub fn headline_in_order()
    ensures moments { (run : Run) → IsLegal run → InOneOrder (logs_of run) → HeadlineInOrder run }
{}

/// In a legal run whose steps stand in one order, each object with a history accepts at each moment
/// what was done to it so far, and what was fetched from a mail is the front of what was posted to it
/// so far: so the run is what one thread may do that makes these steps one after another.
pub fn fronts_are_accepted()
    ensures accepted { (run : Run) → IsLegal run → (order : InOneOrder (logs_of run)) →
        FrontsAccepted run order }
{}

/// What was sent is seen in order. In logs whose histories hold and whose steps stand in one order,
/// what a lane did before its k-th post to another has, at each object, a lower number than what that
/// lane did there after its k-th fetch from it; at a mail too, whose posts and fetches are numbered
/// apart.
pub fn parcels_are_handed_over()
    ensures handed { (shape : Shape) (logs : Logs) → HistoriesHold shape logs → InOneOrder logs →
        IsHandedOver logs }
{}

/// In a legal run whose steps stand in one order, at each moment the counts of a root that are left
/// are those of the lanes, and of the parcels that lie in the mails, together.
pub fn counts_are_shared()
    ensures shared { (run : Run) → IsLegal run → (order : InOneOrder (logs_of run)) →
        FrontsAreShared run order }
{}
