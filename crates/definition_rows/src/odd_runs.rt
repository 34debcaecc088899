//! Runs that no pool makes: what a legal run refuses of them, and what only one order does.

ghost use Rattle.pool_law.specs.Logs.{of_lane, entries_of};
ghost use Rattle.pool_law.specs.Counts.{CountsHold};
ghost use Rattle.pool_law.specs.Legal.{IsLegal, logs_of};
ghost use Rattle.run_order.specs.Order.{InOneOrder};
ghost use Rattle.definition_rows.specs.LaneRuns.{four};
ghost use Rattle.definition_rows.specs.OddRuns.{circling, read_before_set, freed_while_counted};
ghost use Rattle.definition_rows.specs.DisorderedRuns.{freed_in_its_mail, used_behind_its_end};

/// Each of two lanes counts a root where it uses it, since each gets it by what it sends itself. But
/// nobody bore the root, so the run is not legal, and its fetches stand before their posts.
pub fn root_that_nobody_bore()
    ensures first_counts { CountsHold four 0 (of_lane (entries_of (logs_of circling)) 0) }
    ensures second_counts { CountsHold four 0 (of_lane (entries_of (logs_of circling)) 1) }
    ensures refused { ¬ IsLegal circling }
    ensures no_order { ¬ InOneOrder (logs_of circling) }
{}

/// A legal run orders the notes of each lane and those at each object, and no more: a lane may read
/// what was there before the set by which another lane prepared the root for it. Such a run stands in
/// no one order.
pub fn read_before_set_run()
    ensures legal { IsLegal read_before_set }
    ensures no_order { ¬ InOneOrder (logs_of read_before_set) }
{}

/// In a legal run the steps on a root's count have no order over the lanes. So one lane's release may
/// end the count while the other lane counts the root, on whose bytes another root lies by then. Such
/// a run stands in no one order.
pub fn freed_while_counted_run()
    ensures legal { IsLegal freed_while_counted }
    ensures no_order { ¬ InOneOrder (logs_of freed_while_counted) }
{}

/// The same, where the lane that still counts the root writes and reads it behind the birth of the
/// other, and the root ends behind that at its place.
pub fn used_behind_its_end_run()
    ensures legal { IsLegal used_behind_its_end }
    ensures no_order { ¬ InOneOrder (logs_of used_behind_its_end) }
{}

/// The same of one lane, which ends a root that it sent to itself while the parcel lies in its mail,
/// and receives it when another root lies on its bytes.
pub fn freed_in_its_mail_run()
    ensures legal { IsLegal freed_in_its_mail }
    ensures no_order { ¬ InOneOrder (logs_of freed_in_its_mail) }
{}
