//! The worked runs that stand in one order, each in that of its turns.

ghost use Rattle.std.specs.Prelude.{All};
ghost use Rattle.definition_rows.specs.OrderedRuns.{IsOrdered, one_lane, two_lanes};

/// Each worked run of one lane stands in the order of its log.
pub fn one_lane_in_order()
    ensures stand { All IsOrdered one_lane }
{}

/// Each worked run of two lanes stands in one order: a hand-over, a parcel sent after a release and one
/// that nobody fetches, a lane that finds another at a root and at a cache, and lanes that are stopped.
pub fn two_lanes_in_order()
    ensures stand { All IsOrdered two_lanes }
{}
