//! The life of a region: its taking, and all that is done with it after that.

ghost use Rattle.pool_law.specs.Legal.{logs_of};
ghost use Rattle.pool_law.specs.Lives.{Got, LivesOn, InOrder, moves_of};
ghost use Rattle.pool_law.specs.Apart.{Before, EndsBefore};
ghost use Rattle.definition_rows.specs.Notes.{least_region};
ghost use Rattle.definition_rows.specs.RootRuns.{one_handle, first_root, second_root};
ghost use Rattle.definition_rows.specs.ArenaRuns.{merging, five, five_region, ten, ten_region};
ghost use Rattle.definition_rows.specs.LaneRuns.{hand_over};
ghost use Rattle.definition_rows.specs.LifeRows.{twice_taken, twice_used, once_taken, once_used, handed_taken, handed_used};

/// Two roots use one region: the first ends, the cache keeps it, and the second hits it there.
pub fn region_used_twice()
    ensures lives { LivesOn Got (least_region 0) (moves_of twice_used) }
    ensures order { InOrder (logs_of one_handle) twice_taken twice_used }
    ensures apart { EndsBefore (logs_of one_handle)
        first_root (least_region 1) second_root (least_region 2) }
{}

/// A region without a cache is given back at once, and its bytes are taken again after that.
pub fn region_given_at_once()
    ensures lives { LivesOn Got (five_region 1 0) (moves_of once_used) }
    ensures order { InOrder (logs_of merging) once_taken once_used }
    ensures before { Before (logs_of merging) (five_region 1 1) (ten_region 1) }
    ensures apart { EndsBefore (logs_of merging) (five 1) (five_region 1 1) ten (ten_region 1) }
{}

/// A region that another lane releases comes back by its owner's cache.
pub fn region_handed_over()
    ensures lives { LivesOn Got (least_region 0) (moves_of handed_used) }
    ensures order { InOrder (logs_of hand_over) handed_taken handed_used }
{}
