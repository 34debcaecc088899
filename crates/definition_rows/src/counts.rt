//! Counts of roots: of a lane, over all lanes, and as a lane looks one up.

ghost use Rattle.std.specs.Prelude.{◌≡◌, [], ◌∷◌};
ghost use Rattle.pool_law.specs.declared.note.Did.{Did};
ghost use Rattle.pool_law.specs.declared.note.RefDid.TheVariants.{Born, Retain, Kept, Ended, Vacated, Look};
ghost use Rattle.pool_law.specs.Counts.{count_of, total_of, CountsHold, TotalHolds, LookHolds};
ghost use Rattle.pool_law.specs.Legal.{LooksHold};
ghost use Rattle.definition_rows.specs.Notes.{root, view, mail, post, fetch, post_nothing};
ghost use Rattle.definition_rows.specs.Entries.{alone, on, access};
ghost use Rattle.definition_rows.specs.CountPlays.{four, whole_four, sent, came};

/// A lane's count rises with births, retains and parcels that come, and falls with releases and
/// parcels that go.
pub fn lane_counts()
    ensures none { count_of four [] ≡ 0 }
    ensures born { count_of four (on four Born ∷ []) ≡ 1 }
    ensures retained { count_of four (on four Born ∷ on four Retain ∷ []) ≡ 2 }
    ensures released { count_of four (on four Born ∷ on four Retain ∷ on four Kept ∷ []) ≡ 1 }
    ensures ended { count_of four (on four Born ∷ on four Ended ∷ on four Vacated ∷ []) ≡ 0 }
    ensures sent { count_of four (on four Born ∷ on four Retain ∷ sent ∷ []) ≡ 1 }
    ensures sent_nothing { count_of four (on four Born ∷ alone (mail 0 1 1 post_nothing) ∷ []) ≡ 1 }
    ensures came { count_of four (came ∷ []) ≡ 1 }
    ensures looked { count_of four (on four Born ∷ on four (Look 1) ∷ []) ≡ 1 }
    ensures of_another { count_of (root 0 2 4) (on four Born ∷ []) ≡ 0 }
{}

/// A lane uses a root only while it counts it.
pub fn uses_that_need_a_count()
    ensures in_order { CountsHold four 0
        (on four Born ∷ access four 2 Did.Touch ∷ on four (Look 1) ∷ on four Ended ∷ on four Vacated
        ∷ []) }
    ensures once_it_came { CountsHold four 0 (came ∷ access four 2 Did.Touch ∷ []) }
    ensures no_access { ¬ CountsHold four 0 (access four 2 Did.Touch ∷ []) }
    ensures no_retain { ¬ CountsHold four 0 (on four Retain ∷ []) }
    ensures no_look { ¬ CountsHold four 0 (on four (Look 1) ∷ []) }
    ensures no_release { ¬ CountsHold four 0 (on four Kept ∷ []) }
    ensures no_parcel { ¬ CountsHold four 0 (sent ∷ []) }
    ensures not_once_it_went { ¬ CountsHold four 1 (sent ∷ access four 2 Did.Touch ∷ []) }
    ensures end_of_one_count { ¬ CountsHold four 2 (on four Ended ∷ []) }
{}

/// The total of a root is one more than all retains less all releases, over all lanes.
pub fn totals()
    ensures born { total_of four ((on four Born ∷ []) ∷ []) ≡ 1 }
    ensures over_lanes { total_of four
        ((on four Born ∷ on four Retain ∷ []) ∷ (on four Retain ∷ on four Kept ∷ []) ∷ []) ≡ 2 }
    ensures ended { total_of four ((on four Born ∷ sent ∷ []) ∷ (came ∷ on four Ended ∷ []) ∷ [])
        ≡ 0 }
    // a parcel that nobody fetched is still counted
    ensures unfetched { total_of four ((on four Born ∷ sent ∷ []) ∷ [] ∷ []) ≡ 1 }
{}

/// A root is born once, and ends once, exactly where its total is 0.
pub fn births_and_ends_of_a_count()
    ensures live { TotalHolds four ((on four Born ∷ on four Retain ∷ on four Kept ∷ []) ∷ []) }
    ensures ended { TotalHolds four
        ((on four Born ∷ sent ∷ []) ∷ (came ∷ on four Ended ∷ []) ∷ []) }
    ensures not_born { ¬ TotalHolds four ([] ∷ []) }
    ensures born_twice { ¬ TotalHolds four ((on four Born ∷ []) ∷ (on four Born ∷ []) ∷ []) }
    ensures ended_twice { ¬ TotalHolds four
        ((on four Born ∷ on four Retain ∷ on four Ended ∷ []) ∷ (on four Ended ∷ []) ∷ []) }
    ensures ended_too_soon { ¬ TotalHolds four
        ((on four Born ∷ on four Retain ∷ on four Ended ∷ []) ∷ []) }
    ensures ended_too_late { ¬ TotalHolds four ((on four Born ∷ on four Kept ∷ []) ∷ []) }
{}

/// What a lane looks up is at least its own count, and at most what is left of its own retains and
/// of all retains of the others.
pub fn looks()
    // one birth and one retain of its own: exact where the root never left the lane
    ensures exact { LookHolds four 1 0 2 0 2 }
    ensures not_less { ¬ LookHolds four 1 0 2 0 1 }
    ensures not_more { ¬ LookHolds four 1 0 2 0 3 }
    // one retain and one release of its own, three retains of others
    ensures up_to_the_others { LookHolds four 1 1 1 3 4 }
    ensures not_past_them { ¬ LookHolds four 1 1 1 3 5 }
    ensures in_a_log { LooksHold four 0 0 0 0
        (on four Born ∷ on four (Look 1) ∷ on four Retain ∷ on four (Look 2) ∷ on four Kept
        ∷ on four (Look 1) ∷ []) }
    ensures not_in_a_log { ¬ LooksHold four 0 0 0 0
        (on four Born ∷ on four Retain ∷ on four Kept ∷ on four (Look 2) ∷ []) }
{}
