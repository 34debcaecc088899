//! Runs of pages: which free run is taken, and what taking and giving back leave.

ghost use Rattle.std.specs.Prelude.{◌≡◌, [], ◌∷◌, Some, None};
ghost use Rattle.size_classes.specs.Pages.{free_runs, taken_at, given_at, run_at, run_start};
ghost use Rattle.size_classes.specs.Spans.{taken_from, given_back, IsOut};
ghost use Rattle.definition_rows.specs.PagePlays.{free, used, three_in_use, two_given_back, chosen_for};

/// Three runs of five pages of a chunk of sixteen, of which the first two are then given back.
pub fn runs_of_five()
    ensures first { chosen_for 5 (free 16 ∷ []) ≡ Some (0, 16) }
    ensures three { taken_at 10 5 2 (taken_at 5 5 1 (taken_at 0 5 0 (free 16 ∷ [])))
        ≡ three_in_use }
    ensures none { chosen_for 4 three_in_use ≡ None }
    ensures merged { given_at 5 (given_at 0 three_in_use) ≡ two_given_back }
    ensures again { chosen_for 10 two_given_back ≡ Some (0, 10) }
{}

/// Of the free runs that hold the pages, those under the least page class serve, and of these the
/// lowest.
pub fn run_that_is_taken()
    ensures least_class { chosen_for 1 two_given_back ≡ Some (15, 1) }
    ensures lowest { chosen_for 2 (free 3 ∷ used 1 0 ∷ free 3 ∷ used 1 1 ∷ []) ≡ Some (0, 3) }
    ensures not_the_lowest { chosen_for 2 (free 4 ∷ used 1 0 ∷ free 3 ∷ used 1 1 ∷ [])
        ≡ Some (5, 3) }
    // nine pages stand under the class of eight, as eight do
    ensures same_class { chosen_for 5 (free 9 ∷ used 1 0 ∷ free 8 ∷ []) ≡ Some (0, 9) }
    ensures class_below { chosen_for 5 (free 10 ∷ used 1 0 ∷ free 9 ∷ []) ≡ Some (11, 9) }
    ensures too_few { chosen_for 6 (free 5 ∷ used 1 0 ∷ free 5 ∷ []) ≡ None }
{}

/// A run that is given back is merged with the free runs directly before and after it.
pub fn merging()
    ensures neither { given_at 1 (used 1 0 ∷ used 2 1 ∷ used 3 2 ∷ [])
        ≡ used 1 0 ∷ free 2 ∷ used 3 2 ∷ [] }
    ensures before { given_at 1 (free 1 ∷ used 2 1 ∷ used 3 2 ∷ []) ≡ free 3 ∷ used 3 2 ∷ [] }
    ensures after { given_at 1 (used 1 0 ∷ used 2 1 ∷ free 3 ∷ []) ≡ used 1 0 ∷ free 5 ∷ [] }
    ensures both { given_at 1 (free 1 ∷ used 2 1 ∷ free 3 ∷ []) ≡ free 6 ∷ [] }
    ensures no_further { given_at 3 (free 1 ∷ used 2 1 ∷ used 1 2 ∷ free 3 ∷ [])
        ≡ free 1 ∷ used 2 1 ∷ free 4 ∷ [] }
{}

/// The front of a free run is taken, and the rest stays free.
pub fn front_of_a_run()
    ensures rest { taken_at 1 2 7 (used 1 0 ∷ free 5 ∷ []) ≡ used 1 0 ∷ used 2 7 ∷ free 3 ∷ [] }
    ensures no_rest { taken_at 1 5 7 (used 1 0 ∷ free 5 ∷ []) ≡ used 1 0 ∷ used 5 7 ∷ [] }
    ensures at { run_at 1 (used 1 0 ∷ free 5 ∷ []) ≡ Some (free 5) }
    ensures not_at { run_at 2 (used 1 0 ∷ free 5 ∷ []) ≡ None }
    ensures start { run_start 4 (used 1 0 ∷ free 5 ∷ used 2 1 ∷ []) ≡ 1 }
{}

/// The same of the free runs alone.
pub fn free_runs_alone()
    ensures of_a_chunk { free_runs 0 two_given_back ≡ (0, 10) ∷ (15, 1) ∷ [] }
    ensures rest { taken_from 0 4 ((0, 10) ∷ (15, 1) ∷ []) ≡ (4, 6) ∷ (15, 1) ∷ [] }
    ensures no_rest { taken_from 15 1 ((0, 10) ∷ (15, 1) ∷ []) ≡ (0, 10) ∷ [] }
    ensures before { given_back (10, 2) ((0, 10) ∷ (15, 1) ∷ []) ≡ (0, 12) ∷ (15, 1) ∷ [] }
    ensures after { given_back (12, 3) ((0, 10) ∷ (15, 1) ∷ []) ≡ (0, 10) ∷ (12, 4) ∷ [] }
    ensures both { given_back (10, 5) ((0, 10) ∷ (15, 1) ∷ []) ≡ (0, 16) ∷ [] }
    ensures neither { given_back (11, 2) ((0, 10) ∷ (15, 1) ∷ [])
        ≡ (0, 10) ∷ (11, 2) ∷ (15, 1) ∷ [] }
    ensures out { IsOut 16 ((0, 10) ∷ (15, 1) ∷ []) (10, 5) }
    ensures partly_free { ¬ IsOut 16 ((0, 10) ∷ (15, 1) ∷ []) (9, 2) }
    ensures past_the_chunk { ¬ IsOut 16 ((0, 10) ∷ []) (15, 2) }
    ensures no_pages { ¬ IsOut 16 ((0, 10) ∷ (15, 1) ∷ []) (12, 0) }
{}
