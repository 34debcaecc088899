//! Roots that grow: what their places accept, what a lane notes, how the regions live, and what a
//! lane knows.

ghost use Rattle.std.specs.Prelude.{◌≡◌, [], ◌∷◌, ◌++◌, Some, None, is_some, true, Ok, Err};
ghost use Rattle.pool_law.specs.declared.note.Did.{Did};
ghost use Rattle.pool_law.specs.declared.note.Did.TheVariants.{Set, Get, Room, Extend, Grow, End};
ghost use Rattle.pool_law.specs.declared.run.Reply.{Reply};
ghost use Rattle.pool_law.specs.Capacities.{known_of};
ghost use Rattle.pool_law.specs.Logs.{entry_of};
ghost use Rattle.pool_law.specs.Lives.{Got, LivesOn, InOrder, IsUse, moves_of, Begins, Leaves, Keeps, Gives};
ghost use Rattle.pool_law.specs.Text.{note_lines};
ghost use Rattle.definition_rows.specs.Notes.{root, least_region, arena, cache, root_place, view, lines, fetch, mail};
ghost use Rattle.definition_rows.specs.Entries.{alone, access};
ghost use Rattle.definition_rows.specs.GrowthPlays.{sixteen, seventeen, five_pages, second_class, wider, six_region, whole_chunk, after_sixteen, after_seventeen, after_five, grown_with, present_region, regrown, growth, takes_wider, grows_wider, keeps_least, has_grown, grown_logs, left_taken, left_used, wider_taken, wider_used, outrun};

/// A root grows in its region, which stays; what is asked of it is there, or is more than the region
/// holds.
pub fn growth_in_a_region()
    ensures extended { present_region (after_seventeen (Extend 30 ∷ [])) ≡ Some (second_class 1) }
    ensures zeros { is_some
        (after_seventeen (Set 16 (9 ∷ []) ∷ Extend 30 ∷ Get 16 (9 ∷ 0 ∷ 0 ∷ []) ∷ []))
        ≡ true }
    ensures whole_region { is_some (after_seventeen (Extend 32 ∷ Get 31 (0 ∷ []) ∷ [])) ≡ true }
    ensures past_the_region { after_seventeen (Extend 33 ∷ []) ≡ None }
    ensures no_more { after_seventeen (Extend 17 ∷ []) ≡ None }
    ensures shrunk { after_seventeen (Extend 30 ∷ Extend 20 ∷ []) ≡ None }
    ensures enough { after_seventeen (Room 17 17 ∷ []) ≡ after_seventeen [] }
    ensures short { is_some (after_seventeen (Room 33 17 ∷ [])) ≡ true }
    // the region holds it, so the root is extended
    ensures not_short { after_seventeen (Room 30 17 ∷ []) ≡ None }
    ensures told_too_much { after_seventeen (Room 17 18 ∷ []) ≡ None }
    ensures told_the_region { after_seventeen (Room 17 32 ∷ []) ≡ None }
    ensures nobody { after_seventeen (End seventeen ∷ Extend 30 ∷ []) ≡ None }
{}

/// A root grows out of its region: it keeps its bytes, zeros come behind them, and the new region is
/// present.
pub fn growth_out_of_a_region()
    ensures region { present_region (grown_with []) ≡ Some (wider 1) }
    ensures kept { is_some (grown_with (Get 0 (255 ∷ 0 ∷ []) ∷ Get 99 (0 ∷ []) ∷ [])) ≡ true }
    ensures ends { is_some (grown_with (End sixteen ∷ [])) ≡ true }
    ensures again { present_region (grown_with (Extend 112 ∷ [])) ≡ Some (wider 1) }
    ensures bytes_lost { grown_with (Get 0 (0 ∷ []) ∷ []) ≡ None }
    ensures tail_not_cleared { grown_with (Get 16 (7 ∷ []) ∷ []) ≡ None }
    ensures past_the_capacity { grown_with (Get 100 (0 ∷ []) ∷ []) ≡ None }
    ensures past_the_region { after_sixteen (Grow 113 (wider 1) ∷ []) ≡ None }
    // the region that it has holds so much
    ensures without_need { after_sixteen (Grow 16 (wider 1) ∷ []) ≡ None }
    ensures shrunk { grown_with (Grow 20 (least_region 2) ∷ []) ≡ None }
    ensures runs { present_region (after_five (Grow 45056 six_region ∷ [])) ≡ Some six_region }
    ensures to_the_chunk { present_region (after_five (Room 65536 40960 ∷ Grow 65536 whole_chunk
        ∷ []))
        ≡ Some whole_chunk }
    ensures nobody { after_sixteen (End sixteen ∷ Grow 100 (wider 1) ∷ []) ≡ None }
{}

/// What a lane comes to that asks a root for capacity, and that its notes are these alone.
pub fn lanes_that_ask()
    ensures enough { regrown sixteen 10 (access sixteen 3 (Room 10 16) ∷ []) ≡ Some (Ok 16) }
    ensures extended { regrown seventeen 30 (access seventeen 2 (Extend 30) ∷ [])
        ≡ Some (Ok 30) }
    ensures grown { regrown sixteen 100 (takes_wider ++ grows_wider ∷ keeps_least ∷ [])
        ≡ Some (Ok 100) }
    ensures full { regrown five_pages 65536
        (access five_pages 2 (Room 65536 40960) ∷ alone (arena 0 2 (Did.Full 43)) ∷ [])
        ≡ Some (Err Reply.Full) }
    // another lane made it grow meanwhile, and what was taken is kept unused
    ensures outrun { regrown sixteen 100
        (takes_wider ++ access sixteen 6 (Room 100 112)
        ∷ alone (cache 0 6 2 (Did.Kept (wider 0))) ∷ [])
        ≡ Some (Ok 112) }
    ensures outrun_and_extended { regrown sixteen 100
        (takes_wider ++ access sixteen 6 (Extend 100)
        ∷ alone (cache 0 6 2 (Did.Kept (wider 0))) ∷ [])
        ≡ Some (Ok 100) }
{}

/// A lane that notes a growth otherwise is refused.
pub fn growths_refused()
    ensures old_region_held { regrown sixteen 100 (takes_wider ++ grows_wider ∷ []) ≡ None }
    ensures returned_twice { regrown sixteen 100
        (takes_wider ++ grows_wider ∷ keeps_least ∷ alone (arena 0 3 (Did.Give (least_region 1)))
        ∷ [])
        ≡ None }
    ensures returned_before { regrown sixteen 100
        (takes_wider ++ keeps_least ∷ grows_wider ∷ [])
        ≡ None }
    ensures new_region_returned { regrown sixteen 100
        (takes_wider ++ grows_wider ∷ alone (cache 0 6 2 (Did.Kept (wider 1))) ∷ [])
        ≡ None }
    ensures uses_not_raised { regrown sixteen 100
        (takes_wider ++ growth sixteen 5 100 (least_region 1) (wider 0) ∷ keeps_least ∷ [])
        ≡ None }
    ensures another_size { regrown sixteen 100
        (takes_wider ++ growth sixteen 5 112 (least_region 1) (wider 1) ∷ keeps_least ∷ [])
        ≡ None }
    ensures another_root { regrown sixteen 100
        (takes_wider ++ growth seventeen 5 100 (least_region 1) (wider 1) ∷ keeps_least ∷ [])
        ≡ None }
    ensures not_asked { regrown sixteen 100 (grows_wider ∷ keeps_least ∷ []) ≡ None }
    ensures outrun_by_less { regrown sixteen 100
        (takes_wider ++ access sixteen 6 (Room 100 50)
        ∷ alone (cache 0 6 2 (Did.Kept (wider 0))) ∷ [])
        ≡ None }
    ensures outrun_and_used { regrown sixteen 100
        (takes_wider ++ access sixteen 6 (Room 100 112)
        ∷ alone (cache 0 6 2 (Did.Kept (wider 1))) ∷ [])
        ≡ None }
{}

/// A growth stands in two lives: it ends a use of the region that the root leaves, which returns once,
/// and begins one of the region that it goes on in.
pub fn regions_of_a_growth()
    ensures left_lives { LivesOn Got (least_region 0) (moves_of left_used) }
    ensures left_order { InOrder grown_logs left_taken left_used }
    ensures wider_lives { LivesOn Got (wider 0) (moves_of wider_used) }
    ensures wider_order { InOrder grown_logs wider_taken wider_used }
    ensures first_use { IsUse grown_logs sixteen (least_region 1) }
    ensures second_use { IsUse grown_logs sixteen (wider 1) }
    ensures passages { LivesOn Got (wider 0) outrun }
    // the lane of each of these notes has to count the root
    ensures room_entry { entry_of grown_logs (root_place 0 4 (Room 100 16))
        ≡ access sixteen 4 (Room 100 16) }
    ensures growth_entry { entry_of grown_logs (root_place 0 5 (Grow 100 (wider 1))) ≡ grows_wider }
{}

/// No region lives otherwise: it returns behind the growth, once, and its uses are counted.
pub fn lives_refused()
    ensures never_returned { LivesOn Got (least_region 0)
        (Begins sixteen (least_region 1) ∷ Leaves sixteen (least_region 1) ∷ [])
        → ⊥ }
    ensures returned_twice { LivesOn Got (least_region 0)
        (Begins sixteen (least_region 1) ∷ Leaves sixteen (least_region 1) ∷ Keeps (least_region 1)
        ∷ Keeps (least_region 1) ∷ [])
        → ⊥ }
    ensures returned_before { LivesOn Got (least_region 0)
        (Begins sixteen (least_region 1) ∷ Keeps (least_region 1) ∷ Leaves sixteen (least_region 1)
        ∷ [])
        → ⊥ }
    ensures left_by_another { LivesOn Got (least_region 0)
        (Begins sixteen (least_region 1) ∷ Leaves seventeen (least_region 1)
        ∷ Gives (least_region 1) ∷ [])
        → ⊥ }
    ensures uses_not_raised { LivesOn Got (wider 0) (Begins sixteen (wider 0) ∷ []) → ⊥ }
    ensures two_at_once { LivesOn Got (wider 0)
        (Begins sixteen (wider 1) ∷ Begins seventeen (wider 2) ∷ []) → ⊥ }
    ensures taken_and_forgotten { LivesOn Got (wider 0) [] → ⊥ }
    ensures left_in_a_cache { LivesOn Got (wider 0) (Keeps (wider 0) ∷ []) → ⊥ }
    ensures used_once_given { LivesOn Got (wider 0)
        (Gives (wider 0) ∷ Begins sixteen (wider 1) ∷ []) → ⊥ }
{}

/// A lane knows of a root the greatest capacity that its notes told it.
pub fn known_capacities()
    ensures nothing { known_of sixteen [] ≡ 0 }
    ensures grown { known_of sixteen has_grown ≡ 100 }
    ensures of_another { known_of seventeen has_grown ≡ 0 }
    ensures extended { known_of seventeen (access seventeen 2 (Extend 30) ∷ []) ≡ 30 }
    ensures fetched { known_of sixteen (alone (mail 1 0 1 (fetch (view sixteen 20 50 0 0))) ∷ [])
        ≡ 70 }
    ensures greatest { known_of sixteen
        (alone (mail 1 0 1 (fetch (view sixteen 20 50 0 0))) ∷ access sixteen 3 (Room 10 60) ∷ [])
        ≡ 70 }
{}

/// The text of each note.
pub fn notes_of_growth()
    ensures text { note_lines 2
        (root_place 5 3 (Room 10 16) ∷ root_place 5 4 (Extend 30)
        ∷ root_place 5 5 (Grow 100 (wider 1)) ∷ [])
        ≡ lines
        ("note 2 root 5 3 room 10 16"
        ∷ "note 2 root 5 4 extend 30"
        ∷ "note 2 root 5 5 grow 0.0+8192 2 1 100"
        ∷ []) }
{}
