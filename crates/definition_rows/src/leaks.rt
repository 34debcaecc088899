//! Leaks: which births are sampled, and which accesses are kept.

ghost use Rattle.std.specs.Prelude.{◌≡◌, [], ◌∷◌, map, true, false};
ghost use Rattle.pool_law.specs.declared.note.Did.{Did};
ghost use Rattle.pool_law.specs.declared.note.Did.TheVariants.{Birth, Touch, End};
ghost use Rattle.pool_law.specs.declared.report.Access.{Access};
ghost use Rattle.pool_law.specs.declared.run.Level.{Level};
ghost use Rattle.pool_law.specs.Leaks.{is_sampled, keeps_records, accesses, kept_of, dropped_of, births, leaks_of};
ghost use Rattle.definition_rows.specs.Notes.{default_shape, root, least_region, cache, root_place, leak};
ghost use Rattle.definition_rows.specs.LeakPlays.{touch_of, history, two_logs, live_grown};

/// By interval the first birth of a lane is sampled, and then each after so many.
pub fn sampled_serials()
    ensures every_second { map (is_sampled Level.Simple 2) (1 ∷ 2 ∷ 3 ∷ 4 ∷ [])
        ≡ true ∷ false ∷ true ∷ false ∷ [] }
    ensures every { map (is_sampled Level.Advanced 1) (1 ∷ 2 ∷ 3 ∷ []) ≡ true ∷ true ∷ true ∷ [] }
    ensures usual { map (is_sampled Level.Simple 128) (1 ∷ 2 ∷ 128 ∷ 129 ∷ 256 ∷ 257 ∷ [])
        ≡ true ∷ false ∷ false ∷ true ∷ false ∷ true ∷ [] }
    ensures disabled { map (is_sampled Level.Disabled 1) (1 ∷ 2 ∷ []) ≡ false ∷ false ∷ [] }
    ensures paranoid { map (is_sampled Level.Paranoid 128) (1 ∷ 2 ∷ 129 ∷ [])
        ≡ true ∷ true ∷ true ∷ [] }
    ensures levels_that_keep { map keeps_records
        (Level.Disabled ∷ Level.Simple ∷ Level.Advanced ∷ Level.Paranoid ∷ [])
        ≡ false ∷ false ∷ true ∷ true ∷ [] }
{}

/// The last four accesses are kept, and the others are counted as dropped.
pub fn kept_and_dropped()
    ensures none { kept_of [] ≡ [] }
    ensures four { kept_of (touch_of 1 ∷ touch_of 2 ∷ touch_of 3 ∷ touch_of 4 ∷ [])
        ≡ touch_of 1 ∷ touch_of 2 ∷ touch_of 3 ∷ touch_of 4 ∷ [] }
    ensures none_dropped { dropped_of (touch_of 1 ∷ touch_of 2 ∷ touch_of 3 ∷ touch_of 4 ∷ []) ≡ 0 }
    ensures five { kept_of (touch_of 1 ∷ touch_of 2 ∷ touch_of 3 ∷ touch_of 4 ∷ touch_of 5 ∷ [])
        ≡ touch_of 2 ∷ touch_of 3 ∷ touch_of 4 ∷ touch_of 5 ∷ [] }
    ensures one_dropped { dropped_of
        (touch_of 1 ∷ touch_of 2 ∷ touch_of 3 ∷ touch_of 4 ∷ touch_of 5 ∷ [])
        ≡ 1 }
{}

/// The accesses of a root are those between its birth and its end, with their lanes.
pub fn accesses_of_a_root()
    ensures first { accesses (root 0 1 4) false history
        ≡ Access.Set 0 1 2 ∷ Access.Get 1 0 4 ∷ [] }
    ensures second { accesses (root 0 2 4) false history ≡ Access.Touch 1 ∷ Access.Get 0 4 0 ∷ [] }
    ensures none { accesses (root 0 3 4) false history ≡ [] }
{}

/// The births of a log in order: the place of a root among them is its serial.
pub fn serials()
    ensures births { births
        (cache 0 0 1 Did.Miss ∷ root_place 5 1 (Birth (root 5 1 4) (least_region 1))
        ∷ root_place 5 2 Touch ∷ root_place 3 9 (Birth (root 3 4 8) (least_region 2)) ∷ [])
        ≡ root 5 1 4 ∷ root 3 4 8 ∷ [] }
    ensures none { births (root_place 5 2 Touch ∷ root_place 5 3 (End (root 5 1 4)) ∷ []) ≡ [] }
{}

/// The report has the live roots that are sampled, by lane and then by serial.
pub fn reports()
    ensures paranoid { leaks_of (record (default_shape 2) { level = Level.Paranoid }) two_logs
        ≡ leak 1 4 1 [] 0 ∷ leak 3 6 2 (touch_of 0 ∷ []) 0 ∷ record (leak 1 7 1 [] 0) { lane = 1 }
        ∷ [] }
    ensures every_second { leaks_of (record (default_shape 2) { interval = 2 }) two_logs
        ≡ leak 1 4 1 [] 0 ∷ leak 3 6 2 [] 0 ∷ record (leak 1 7 1 [] 0) { lane = 1 } ∷ [] }
    ensures usual { leaks_of (default_shape 2) two_logs
        ≡ leak 1 4 1 [] 0 ∷ record (leak 1 7 1 [] 0) { lane = 1 } ∷ [] }
    ensures disabled { leaks_of (record (default_shape 2) { level = Level.Disabled }) two_logs
        ≡ [] }
    // with the capacity at the end; a growth is no access
    ensures grown { leaks_of (record (default_shape 1) { level = Level.Paranoid }) live_grown
        ≡ leak 1 100 1 (Access.Set 0 0 1 ∷ Access.Get 0 0 2 ∷ Access.Get 0 99 1 ∷ []) 0 ∷ [] }
{}
