//! Logs and the histories that they give, and which lane may note what.

ghost use Rattle.std.specs.Prelude.{◌≡◌, [], ◌∷◌, Some, None};
ghost use Rattle.pool_law.specs.declared.note.CacheNo.{CacheNo};
ghost use Rattle.pool_law.specs.declared.note.Did.{Did};
ghost use Rattle.pool_law.specs.declared.note.Object.{Object};
ghost use Rattle.pool_law.specs.Logs.{history_of, IsHistory, entry_of};
ghost use Rattle.pool_law.specs.NotedHistories.{NotedMayFollow, entry_of_noted};
ghost use Rattle.definition_rows.specs.Notes.{default_shape, root, least_region, arena, cache, bin, mail, root_place, post_nothing, fetch_nothing};
ghost use Rattle.definition_rows.specs.Entries.{alone, access, end};
ghost use Rattle.definition_rows.specs.LogPlays.{logs, lanes_of, noted, born, watched_touch, of_no_lane};

/// A history is the notes of all lanes in order of number, each once from 1 on.
pub fn whole_histories()
    ensures in_order { history_of (Object.Root 0) logs
        ≡ (0, Did.Birth (root 0 1 4) (least_region 1)) ∷ (1, Did.Touch) ∷ (0, Did.Set 0 (7 ∷ []))
        ∷ (1, Did.End (root 0 1 4)) ∷ [] }
    ensures whole { IsHistory (Object.Root 0) logs (history_of (Object.Root 0) logs) }
    ensures none { history_of (Object.Root 1) logs ≡ [] }
    ensures number_left_out { ¬ IsHistory (Object.Root 0) ((root_place 0 2 Did.Touch ∷ []) ∷ [])
        ((0, Did.Touch) ∷ []) }
    ensures number_twice { ¬ IsHistory (Object.Root 0)
        ((root_place 0 1 Did.Touch ∷ []) ∷ (root_place 0 1 Did.Touch ∷ []) ∷ [])
        ((0, Did.Touch) ∷ (1, Did.Touch) ∷ []) }
    ensures out_of_order { ¬ IsHistory (Object.Root 0)
        ((root_place 0 2 Did.Touch ∷ root_place 0 1 Did.Touch ∷ []) ∷ [])
        ((0, Did.Touch) ∷ (0, Did.Touch) ∷ []) }
{}

/// A place's history tells the root of an access, and the region that an end takes out.
pub fn entries_of_notes()
    ensures touch { entry_of logs (root_place 0 2 Did.Touch) ≡ access (root 0 1 4) 2 Did.Touch }
    ensures set { entry_of logs (root_place 0 3 (Did.Set 0 (7 ∷ [])))
        ≡ access (root 0 1 4) 3 (Did.Set 0 (7 ∷ [])) }
    ensures end { entry_of logs (root_place 0 4 (Did.End (root 0 1 4)))
        ≡ end (root 0 1 4) (least_region 1) 4 }
    ensures birth { entry_of logs (root_place 0 1 (Did.Birth (root 0 1 4) (least_region 1)))
        ≡ alone (root_place 0 1 (Did.Birth (root 0 1 4) (least_region 1))) }
    ensures of_no_root { entry_of logs (bin 0 1 Did.NoHandle) ≡ alone (bin 0 1 Did.NoHandle) }
{}

/// Which of three lanes, over two arenas, may note this.
pub fn lanes_that_may_note()
    ensures take { lanes_of (arena 0 1 (Did.Take 0 (least_region 0))) ≡ 0 ∷ [] }
    ensures full { lanes_of (arena 0 1 (Did.Full 0)) ≡ 0 ∷ 2 ∷ [] }
    ensures give { lanes_of (arena 0 1 (Did.Give (least_region 1))) ≡ 0 ∷ 1 ∷ 2 ∷ [] }
    ensures hit { lanes_of (cache 1 0 1 (Did.Hit (least_region 1))) ≡ 1 ∷ [] }
    ensures miss { lanes_of (cache 1 0 1 Did.Miss) ≡ 1 ∷ [] }
    ensures trim { lanes_of (cache 1 0 1 (Did.Trim 0)) ≡ 1 ∷ [] }
    ensures close { lanes_of (cache 1 0 1 (Did.Close 0)) ≡ 1 ∷ [] }
    ensures shed { lanes_of (cache 1 0 1 (Did.Shed (least_region 1))) ≡ 1 ∷ [] }
    ensures kept { lanes_of (cache 1 0 1 (Did.Kept (least_region 1))) ≡ 0 ∷ 1 ∷ 2 ∷ [] }
    ensures back { lanes_of (cache 1 0 1 (Did.Back (least_region 1) CacheNo.Full))
        ≡ 0 ∷ 1 ∷ 2 ∷ [] }
    ensures handle { lanes_of (bin 2 1 (Did.Handle 9)) ≡ 2 ∷ [] }
    ensures no_handle { lanes_of (bin 2 1 Did.NoHandle) ≡ 2 ∷ [] }
    ensures home { lanes_of (bin 2 1 (Did.Home 9)) ≡ 0 ∷ 1 ∷ 2 ∷ [] }
    ensures post { lanes_of (mail 0 1 1 post_nothing) ≡ 0 ∷ [] }
    ensures fetch { lanes_of (mail 0 1 1 fetch_nothing) ≡ 1 ∷ [] }
    ensures access { lanes_of (root_place 0 2 Did.Touch) ≡ 0 ∷ 1 ∷ 2 ∷ [] }
{}

/// A note that knows its lane may follow where the history accepts it, its root and its region are
/// those of the history, and its lane may note it.
pub fn notes_that_may_follow()
    ensures touch { NotedMayFollow (default_shape 3) (Object.Root 0) (born ∷ [])
        (noted 1 Did.Touch (Some (root 0 1 4)) None) }
    ensures end { NotedMayFollow (default_shape 3) (Object.Root 0) (born ∷ [])
        (noted 1 (Did.End (root 0 1 4)) None (Some (least_region 1))) }
    ensures miss { NotedMayFollow (default_shape 3) (Object.Cache 1 0) []
        (noted 1 Did.Miss None None) }
    ensures not_accepted { ¬ NotedMayFollow (default_shape 3) (Object.Root 0) []
        (noted 1 Did.Touch None None) }
    ensures of_another_root { ¬ NotedMayFollow (default_shape 3) (Object.Root 0) (born ∷ [])
        (noted 1 Did.Touch (Some (root 0 2 4)) None) }
    ensures without_root { ¬ NotedMayFollow (default_shape 3) (Object.Root 0) (born ∷ [])
        (noted 1 Did.Touch None None) }
    ensures of_another_region { ¬ NotedMayFollow (default_shape 3) (Object.Root 0) (born ∷ [])
        (noted 1 (Did.End (root 0 1 4)) None (Some (least_region 2))) }
    ensures of_another_lane { ¬ NotedMayFollow (default_shape 3) (Object.Cache 1 0) []
        (noted 0 Did.Miss None None) }
    ensures with_a_watch { ¬ NotedMayFollow (default_shape 3) (Object.Root 0) (born ∷ [])
        watched_touch }
    ensures touch_of_no_lane { NotedMayFollow (default_shape 3) (Object.Root 0) (born ∷ [])
        (of_no_lane (noted 1 Did.Touch (Some (root 0 1 4)) None)) }
    ensures miss_of_no_lane { ¬ NotedMayFollow (default_shape 3) (Object.Cache 1 0) []
        (of_no_lane (noted 1 Did.Miss None None)) }
    ensures entry { entry_of_noted (Object.Root 0) 2 (noted 1 Did.Touch (Some (root 0 1 4)) None)
        ≡ access (root 0 1 4) 2 Did.Touch }
{}
