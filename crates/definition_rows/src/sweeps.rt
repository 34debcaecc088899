//! The sweep of a lane's caches, once three allocations asked one.

ghost use Rattle.std.specs.Prelude.{◌≡◌, [], ◌∷◌, ◌++◌, map, replicate, Some, None, true, false};
ghost use Rattle.pool_law.specs.declared.command.Command.TheVariants.{Alloc, Release, Get, Compose, Add, Capacity};
ghost use Rattle.pool_law.specs.declared.note.Did.{Did};
ghost use Rattle.pool_law.specs.declared.note.Object.{Object};
ghost use Rattle.pool_law.specs.declared.note.RefDid.{RefDid};
ghost use Rattle.pool_law.specs.declared.run.Reply.{Reply};
ghost use Rattle.pool_law.specs.LaneLaw.{sweep_period};
ghost use Rattle.definition_rows.specs.Notes.{place};
ghost use Rattle.definition_rows.specs.Entries.{alone, on, access};
ghost use Rattle.definition_rows.specs.LanePlays.{held, handle, no_handle, hit, miss, cache_mark, taken_from, full, birth, born, home, held_region, ends_with, kept_at, held_home, gave};
ghost use Rattle.definition_rows.specs.CompositePlays as plays;
ghost use Rattle.definition_rows.specs.SweepPlays.{asking, asking_composed, trims, replies_in_period, closes_at_the_end, accepts_log};

/// An allocation counts where it asked a cache, whatever the cache answered.
pub fn allocations_that_ask()
    ensures hit { asking 0 (Alloc 2 8) (handle ∷ hit ∷ birth 2 ∷ born ∷ [])
        ≡ Some (Reply.OkPlace 16 (place 32 16), 1) }
    ensures miss { asking 1 (Alloc 2 8) (handle ∷ miss ∷ taken_from 0 ∷ birth 1 ∷ born ∷ [])
        ≡ Some (Reply.OkPlace 16 (place 32 16), 2) }
    ensures busy { asking 0 (Alloc 2 8) (handle ∷ cache_mark ∷ taken_from 0 ∷ birth 1 ∷ born ∷ [])
        ≡ Some (Reply.OkPlace 16 (place 32 16), 1) }
    ensures refused_full { asking 0 (Alloc 2 8) (handle ∷ miss ∷ full 0 ∷ home ∷ [])
        ≡ Some (Reply.Full, 1) }
    ensures without_handle { asking 0 (Alloc 2 8) (no_handle ∷ []) ≡ Some (Reply.Handles, 0) }
    ensures without_cache { asking 0 (Alloc 2 40960) (handle ∷ full 40 ∷ home ∷ [])
        ≡ Some (Reply.Full, 0) }
    // a release that finds its cache busy is no allocation
    ensures release { asking 1 (Release 0)
        (ends_with held_region (cache_mark ∷ gave held_region ∷ held_home ∷ []))
        ≡ Some (Reply.Freed, 1) }
    ensures compose { asking_composed 0 (Compose 2 (replicate 17 0))
        (plays.handle ++ plays.birth ++ plays.copies 0 17
        ++ ends_with held_region (kept_at 0 held_region ∷ held_home ∷ []))
        ≡ Some (Reply.OkNumber 68, 1) }
    ensures compose_alone { asking_composed 0 (Compose 2 (replicate 16 0)) []
        ≡ Some (Reply.OkNumber 64, 0) }
    ensures add { asking_composed 1 (Add 10 0) (plays.handle ++ plays.full)
        ≡ Some (Reply.Full, 2) }
    ensures growth { asking 1 (Capacity 0 16)
        (access held 2 (Did.Room 16 8) ∷ miss ∷ full 0 ∷ [])
        ≡ Some (Reply.Full, 2) }
    ensures growth_without_cache { asking 1 (Capacity 0 40960)
        (access held 2 (Did.Room 40960 8) ∷ full 40 ∷ [])
        ≡ Some (Reply.Full, 1) }
    ensures growth_in_its_region { asking 1 (Capacity 0 16) (access held 2 (Did.Extend 16) ∷ [])
        ≡ Some (Reply.OkNumber 16, 1) }
{}

/// The third allocation ends with a sweep, also where it is refused, and the count begins anew.
pub fn sweeps_when_due()
    ensures third { asking 2 (Alloc 2 8)
        (handle ∷ hit ∷ birth 2 ∷ born ∷ map alone (trims 0 0 9 40))
        ≡ Some (Reply.OkPlace 16 (place 32 16), 0) }
    ensures third_refused { asking 2 (Alloc 2 8)
        (handle ∷ miss ∷ full 0 ∷ home ∷ map alone (trims 0 0 9 40))
        ≡ Some (Reply.Full, 0) }
    ensures third_composed { asking_composed 2 (Compose 2 (replicate 17 0))
        (plays.handle ++ plays.birth ++ plays.copies 0 17
        ++ ends_with held_region (kept_at 0 held_region ∷ held_home ∷ [])
        ++ map alone (trims 0 0 9 40))
        ≡ Some (Reply.OkNumber 68, 0) }
    ensures third_growth { asking 2 (Capacity 0 16)
        (access held 2 (Did.Room 16 8) ∷ miss ∷ full 0 ∷ map alone (trims 0 0 9 40))
        ≡ Some (Reply.Full, 0) }
    ensures not_left_out { asking 2 (Alloc 2 8) (handle ∷ hit ∷ birth 2 ∷ born ∷ []) ≡ None }
    ensures not_before { asking 1 (Alloc 2 8)
        (handle ∷ hit ∷ birth 2 ∷ born ∷ map alone (trims 0 0 9 40)) ≡ None }
    ensures not_by_another { asking 2 (Get 0 0 1 false)
        (access held 2 (Did.Get 0 (7 ∷ [])) ∷ map alone (trims 0 0 9 40)) ≡ None }
    ensures all_classes { asking 2 (Alloc 2 8)
        (handle ∷ hit ∷ birth 2 ∷ born ∷ map alone (trims 0 0 9 39)) ≡ None }
    ensures behind_the_command { asking 2 (Alloc 2 8)
        (map alone (trims 0 0 9 40) ++ handle ∷ hit ∷ birth 2 ∷ born ∷ []) ≡ None }
    ensures in_the_law { sweep_period ≡ 8192 }
{}

/// Two roots of 32 bytes are born and released, and then one of 16 bytes. Its allocation is the
/// third that asks a cache, and sheds the two regions.
pub fn swept_log()
    ensures replies { replies_in_period 3
        ≡ Some (Reply.OkPlace 32 (place 0 32) ∷ Reply.OkPlace 32 (place 32 32) ∷ Reply.Freed
        ∷ Reply.Freed ∷ Reply.OkPlace 16 (place 8192 16) ∷ Reply.Freed ∷ []) }
    ensures closed { closes_at_the_end ≡ Some tt }
    ensures later { replies_in_period 4 ≡ None }
    ensures sooner { replies_in_period 2 ≡ None }
    ensures first_cache { accepts_log (Object.Cache 0 0) ≡ true }
    ensures second_cache { accepts_log (Object.Cache 0 1) ≡ true }
    ensures arena { accepts_log (Object.Arena 0) ≡ true }
    ensures bin { accepts_log (Object.Bin 0) ≡ true }
{}
