//! The order of the objects of a pool: arenas, caches, bins, root places.

ghost use Rattle.std.specs.Prelude.{◌≡◌, [], ◌∷◌, map};
ghost use Rattle.pool_law.specs.declared.note.Object.TheVariants.{Arena, Cache, Bin, Mail, Root};
ghost use Rattle.pool_law.specs.Homes.{IsObjectOf, home_of, objects_of};
ghost use Rattle.definition_rows.specs.ShapePlays.{two_lanes};

/// The homes of a pool of two arenas and two lanes with three handles each.
pub fn homes_in_order()
    ensures arenas { map (home_of two_lanes) (Arena 0 ∷ Arena 1 ∷ []) ≡ 0 ∷ 1 ∷ [] }
    ensures caches { map (home_of two_lanes) (Cache 0 0 ∷ Cache 0 39 ∷ Cache 1 0 ∷ Cache 1 39 ∷ [])
        ≡ 2 ∷ 41 ∷ 42 ∷ 81 ∷ [] }
    ensures bins { map (home_of two_lanes) (Bin 0 ∷ Bin 1 ∷ []) ≡ 82 ∷ 83 ∷ [] }
    ensures root_places { map (home_of two_lanes) (Root 0 ∷ Root 3 ∷ Root 5 ∷ [])
        ≡ 84 ∷ 87 ∷ 89 ∷ [] }
    ensures all { objects_of two_lanes ≡ 90 }
{}

/// The objects of that pool.
pub fn objects_of_a_pool()
    ensures last_arena { IsObjectOf two_lanes (Arena 1) }
    ensures no_third_arena { ¬ IsObjectOf two_lanes (Arena 2) }
    ensures last_cache { IsObjectOf two_lanes (Cache 1 39) }
    ensures no_more_classes { ¬ IsObjectOf two_lanes (Cache 1 40) }
    ensures no_third_bin { ¬ IsObjectOf two_lanes (Bin 2) }
    ensures no_mail { ¬ IsObjectOf two_lanes (Mail 1 0) }
    ensures last_root_place { IsObjectOf two_lanes (Root 5) }
    ensures no_more_root_places { ¬ IsObjectOf two_lanes (Root 6) }
{}
