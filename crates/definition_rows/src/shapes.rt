//! What the measures of a pool and the commands of a lane may be, and which classes have a cache.

ghost use Rattle.std.specs.Prelude.{◌≡◌, [], ◌∷◌, map, true, false};
ghost use Rattle.pool_law.specs.declared.command.Command.TheVariants.{Alloc, Slice, Dup, Release, Send, Recv, Compose, Add};
ghost use Rattle.pool_law.specs.Limits.{IsShape, has_cache, cache_capacity};
ghost use Rattle.pool_law.specs.Legal.{AreCommands};
ghost use Rattle.definition_rows.specs.Notes.{default_shape};
ghost use Rattle.definition_rows.specs.ShapePlays.{two_lanes, least_shape, greatest_shape, same_names};

/// The least and the greatest measures, and those past them.
pub fn measures()
    ensures usual { IsShape (default_shape 1) }
    ensures least { IsShape least_shape }
    ensures greatest { IsShape greatest_shape }
    ensures least_page { IsShape (record least_shape { page = 4096 }) }
    ensures greatest_page { IsShape (record greatest_shape { page = 32768; order = 9 }) }
    ensures no_smaller_page { ¬ IsShape (record least_shape { page = 2048 }) }
    ensures no_page_between { ¬ IsShape (record least_shape { page = 12288 }) }
    ensures no_greater_page { ¬ IsShape (record least_shape { page = 65536 }) }
    // a chunk of 32 MiB
    ensures too_long_a_chunk { ¬ IsShape (record least_shape { page = 16384; order = 11 }) }
    ensures no_order_two { ¬ IsShape (record least_shape { order = 2 }) }
    ensures no_order_twelve { ¬ IsShape (record least_shape { order = 12 }) }
    ensures no_arenas { ¬ IsShape (record least_shape { arenas = 0 }) }
    ensures nine_arenas { ¬ IsShape (record least_shape { arenas = 9 }) }
    ensures no_chunks { ¬ IsShape (record least_shape { chunks = 0 }) }
    ensures nine_chunks { ¬ IsShape (record least_shape { chunks = 9 }) }
    // 5 arenas of 8 chunks of 16 MiB
    ensures too_much_memory { ¬ IsShape (record greatest_shape { arenas = 5 }) }
    ensures no_handles { ¬ IsShape (record least_shape { handles = 0 }) }
    ensures too_many_handles { ¬ IsShape (record least_shape { handles = 4097 }) }
    ensures no_lanes { ¬ IsShape (record least_shape { lanes = 0 }) }
    ensures seventeen_lanes { ¬ IsShape (record least_shape { lanes = 17 }) }
    ensures no_interval { ¬ IsShape (record least_shape { interval = 0 }) }
    ensures too_long_an_interval { ¬ IsShape (record least_shape { interval = 65537 }) }
{}

/// The small classes and the first normal one have a cache.
pub fn classes_with_a_cache()
    ensures which { map has_cache (0 ∷ 38 ∷ 39 ∷ 40 ∷ 67 ∷ [])
        ≡ true ∷ true ∷ true ∷ false ∷ false ∷ [] }
    ensures capacities { map cache_capacity (0 ∷ 38 ∷ 39 ∷ []) ≡ 256 ∷ 256 ∷ 64 ∷ [] }
{}

/// A lane names lanes of the run, a parcel's name is the new name of no earlier command, and a
/// composite has 1 to 24 parts.
pub fn commands_that_fit()
    ensures none { AreCommands two_lanes [] }
    ensures lanes { AreCommands two_lanes (Send 0 1 ∷ Recv 1 1 ∷ Send 0 0 ∷ Recv 2 0 ∷ []) }
    ensures no_third_lane { ¬ AreCommands two_lanes (Send 0 2 ∷ []) }
    ensures from_no_third_lane { ¬ AreCommands two_lanes (Recv 0 2 ∷ []) }
    ensures name_of_an_alloc { ¬ AreCommands two_lanes (Alloc 0 8 ∷ Recv 0 1 ∷ []) }
    ensures name_of_a_slice { ¬ AreCommands two_lanes (Slice 0 1 0 1 false ∷ Recv 0 1 ∷ []) }
    ensures name_of_a_dup { ¬ AreCommands two_lanes (Dup 0 1 ∷ Recv 0 1 ∷ []) }
    ensures name_of_a_parcel { ¬ AreCommands two_lanes (Recv 0 1 ∷ Recv 0 1 ∷ []) }
    ensures name_of_a_composite { ¬ AreCommands two_lanes (Compose 0 (1 ∷ []) ∷ Recv 0 1 ∷ []) }
    ensures used_name { AreCommands two_lanes (Release 0 ∷ Recv 0 1 ∷ []) }
    ensures later_name { AreCommands two_lanes (Recv 0 1 ∷ Alloc 0 8 ∷ []) }
    ensures one_part { AreCommands two_lanes (Compose 0 (same_names 1) ∷ Add 0 1 ∷ []) }
    ensures most_parts { AreCommands two_lanes (Compose 0 (same_names 24) ∷ []) }
    ensures no_part { ¬ AreCommands two_lanes (Compose 0 [] ∷ []) }
    ensures too_many_parts { ¬ AreCommands two_lanes (Compose 0 (same_names 25) ∷ []) }
{}
