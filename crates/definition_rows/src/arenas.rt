//! Arenas: which bytes a taking gets, and in which list a chunk stands then.

ghost use Rattle.std.specs.Prelude.{◌≡◌, [], ◌∷◌, ◌++◌, Some, None, is_some, true};
ghost use Rattle.pool_law.specs.declared.report.ListName.TheVariants.{QInit, Q000, Q025, Q050, Q075, Q100};
ghost use Rattle.pool_law.specs.declared.note.Did.TheVariants.{Take, Full, Give};
ghost use Rattle.definition_rows.specs.Notes.{place, region, least_region};
ghost use Rattle.definition_rows.specs.ArenaPlays.{Want, Return, played, places_taken, latest_taken, state_of, wants, returns, notes_of_one_chunk};

/// One small taking that comes back: the idle subpage stays.
pub fn smallest()
    ensures places_taken { places_taken (played 9 4 (Want 24 ∷ Return 1 ∷ []))
        ≡ None ∷ Some (0, 0) ∷ [] }
    ensures end { state_of 9 (played 9 4 (Want 24 ∷ Return 1 ∷ [])) 0
        ≡ (Some QInit, 8192, 4186112) }
{}

/// The last small class and the first that is whole pages.
pub fn last_small_and_first_normal()
    ensures places_taken { places_taken (played 9 4 (Want 28672 ∷ Want 28673 ∷ []))
        ≡ Some (0, 57344) ∷ Some (0, 0) ∷ [] }
    ensures end { state_of 9 (played 9 4 (Want 28672 ∷ Want 28673 ∷ Return 1 ∷ Return 2 ∷ [])) 0
        ≡ (Some QInit, 57344, 4136960) }
{}

/// A whole chunk goes through all lists, and is destroyed when it comes back.
pub fn whole_chunk()
    ensures taken { state_of 9 (played 9 4 (Want 4194304 ∷ [])) 0 ≡ (Some Q100, 4194304, 0) }
    ensures given { state_of 9 (played 9 4 (Want 4194304 ∷ Return 1 ∷ [])) 0 ≡ (None, 0, 0) }
{}

/// Two runs that come back side by side hold a request of both.
pub fn merging()
    ensures three { places_taken (played 4 1 (wants 3 40960))
        ≡ Some (0, 81920) ∷ Some (0, 40960) ∷ Some (0, 0) ∷ [] }
    ensures both { latest_taken
        (played 4 1 (wants 3 40960 ++ (Return 1 ∷ Return 2 ∷ Want 81920 ∷ [])))
        ≡ Some (0, 0) }
    ensures end { state_of 4
        (played 4 1 (wants 3 40960 ++ (Return 1 ∷ Return 2 ∷ Want 81920 ∷ []))) 0
        ≡ (Some Q050, 122880, 8192) }
{}

/// Full exactly where no chunk has a run of the pages and no chunk place is unused.
pub fn full()
    ensures no_run { places_taken (played 3 1 (Want 32768 ∷ Want 32768 ∷ Want 40960 ∷ []))
        ≡ None ∷ Some (0, 32768) ∷ Some (0, 0) ∷ [] }
    ensures changes_nothing { state_of 3
        (played 3 1 (wants 2 32768 ++ (Return 1 ∷ Want 40960 ∷ []))) 0
        ≡ (Some Q050, 32768, 32768) }
    ensures unused_place { places_taken (played 3 2 (wants 3 65536))
        ≡ None ∷ Some (1, 0) ∷ Some (0, 0) ∷ [] }
    ensures place_of_a_destroyed_chunk { latest_taken
        (played 3 2 (wants 2 65536 ++ (Return 1 ∷ Want 65536 ∷ [])))
        ≡ Some (0, 0) }
{}

/// One chunk through all lists and back, a quarter at a time.
pub fn through_all_lists()
    ensures one { state_of 9 (played 9 1 (wants 1 1048576)) 0 ≡ (Some Q000, 1048576, 3145728) }
    ensures two { state_of 9 (played 9 1 (wants 2 1048576)) 0 ≡ (Some Q025, 2097152, 2097152) }
    ensures three { state_of 9 (played 9 1 (wants 3 1048576)) 0 ≡ (Some Q050, 3145728, 1048576) }
    ensures four { state_of 9 (played 9 1 (wants 4 1048576)) 0 ≡ (Some Q100, 4194304, 0) }
    ensures three_again { state_of 9 (played 9 1 (wants 4 1048576 ++ returns 1 1)) 0
        ≡ (Some Q075, 3145728, 1048576) }
    ensures two_again { state_of 9 (played 9 1 (wants 4 1048576 ++ returns 1 2)) 0
        ≡ (Some Q050, 2097152, 2097152) }
    ensures one_again { state_of 9 (played 9 1 (wants 4 1048576 ++ returns 1 3)) 0
        ≡ (Some Q025, 1048576, 3145728) }
    ensures destroyed { state_of 9 (played 9 1 (wants 4 1048576 ++ returns 1 4)) 0 ≡ (None, 0, 0) }
    ensures anew { state_of 9
        (played 9 1 (wants 4 1048576 ++ (returns 1 4 ++ (Want 1048576 ∷ [])))) 0
        ≡ (Some Q000, 1048576, 3145728) }
{}

/// The lists in the order in which their chunks are asked, each from its head.
/// In each play two chunks have room for the last request.
pub fn lists_in_order()
    // chunk 0 has half its pages free, and chunk 1, the newer of the two, has three
    ensures from_the_head { latest_taken (played 3 2 (Want 32768 ∷ Want 40960 ∷ Want 24576 ∷ []))
        ≡ Some (1, 40960) }
    // chunk 0 is half full and was full before; chunk 1 has five free pages, and is a list below
    ensures half_before_quarter { latest_taken
        (played 3 2 (wants 3 32768 ++ (Want 24576 ∷ Return 3 ∷ Return 1 ∷ Want 8192 ∷ [])))
        ≡ Some (0, 0) }
    // three pages of chunk 0 are in use, after seven were; two of chunk 1
    ensures quarter_before_least { latest_taken
        (played 3 2 (Want 32768 ∷ Want 24576 ∷ Want 16384 ∷ Return 1 ∷ Want 8192 ∷ []))
        ≡ Some (0, 57344) }
    // three pages of chunk 0 are in use; one of chunk 1, after fifteen were
    ensures least_before_first { latest_taken
        (played 4 2 (Want 24576 ∷ Want 114688 ∷ Want 8192 ∷ Return 2 ∷ Want 8192 ∷ []))
        ≡ Some (1, 122880) }
    // chunk 0 has a quarter free and was full before; chunk 1 has one page in use
    ensures first_before_three_quarters { latest_taken
        (played 4 2 (Want 98304 ∷ Want 32768 ∷ Want 8192 ∷ Return 2 ∷ Want 32768 ∷ []))
        ≡ Some (1, 8192) }
    // the last list that is asked
    ensures three_quarters { latest_taken
        (played 4 1 (Want 98304 ∷ Want 32768 ∷ Return 2 ∷ Want 32768 ∷ []))
        ≡ Some (0, 98304) }
{}

/// A subpage of 512 elements; the one that comes back last is handed out next.
pub fn many_elements()
    ensures end { state_of 9 (played 9 4 (wants 257 16 ++ (Return 257 ∷ Want 16 ∷ []))) 0
        ≡ (Some QInit, 8192, 4186112) }
    ensures again { latest_taken (played 9 4 (wants 257 16 ++ (Return 257 ∷ Want 16 ∷ [])))
        ≡ Some (0, 4096) }
{}

/// Two classes have a subpage each.
pub fn two_classes()
    ensures places_taken { places_taken (played 9 4 (Want 100 ∷ Want 10 ∷ []))
        ≡ Some (0, 57344) ∷ Some (0, 0) ∷ [] }
    ensures end { state_of 9 (played 9 4 (Want 100 ∷ Want 10 ∷ [])) 0
        ≡ (Some QInit, 65536, 4128768) }
{}

/// A subpage that is full leaves its list, and enters it at the front at its next give.
pub fn front_subpages()
    ensures second { places_taken (played 3 1 (wants 3 4096))
        ≡ Some (0, 8192) ∷ Some (0, 4096) ∷ Some (0, 0) ∷ [] }
    ensures front { latest_taken (played 3 1 (wants 3 4096 ++ (Return 1 ∷ Want 4096 ∷ [])))
        ≡ Some (0, 0) }
    ensures then_the_other { latest_taken (played 3 1 (wants 3 4096 ++ (Return 1 ∷ wants 2 4096)))
        ≡ Some (0, 12288) }
{}

/// An idle subpage gives its run back, unless it is alone in its list.
pub fn idle_subpages()
    ensures alone { state_of 3 (played 3 1 (wants 2 4096 ++ returns 1 2)) 0
        ≡ (Some QInit, 8192, 57344) }
    ensures not_alone { state_of 3 (played 3 1 (wants 3 4096 ++ (Return 1 ∷ Return 3 ∷ []))) 0
        ≡ (Some Q000, 8192, 57344) }
    ensures of_one_element { state_of 3 (played 3 1 (wants 1 8192 ++ returns 1 1)) 0
        ≡ (Some QInit, 8192, 57344) }
    ensures two_of_one_element { state_of 3 (played 3 1 (wants 2 8192 ++ returns 1 2)) 0
        ≡ (Some Q000, 8192, 57344) }
{}

/// A taking is noted with exactly its place, its class and its number, and unused.
pub fn notes_of_takings()
    ensures first { is_some (notes_of_one_chunk (Take 0 (least_region 0) ∷ [])) ≡ true }
    ensures whole_chunk { is_some
        (notes_of_one_chunk (Take 43 (region (place 0 65536) 43 1 0) ∷ [])) ≡ true }
    ensures another_place { notes_of_one_chunk (Take 0 (region (place 16 16) 0 1 0) ∷ []) ≡ None }
    ensures another_length { notes_of_one_chunk (Take 0 (region (place 0 32) 0 1 0) ∷ []) ≡ None }
    ensures another_number { notes_of_one_chunk (Take 0 (region (place 0 16) 0 2 0) ∷ []) ≡ None }
    ensures another_class { notes_of_one_chunk (Take 1 (least_region 0) ∷ []) ≡ None }
    ensures used { notes_of_one_chunk (Take 0 (least_region 1) ∷ []) ≡ None }
    ensures twice { notes_of_one_chunk (Take 0 (least_region 0) ∷ Take 0 (least_region 0) ∷ [])
        ≡ None }
{}

/// A full arena is noted only where it is full, and a give only of what is out.
pub fn notes_of_full_arenas_and_gives()
    ensures full { is_some
        (notes_of_one_chunk (Take 43 (region (place 0 65536) 43 1 0) ∷ Full 0 ∷ [])) ≡ true }
    ensures not_full { notes_of_one_chunk (Take 0 (least_region 0) ∷ Full 0 ∷ []) ≡ None }
    ensures unused_chunk_place { notes_of_one_chunk (Full 0 ∷ []) ≡ None }
    ensures no_such_class { notes_of_one_chunk (Full 44 ∷ []) ≡ None }
    ensures give { is_some
        (notes_of_one_chunk (Take 0 (least_region 0) ∷ Give (least_region 3) ∷ [])) ≡ true }
    ensures not_before { notes_of_one_chunk (Give (least_region 0) ∷ []) ≡ None }
    ensures not_twice { notes_of_one_chunk
        (Take 0 (least_region 0) ∷ Give (least_region 1) ∷ Give (least_region 1) ∷ []) ≡ None }
    ensures of_another_owner { notes_of_one_chunk
        (Take 0 (least_region 0) ∷ Give (record (least_region 1) { owner = 1 }) ∷ []) ≡ None }
{}
