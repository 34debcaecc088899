//! The six lists of chunks: from which usage on a chunk moves, and who is asked first.

ghost use Rattle.std.specs.Prelude.{◌≡◌, [], ◌∷◌, Some, None};
ghost use Rattle.pool_law.specs.declared.report.ListName.TheVariants.{QInit, Q000, Q025, Q050, Q075, Q100};
ghost use Rattle.pool_law.specs.ChunkLists.{no_chunks, entered, list_of, walk, settled_up, down_to, settled_down};
ghost use Rattle.definition_rows.specs.ChunkPlays.{up_from, down_from};

/// Going up, a chunk leaves a list from the list's greatest usage on.
pub fn rising()
    ensures from_the_first { up_from QInit (0 ∷ 24 ∷ 25 ∷ 49 ∷ 50 ∷ 74 ∷ 75 ∷ 99 ∷ 100 ∷ [])
        ≡ QInit ∷ QInit ∷ Q000 ∷ Q000 ∷ Q025 ∷ Q025 ∷ Q050 ∷ Q050 ∷ Q100 ∷ [] }
    ensures from_least { up_from Q000 (1 ∷ 49 ∷ 50 ∷ 75 ∷ 100 ∷ [])
        ≡ Q000 ∷ Q000 ∷ Q025 ∷ Q050 ∷ Q100 ∷ [] }
    ensures from_quarter { up_from Q025 (25 ∷ 74 ∷ 75 ∷ 100 ∷ []) ≡ Q025 ∷ Q025 ∷ Q050 ∷ Q100 ∷ [] }
    ensures from_half { up_from Q050 (50 ∷ 99 ∷ 100 ∷ []) ≡ Q050 ∷ Q050 ∷ Q100 ∷ [] }
    ensures from_three_quarters { up_from Q075 (75 ∷ 99 ∷ 100 ∷ []) ≡ Q075 ∷ Q075 ∷ Q100 ∷ [] }
    ensures from_the_last { up_from Q100 (100 ∷ []) ≡ Q100 ∷ [] }
{}

/// Going down, a chunk leaves a list below the list's least usage. The first list keeps it, and
/// below the second it is destroyed.
pub fn sinking()
    ensures from_the_last { down_from Q100 (100 ∷ 99 ∷ 75 ∷ 74 ∷ 50 ∷ 49 ∷ 25 ∷ 24 ∷ 1 ∷ 0 ∷ [])
        ≡ Some Q100 ∷ Some Q075 ∷ Some Q075 ∷ Some Q050 ∷ Some Q050 ∷ Some Q025 ∷ Some Q025
        ∷ Some Q000 ∷ Some Q000 ∷ None ∷ [] }
    ensures from_three_quarters { down_from Q075 (75 ∷ 74 ∷ 0 ∷ [])
        ≡ Some Q075 ∷ Some Q050 ∷ None ∷ [] }
    ensures from_half { down_from Q050 (50 ∷ 49 ∷ 0 ∷ []) ≡ Some Q050 ∷ Some Q025 ∷ None ∷ [] }
    ensures from_quarter { down_from Q025 (25 ∷ 24 ∷ 0 ∷ []) ≡ Some Q025 ∷ Some Q000 ∷ None ∷ [] }
    ensures from_least { down_from Q000 (1 ∷ 0 ∷ []) ≡ Some Q000 ∷ None ∷ [] }
    ensures from_the_first { down_from QInit (24 ∷ 1 ∷ 0 ∷ [])
        ≡ Some QInit ∷ Some QInit ∷ Some QInit ∷ [] }
{}

/// A chunk enters a list at the head, and keeps its place in a list that it does not leave.
pub fn places_in_a_list()
    ensures head { entered (entered no_chunks QInit 0) QInit 1
        ≡ record no_chunks { init = 1 ∷ 0 ∷ [] } }
    ensures keeps { settled_up (record no_chunks { init = 1 ∷ 0 ∷ [] }) 0 24 (Some QInit)
        ≡ record no_chunks { init = 1 ∷ 0 ∷ [] } }
    ensures moves { settled_up
        (record no_chunks { init = 1 ∷ 0 ∷ []; q025 = 2 ∷ [] }) 0 50 (Some QInit)
        ≡ record no_chunks { init = 1 ∷ []; q025 = 0 ∷ 2 ∷ [] } }
    ensures keeps_below { settled_down (record no_chunks { q050 = 1 ∷ 0 ∷ [] }) 0 (Some Q050)
        (down_to 50 (Some Q050)) ≡ record no_chunks { q050 = 1 ∷ 0 ∷ [] } }
    ensures moves_below { settled_down
        (record no_chunks { q025 = 2 ∷ []; q050 = 1 ∷ 0 ∷ [] }) 1 (Some Q050)
        (down_to 49 (Some Q050)) ≡ record no_chunks { q025 = 1 ∷ 2 ∷ []; q050 = 0 ∷ [] } }
{}

/// One chunk of two, from its entry to its end.
pub fn one_chunk()
    ensures entered { settled_up (entered no_chunks QInit 0) 0 25 (Some QInit)
        ≡ record no_chunks { q000 = 0 ∷ [] } }
    ensures filled { settled_up (record no_chunks { q000 = 0 ∷ [] }) 0 100 (Some Q000)
        ≡ record no_chunks { q100 = 0 ∷ [] } }
    ensures destroyed { settled_down (record no_chunks { q100 = 0 ∷ [] }) 0 (Some Q100)
        (down_to 0 (Some Q100)) ≡ no_chunks }
    ensures in_a_list { list_of (record no_chunks { q100 = 0 ∷ [] }) 0 ≡ Some Q100 }
    ensures in_no_list { list_of (record no_chunks { q100 = 0 ∷ [] }) 1 ≡ None }
{}

/// The chunks in the order in which they are asked for a run. Those of the last list are not asked.
pub fn order_of_asking()
    ensures lists { walk (record {
      init = 0 ∷ [];
      q000 = 1 ∷ [];
      q025 = 2 ∷ [];
      q050 = 3 ∷ [];
      q075 = 4 ∷ [];
      q100 = 5 ∷ [];
    }) ≡ 3 ∷ 2 ∷ 1 ∷ 0 ∷ 4 ∷ [] }
    ensures heads { walk (record no_chunks { init = 2 ∷ 0 ∷ []; q025 = 3 ∷ 1 ∷ [] })
        ≡ 3 ∷ 1 ∷ 2 ∷ 0 ∷ [] }
    ensures none { walk (record no_chunks { q100 = 1 ∷ 0 ∷ [] }) ≡ [] }
{}
