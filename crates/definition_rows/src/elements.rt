//! Elements of a subpage: which one is handed out next.

ghost use Rattle.std.specs.Prelude.{◌≡◌, [], ◌∷◌, Some, None, true, false};
ghost use Rattle.size_classes.specs.Elements.{new_elements, with_out, with_back, is_full, is_idle, is_out};
ghost use Rattle.definition_rows.specs.ElementPlays.{handed_out, all_out};

/// The lowest that is free, unless one was given back: the last of those comes first.
pub fn element_order()
    ensures lowest_first { handed_out 5 (new_elements 4)
        ≡ Some 0 ∷ Some 1 ∷ Some 2 ∷ Some 3 ∷ None ∷ [] }
    ensures last_given_first { handed_out 3 (with_back (with_back (all_out 4) 1) 3)
        ≡ Some 3 ∷ Some 1 ∷ None ∷ [] }
    ensures then_the_lowest { handed_out 3 (with_back (with_back (with_back (all_out 4) 0) 2) 1)
        ≡ Some 1 ∷ Some 0 ∷ Some 2 ∷ [] }
    ensures forgotten { with_out (with_back (all_out 4) 2) 2 ≡ all_out 4 }
{}

/// Full and idle subpages.
pub fn full_and_idle()
    ensures full { is_full (all_out 4) ≡ true }
    ensures not_full { is_full (with_back (all_out 4) 2) ≡ false }
    ensures idle { is_idle (new_elements 4) ≡ true }
    ensures not_idle { is_idle (with_out (new_elements 4) 0) ≡ false }
    ensures idle_again { is_idle (with_back (with_out (new_elements 4) 0) 0) ≡ true }
    ensures out { is_out (with_out (new_elements 4) 0) 0 ≡ true }
    ensures free { is_out (with_out (new_elements 4) 0) 1 ≡ false }
{}
