//! Root places: births, accesses and ends, and the bytes between them.

ghost use Rattle.std.specs.Prelude.{◌≡◌, [], ◌∷◌, ◌++◌, Some, None, is_some, true};
ghost use Rattle.pool_law.specs.declared.note.Did.TheVariants.{Birth, Set, Get, Touch, End};
ghost use Rattle.pool_law.specs.Roots.{laid_over, bytes_at};
ghost use Rattle.pool_law.specs.Histories.{place_after};
ghost use Rattle.definition_rows.specs.Notes.{root, least_region};
ghost use Rattle.definition_rows.specs.RootPlays.{after_birth, present_bytes};

/// A root is born at a vacant place, with the next generation and zeros.
pub fn births()
    ensures vacant { place_after 7 [] ≡ Some (record { generation = 0; present = None }) }
    ensures zeros { present_bytes (after_birth []) ≡ Some (0 ∷ 0 ∷ 0 ∷ 0 ∷ []) }
    ensures whole_region { is_some (place_after 7 (Birth (root 7 1 16) (least_region 1) ∷ []))
        ≡ true }
    ensures past_the_region { place_after 7 (Birth (root 7 1 17) (least_region 1) ∷ []) ≡ None }
    ensures second_first { place_after 7 (Birth (root 7 2 4) (least_region 1) ∷ []) ≡ None }
    ensures at_another_place { place_after 7 (Birth (root 6 1 4) (least_region 1) ∷ []) ≡ None }
    ensures while_present { after_birth (Birth (root 7 2 4) (least_region 2) ∷ []) ≡ None }
{}

/// An end names the root that is present, and the next birth has the next generation.
pub fn ends()
    ensures vacant { after_birth (End (root 7 1 4) ∷ [])
        ≡ Some (record { generation = 1; present = None }) }
    ensures of_another { after_birth (End (root 7 2 4) ∷ []) ≡ None }
    ensures twice { after_birth (End (root 7 1 4) ∷ End (root 7 1 4) ∷ []) ≡ None }
    ensures next { is_some
        (after_birth (End (root 7 1 4) ∷ Birth (root 7 2 8) (least_region 2) ∷ [])) ≡ true }
    ensures not_the_same { after_birth (End (root 7 1 4) ∷ Birth (root 7 1 4) (least_region 2) ∷ [])
        ≡ None }
    ensures zeros_again { present_bytes
        (after_birth (Set 0 (9 ∷ 9 ∷ []) ∷ End (root 7 1 4) ∷ Birth (root 7 2 3) (least_region 2)
        ∷ []))
        ≡ Some (0 ∷ 0 ∷ 0 ∷ []) }
{}

/// Bytes are laid over those that were there.
pub fn bytes_laid_over()
    ensures within { laid_over (0 ∷ 0 ∷ 0 ∷ 0 ∷ []) 1 (1 ∷ 2 ∷ []) ≡ 0 ∷ 1 ∷ 2 ∷ 0 ∷ [] }
    ensures all { laid_over (1 ∷ 2 ∷ []) 0 (3 ∷ 4 ∷ []) ≡ 3 ∷ 4 ∷ [] }
    ensures last { laid_over (1 ∷ 2 ∷ 3 ∷ []) 2 (9 ∷ []) ≡ 1 ∷ 2 ∷ 9 ∷ [] }
    ensures nothing { laid_over (1 ∷ 2 ∷ []) 2 [] ≡ 1 ∷ 2 ∷ [] }
    ensures found { bytes_at (0 ∷ 1 ∷ 2 ∷ 0 ∷ []) 1 2 ≡ 1 ∷ 2 ∷ [] }
    ensures one_over_another { present_bytes
        (after_birth (Set 0 (1 ∷ 2 ∷ 3 ∷ []) ∷ Set 2 (8 ∷ 9 ∷ []) ∷ []))
        ≡ Some (1 ∷ 2 ∷ 8 ∷ 9 ∷ []) }
{}

/// Accesses lie inside the capacity, and a get carries the bytes that are there.
pub fn accesses()
    ensures set_to_the_end { is_some (after_birth (Set 2 (1 ∷ 2 ∷ []) ∷ [])) ≡ true }
    ensures set_past_the_end { after_birth (Set 3 (1 ∷ 2 ∷ []) ∷ []) ≡ None }
    ensures get { is_some (after_birth (Set 1 (1 ∷ 2 ∷ []) ∷ Get 0 (0 ∷ 1 ∷ 2 ∷ []) ∷ [])) ≡ true }
    ensures get_of_other_bytes { after_birth (Set 1 (1 ∷ 2 ∷ []) ∷ Get 0 (0 ∷ 1 ∷ 3 ∷ []) ∷ [])
        ≡ None }
    // the region has 16 bytes, and the root 4
    ensures get_past_the_end { after_birth (Get 3 (0 ∷ 0 ∷ []) ∷ []) ≡ None }
    ensures get_nothing_at_the_end { is_some (after_birth (Get 4 [] ∷ [])) ≡ true }
    ensures touch { after_birth (Touch ∷ []) ≡ after_birth [] }
    ensures no_touch { place_after 7 (Touch ∷ []) ≡ None }
    ensures no_set { place_after 7 (Set 0 [] ∷ []) ≡ None }
    ensures no_get { after_birth (End (root 7 1 4) ∷ Get 0 [] ∷ []) ≡ None }
    ensures no_end { place_after 7 (End (root 7 1 4) ∷ []) ≡ None }
{}
