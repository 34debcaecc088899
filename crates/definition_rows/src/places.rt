//! Places and regions: which of them are the same, which overlap, and which memory lies in one.

ghost use Rattle.std.specs.Prelude.{◌≡◌, Some, None, true, false};
ghost use Rattle.pool_law.specs.Places.{Overlap, ground_of, IsInPlace};
ghost use Rattle.pool_law.specs.Same.{same_region, same_taking};
ghost use Rattle.definition_rows.specs.Notes.{place, region, least_region};
ghost use Rattle.definition_rows.specs.PlacePlays.{ground_numbered, grounds, piece};

/// Two places overlap where they have a byte of a chunk in common.
pub fn overlaps()
    ensures itself { Overlap (place 32 16) (place 32 16) }
    ensures one_byte { Overlap (place 0 33) (place 32 16) }
    ensures inside { Overlap (place 0 64) (place 16 16) }
    ensures side_by_side { ¬ Overlap (place 0 32) (place 32 16) }
    ensures after { ¬ Overlap (place 48 16) (place 32 16) }
    ensures another_chunk { ¬ Overlap (place 32 16) (record (place 32 16) { chunk = 1 }) }
    ensures another_arena { ¬ Overlap (place 32 16) (record (place 32 16) { arena = 1 }) }
{}

/// The ground of a place's chunk, where the pool has that chunk place.
pub fn grounds_of_places()
    ensures first { ground_of grounds (place 32 16) ≡ Some (ground_numbered 0) }
    ensures by_chunk { ground_of grounds (record (place 32 16) { chunk = 1 })
        ≡ Some (ground_numbered 1) }
    ensures by_arena { ground_of grounds (record (place 32 16) { arena = 1 })
        ≡ Some (ground_numbered 2) }
    ensures no_chunk { ground_of grounds (record (place 32 16) { chunk = 2 }) ≡ None }
    ensures no_arena { ground_of grounds (record (place 32 16) { arena = 2 }) ≡ None }
{}

/// A piece is in place where it begins at the place's offset on its chunk's ground, and has its
/// length.
pub fn pieces_in_place()
    ensures here { IsInPlace grounds (place 32 3) (piece 0 32) }
    ensures other_offset { ¬ IsInPlace grounds (place 32 3) (piece 0 33) }
    ensures other_length { ¬ IsInPlace grounds (place 32 4) (piece 0 32) }
    ensures other_chunk { ¬ IsInPlace grounds (place 32 3) (piece 1 32) }
{}

/// A region is the same taking whatever has used it since, and the same region after as many uses.
pub fn same_regions()
    ensures itself { same_region (least_region 2) (least_region 2) ≡ true }
    ensures other_uses { same_region (least_region 2) (least_region 1) ≡ false }
    ensures same_taking { same_taking (least_region 2) (least_region 1) ≡ true }
    ensures other_taking { same_taking (region (place 0 16) 0 2 1) (least_region 1) ≡ false }
    ensures other_offset { same_taking (region (place 16 16) 0 1 1) (least_region 1) ≡ false }
    ensures other_class { same_taking (region (place 0 16) 1 1 1) (least_region 1) ≡ false }
    ensures other_owner { same_taking (record (least_region 1) { owner = 1 }) (least_region 1)
        ≡ false }
{}
