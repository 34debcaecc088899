//! Laws of the sound table. Each is the contract of a function that does nothing.

ghost use Rattle.pool_table.specs.declared.views.Layout.{Layout};
ghost use Rattle.pool_table.specs.Holders.{
  CapacitiesAreKnown,
  LoneRootsAreUnshared,
  PlacesInOneHand,
  PlacesInOnePlace,
  RootsBornAlone,
  RootsBornAsNamed,
  TakingsInOneHand,
  TakingsInOneHold,
};
ghost use Rattle.pool_table.specs.Turns.{RootsInTurn, WordsTellCounts};

use pool_law::Noted;
use step_law::Told;

/// Between any two steps a vacant root place is in its bin or in one seat's hands, and no other
/// place is in either.
pub fn places_have_one_holder<H: Told<Note = Noted>>()
    ensures one_hand { (l : Layout) → PlacesInOneHand H.stands l }
    ensures one_place { (l : Layout) → PlacesInOnePlace H.stands l }
{}

/// Between any two steps a taking that is out of its arena is in one seat's hands, in one cache or
/// at one root place.
pub fn takings_have_one_holder<H: Told<Note = Noted>>()
    ensures one_hand { (l : Layout) → TakingsInOneHand H.stands l }
    ensures one_hold { (l : Layout) → TakingsInOneHold H.stands l }
{}

/// Between any two steps each root that a seat counts or ended was born as it names it, and no two
/// roots of one place and generation were born.
pub fn roots_have_one_name<H: Told<Note = Noted>>()
    ensures named { (l : Layout) → RootsBornAsNamed H.stands l }
    ensures alone { (l : Layout) → RootsBornAlone H.stands l }
{}

/// Between any two steps the word of each root place is the generation of the last root there and,
/// in its raw half, twice all counts and unfetched parcels of that root, with one more while the
/// place is vacant.
pub fn words_tell_counts<H: Told<Note = Noted>>()
    ensures tells { (l : Layout) → WordsTellCounts H.stands l }
{}

/// Between any two steps the roots of each root place have come in turn: each is born once, then
/// ends, where nothing counts it any more, then is vacated, and only then the next one is born.
pub fn roots_come_in_turn<H: Told<Note = Noted>>()
    ensures in_turn { (l : Layout) → RootsInTurn H.stands l }
{}

/// Between any two steps no seat's part knows of more capacity of a root than the root has, and the
/// view of it in no letter reaches further.
pub fn capacities_are_known<H: Told<Note = Noted>>()
    ensures known { (l : Layout) → CapacitiesAreKnown H.stands l }
{}

/// Between any two steps a root that one seat bore and posted to nobody is this seat's alone: no
/// other seat counts it or noted anything of it, and no letter carries a view of it.
pub fn lone_roots_are_unshared<H: Told<Note = Noted>>()
    ensures unshared { (l : Layout) → LoneRootsAreUnshared H.stands l }
{}
