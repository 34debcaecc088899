//! What is left in caches and at root places as a pool closes goes back to its arenas, which close.

ghost use Rattle.std.specs.Prelude.{◌≡◌, ◌≤◌, ◌++◌, ◌∷◌, [], ℕ, List, length};
ghost use Rattle.shared_pool.specs.Emptying.{Left, left_at, left_of, left_of_cache, left_of_place, AreOut, IsResting, MayGive, GivesAt};

use crate::home::Home;
use crate::root_place::{Held, RootPlace};
use crate::spent_homes::spend;
use pool_law::{Region, RegionId};
use region_cache::Cache;

// Gives all that is left to the arenas, which are the first of the home values, and closes them.
pub(crate) fn close_arenas(mut homes: Vec<Option<Home>>, arenas: usize)
    requires many { arenas ≤ length homes.items }
    requires out { AreOut arenas homes.items (left_of homes.items) }
{
    empty(&mut homes, arenas);
    while let Some(home) = homes.pop() {
        close_arena(home);
    }
    homes.destroy_empty();
}

// Closes an arena of which nothing is out.
fn close_arena(home: Option<Home>)
    requires { IsResting home }
{
    let Some(Home::Arena(arena)) = home else {
        unreachable!()
    };
    Box::into_inner(arena).close();
}

// Gives all that is left to the arenas, behind which no home value is left then.
fn empty(homes: &mut Vec<Option<Home>>, arenas: usize)
    requires many { arenas ≤ length homes.old.items }
    requires out { AreOut arenas homes.old.items (left_of homes.old.items) }
    ensures many { length homes.new.items ≡ arenas }
    ensures out { AreOut arenas homes.new.items [] }
{
    while homes.len() > arenas {
        let Some(home) = homes.pop() else {
            unreachable!()
        };
        empty_home(home, homes);
    }
}

// Gives what a home value has to the arenas, and spends it.
fn empty_home(home: Option<Home>, homes: &mut [Option<Home>])
    requires { (n : ℕ) × AreOut n homes.old (left_at home ++ left_of homes.old) }
    ensures len { length homes.new ≡ length homes.old }
    ensures out { (n : ℕ) → AreOut n homes.old (left_at home ++ left_of homes.old) →
        AreOut n homes.new (left_of homes.new) }
{
    match home {
        Some(Home::Cache(cache)) => empty_cache(Box::into_inner(cache), homes),
        Some(Home::Root(place)) => empty_place(Box::into_inner(place), homes),
        Some(home) => spend(home),
        None => (),
    }
}

// Gives the regions of a cache to the arenas, and spends it.
fn empty_cache(mut cache: Cache, homes: &mut [Option<Home>])
    requires { (n : ℕ) × AreOut n homes.old (left_of_cache cache ++ left_of homes.old) }
    ensures len { length homes.new ≡ length homes.old }
    ensures out { (n : ℕ) → AreOut n homes.old (left_of_cache cache ++ left_of homes.old) →
        AreOut n homes.new (left_of homes.new) }
{
    while let Some(region) = cache.take_out() {
        give_to(homes, region);
    }
    cache.leave();
}

// Gives the region of a root that is present to its arena, and spends the place.
fn empty_place(place: RootPlace, homes: &mut [Option<Home>])
    requires { (n : ℕ) × AreOut n homes.old (left_of_place place ++ left_of homes.old) }
    ensures len { length homes.new ≡ length homes.old }
    ensures out { (n : ℕ) → AreOut n homes.old (left_of_place place ++ left_of homes.old) →
        AreOut n homes.new (left_of homes.new) }
{
    let RootPlace {
        generation: _,
        last,
        present,
    } = place;
    let Some(held) = present else {
        return;
    };
    give_to(homes, region_of(last.region, held));
}

// The region of this name that a root has, whose handle is spent.
fn region_of(id: RegionId, held: Held) -> Region
    requires { length held.piece.bytes ≡ id.place.len }
    ensures id { result.id ≡ id }
    ensures piece { result.piece ≡ held.piece }
{
    let Held { piece, handle } = held;
    handle.leave();
    Region::new(id, piece)
}

// Gives a region to its arena.
fn give_to(homes: &mut [Option<Home>], region: Region)
    requires { (n : ℕ) × (left : List Left)
        × AreOut n homes.old ((region.id, region.piece) ∷ (left ++ left_of homes.old)) }
    ensures len { length homes.new ≡ length homes.old }
    ensures out { (n : ℕ) (left : List Left) →
        AreOut n homes.old ((region.id, region.piece) ∷ (left ++ left_of homes.old)) →
        AreOut n homes.new (left ++ left_of homes.new) }
{
    give_home(&mut homes[region.id.place.arena as usize], region);
}

// Gives a region to the arena that stands there.
fn give_home(home: &mut Option<Home>, region: Region)
    requires { MayGive home.old region.id region.piece }
    ensures { GivesAt home.old region.id home.new }
{
    let Some(Home::Arena(arena)) = home else {
        unreachable!()
    };
    arena.give(region);
}
