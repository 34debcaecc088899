//! What a section on a cache does with it.

ghost use Rattle.std.specs.Prelude.{◌≡◌, ◌<◌, false, IfSome};
ghost use Rattle.pool_law.specs.declared.note.Did.{Did};
ghost use Rattle.shared_pool.specs.CacheAnswers.{was_put, IfBack, WasInPlace, StandsMoreWith};
ghost use Rattle.shared_pool.specs.Notes.{hit};
ghost use Rattle.shared_pool.specs.Standing.{IsCache, IfCache, StandsMore};

use crate::home::Home;
use crate::went::Put;
use pool_law::{Did, Region, RegionId};
use pool_table::Section;

/// Takes the front region out of the cache of a section.
#[inline(always)]
pub(crate) fn pop(section: &mut Section<Home>) -> Option<Region>
    requires cache { IsCache section.old.home }
    requires no_quota { IfCache section.old.home (λ q. q.quota ≡ 0) }
    ensures same { (section.new.object ≡ section.old.object)
        × (section.new.slot ≡ section.old.slot) }
    ensures cache { IsCache section.new.home }
    ensures stands { StandsMore section.old.home (hit result) section.new.home }
    ensures here { IfSome result (λ r. WasInPlace section.old.home r) }
{
    let Home::Cache(cache) = Section::home(section) else {
        unreachable!()
    };
    cache.pop()
}

/// What a pop of a cache notes.
#[inline(always)]
pub(crate) fn popped(region: &Option<Region>) -> Did
    ensures { result ≡ hit region.now }
{
    match region {
        Some(region) => Did::Hit(region.id),
        None => Did::Miss,
    }
}

/// Puts a region into the cache of a section.
#[inline(always)]
pub(crate) fn put(section: &mut Section<Home>, region: Region) -> Put
    requires cache { IsCache section.old.home }
    ensures same { (section.new.object ≡ section.old.object)
        × (section.new.slot ≡ section.old.slot) }
    ensures cache { IsCache section.new.home }
    ensures stands { StandsMoreWith region section.old.home
        (was_put region.id result) section.new.home }
    ensures back { IfBack result (λ r. r ≡ region) }
{
    let Home::Cache(cache) = Section::home(section) else {
        unreachable!()
    };
    match cache.put(region) {
        Ok(()) => Put::Kept,
        Err((region, no)) => Put::Back(region, no),
    }
}

/// What a put into a cache notes.
#[inline(always)]
pub(crate) fn answered(id: RegionId, put: &Put) -> Did
    ensures { result ≡ was_put id put.now }
{
    match put {
        Put::Kept => Did::Kept(id),
        Put::Back(_, no) => Did::Back {
            region: id,
            no: *no,
        },
    }
}

/// Trims the cache of a section, and answers its quota.
#[inline(always)]
pub(crate) fn trim(section: &mut Section<Home>) -> u32
    requires cache { IsCache section.old.home }
    requires no_quota { IfCache section.old.home (λ q. q.quota ≡ 0) }
    ensures same { (section.new.object ≡ section.old.object)
        × (section.new.slot ≡ section.old.slot) }
    ensures cache { IsCache section.new.home }
    ensures stands { StandsMore section.old.home (Did.Trim result) section.new.home }
{
    let Home::Cache(cache) = Section::home(section) else {
        unreachable!()
    };
    cache.trim()
}

/// Closes the cache of a section, and answers its quota.
#[inline(always)]
pub(crate) fn close(section: &mut Section<Home>) -> u32
    requires cache { IsCache section.old.home }
    requires no_quota { IfCache section.old.home (λ q. q.quota ≡ 0) }
    requires not_closed { IfCache section.old.home (λ q. q.closed ≡ false) }
    ensures same { (section.new.object ≡ section.old.object)
        × (section.new.slot ≡ section.old.slot) }
    ensures cache { IsCache section.new.home }
    ensures stands { StandsMore section.old.home (Did.Close result) section.new.home }
{
    let Home::Cache(cache) = Section::home(section) else {
        unreachable!()
    };
    cache.close()
}

/// Sheds the front region of the cache of a section.
#[inline(always)]
pub(crate) fn shed(section: &mut Section<Home>) -> Region
    requires cache { IsCache section.old.home }
    requires quota { IfCache section.old.home (λ q. 0 < q.quota) }
    ensures same { (section.new.object ≡ section.old.object)
        × (section.new.slot ≡ section.old.slot) }
    ensures cache { IsCache section.new.home }
    ensures stands { StandsMore section.old.home (Did.Shed result.id) section.new.home }
    ensures here { WasInPlace section.old.home result }
{
    let Home::Cache(cache) = Section::home(section) else {
        unreachable!()
    };
    cache.shed()
}
