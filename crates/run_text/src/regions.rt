//! What lines tell of regions, roots and parcels: 0 stands for a number that a line leaves out.

ghost use Rattle.std.specs.Prelude.{◌≡◌, ◌++◌, ◌∷◌, ◌<◌, ◌^◌, ℕ, List, Option, Some, decimal};
ghost use Rattle.pool_law.specs.Text.{Text, dotted, parcel_words, shown_place, spaced, region_words, why_word};
ghost use Rattle.pool_law.specs.declared.id.RegionId.{RegionId};
ghost use Rattle.pool_law.specs.declared.id.RootId.{RootId};
ghost use Rattle.pool_law.specs.declared.id.ViewData.{ViewData};
ghost use Rattle.pool_law.specs.declared.note.CacheNo.{CacheNo};
ghost use Rattle.run_text.specs.Reading.{Gives};
ghost use Rattle.run_text.specs.Told.{FitsParcel, FitsRegion, FitsUse, FitsView, region_told, root_told, seen_of, shown_region, taking_alone, use_told, view_told};

use crate::words::Words;
use crate::{LineNo, TextNo};
use pool_law::{CacheNo, Parcel, Place, RegionId, RootId, ViewData};

// A region of which no more than this is told.
fn region_of(place: Place, taking: u64, uses: u64) -> RegionId
    ensures { result ≡ region_told place taking uses }
{
    RegionId {
        place,
        class: 0,
        owner: 0,
        taking,
        uses,
    }
}

/// Chunk and offset of a region, and the number of its taking.
pub fn spot(words: &mut Words) -> Result<RegionId, TextNo>
    ensures { (region : RegionId) (more : List Text) → FitsRegion region
        → words.old.rest.now ≡ spaced (region_words region ++ more)
        → Gives result words.new.rest.now (shown_region region) more }
{
    let (chunk, offset) = words.pair('+')?;
    let taking = words.number()?;
    let place = Place {
        arena: 0,
        chunk,
        offset,
        len: 0,
    };
    Ok(region_of(place, taking, 0))
}

/// A region, by the number of its taking.
pub fn taking(words: &mut Words) -> Result<RegionId, TextNo>
    ensures { (region : RegionId) (more : List Text) → region.taking < 2 ^ 64
        → words.old.rest.now ≡ spaced (decimal region.taking ∷ more)
        → Gives result words.new.rest.now (taking_alone region) more }
{
    let taking = words.number()?;
    let nowhere = Place {
        arena: 0,
        chunk: 0,
        offset: 0,
        len: 0,
    };
    Ok(region_of(nowhere, taking, 0))
}

/// The region of a use that begins, and the bytes of its root then.
pub fn begun(words: &mut Words) -> Result<(RegionId, u32), TextNo>
    ensures { (region : RegionId) (capacity : ℕ) (more : List Text) → FitsUse region capacity
        → words.old.rest.now ≡ spaced (shown_place region.place
        ∷ (decimal region.taking ∷ (decimal region.uses ∷ (decimal capacity ∷ more))))
        → Gives result words.new.rest.now (use_told region, capacity) more }
{
    let place = words.place(0)?;
    let taking = words.number()?;
    let uses = words.number()?;
    let capacity = words.small()?;
    Ok((region_of(place, taking, uses), capacity))
}

/// Place and generation of a root.
pub fn root(words: &mut Words) -> Result<RootId, TextNo>
    ensures { (root : RootId) (more : List Text) → root.place < 2 ^ 32 → root.generation < 2 ^ 32
        → words.old.rest.now ≡ spaced (dotted root.place root.generation ∷ more)
        → Gives result words.new.rest.now (root_told root) more }
{
    let (place, generation) = words.pair('.')?;
    Ok(RootId {
        place,
        generation,
        capacity: 0,
    })
}

// What a view is of, and what it shows.
fn view(words: &mut Words) -> Result<ViewData, TextNo>
    ensures { (view : ViewData) (more : List Text) → FitsView view
        → words.old.rest.now ≡ spaced (parcel_words (Some view) ++ more)
        → Gives result words.new.rest.now (seen_of view) more }
{
    let root = root(words)?;
    let (offset, len) = words.pair('+')?;
    let reader = words.small()?;
    let writer = words.small()?;
    Ok(ViewData {
        root,
        offset,
        len,
        reader,
        writer,
    })
}

/// A parcel.
pub fn parcel(words: &mut Words) -> Result<Parcel, TextNo>
    ensures { (view : Option ViewData) (more : List Text) → FitsParcel view
        → words.old.rest.now ≡ spaced (parcel_words view ++ more)
        → Gives result words.new.rest.now (record { view = view_told view }) more }
{
    if words.take("empty") {
        return Ok(Parcel { view: None });
    }
    let view = view(words)?;
    Ok(Parcel { view: Some(view) })
}

/// Why a cache sent a region back.
pub fn reason(words: &mut Words) -> Result<CacheNo, TextNo>
    ensures { (why : CacheNo) (more : List Text)
        → words.old.rest.now ≡ spaced (why_word why ∷ more)
        → Gives result words.new.rest.now why more }
{
    let word = words.next();
    if word == "full" {
        Ok(CacheNo::Full)
    } else if word == "closed" {
        Ok(CacheNo::Closed)
    } else {
        Err(words.refused(LineNo::Form))
    }
}
