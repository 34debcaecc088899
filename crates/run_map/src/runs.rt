//! Free runs with their memory, and what a take and a give make of those of a store.

ghost use Rattle.std.specs.Prelude.{◌≡◌, ◌*◌, ◌+◌, ◌-◌, ◌<◌, ◌≤◌, All};
ghost use Rattle.size_classes.specs.Spans.{AreApart, taken_from, given_back};
ghost use Rattle.run_map.specs.Lengths.{beginning, ending, without};
ghost use Rattle.run_map.specs.Spaced.{IsRunLayout, IsPart, IsRun, span_of_run};
ghost use Rattle.run_map.specs.Stored.{IsStore, stored};

use crate::store::Store;
use ground::{Piece, Site};

// A free run: its first page, how many pages it has, and their memory.
pub(crate) struct FreeRun {
    pub(crate) first: u32,
    pub(crate) pages: u32,
    pub(crate) piece: Piece,
}

// Where a chunk lies: its ground, the bytes of a page, and how many pages it has.
#[derive(Drop)]
pub(crate) struct RunLayout {
    pub(crate) page: usize,
    pub(crate) pages: u32,
    pub(crate) site: Site,
}

// The first pages of the run that begins at a page. The rest of it, if any, stays free.
pub(crate) fn take_from(store: &mut Store, layout: &RunLayout, first: u32, pages: u32) -> Piece
    requires store { IsRunLayout layout.now × IsStore layout.now store.old }
    requires run { (0 < pages) × (pages ≤ beginning first (stored store.old)) }
    ensures store { IsStore layout.now store.new }
    ensures runs { stored store.new ≡ taken_from first pages (stored store.old) }
    ensures piece { IsPart layout.now first pages result }
{
    let FreeRun {
        first: _,
        pages: long,
        piece,
    } = store.pull(layout, first);
    if long == pages {
        return piece;
    }
    let (front, piece) = piece.split(pages as usize * layout.page);
    let rest = FreeRun {
        first: first + pages,
        pages: long - pages,
        piece,
    };
    store.put(layout, rest);
    front
}

// A run joined with the free run that ends where it begins, which goes.
fn join_before(store: &mut Store, layout: &RunLayout, run: FreeRun) -> FreeRun
    requires store { IsRunLayout layout.now × IsStore layout.now store.old }
    requires run { IsRun layout.now run × All (AreApart (span_of_run run)) (stored store.old) }
    ensures store { IsStore layout.now store.new }
    ensures runs { stored store.new
        ≡ without (run.first - ending run.first (stored store.old)) (stored store.old) }
    ensures joined { (result.first ≡ run.first - ending run.first (stored store.old))
        × (result.pages ≡ ending run.first (stored store.old) + run.pages) }
    ensures run { IsRun layout.now result }
{
    let before = store.ends[run.first as usize];
    if before == 0 {
        return run;
    }
    let FreeRun {
        first: start,
        pages,
        piece,
    } = run;
    let FreeRun {
        first,
        pages: long,
        piece: front,
    } = store.pull(layout, start - before);
    FreeRun {
        first,
        pages: long + pages,
        piece: front.join(piece),
    }
}

// A run joined with the free run that begins where it ends, which goes.
fn join_after(store: &mut Store, layout: &RunLayout, run: FreeRun) -> FreeRun
    requires store { IsRunLayout layout.now × IsStore layout.now store.old }
    requires run { IsRun layout.now run }
    ensures store { IsStore layout.now store.new }
    ensures runs { stored store.new ≡ without (run.first + run.pages) (stored store.old) }
    ensures joined { (result.first ≡ run.first) × (result.pages
        ≡ run.pages + beginning (run.first + run.pages) (stored store.old)) }
    ensures run { IsRun layout.now result }
{
    let end = run.first + run.pages;
    if end == layout.pages || store.begins[end as usize] == 0 {
        return run;
    }
    let FreeRun {
        first,
        pages,
        piece,
    } = run;
    let FreeRun {
        first: _,
        pages: more,
        piece: rest,
    } = store.pull(layout, end);
    FreeRun {
        first,
        pages: pages + more,
        piece: piece.join(rest),
    }
}

// A run comes to the others, and is merged with the free runs beside it.
pub(crate) fn give_to(store: &mut Store, layout: &RunLayout, run: FreeRun)
    requires store { IsRunLayout layout.now × IsStore layout.now store.old }
    requires run { IsRun layout.now run × All (AreApart (span_of_run run)) (stored store.old) }
    ensures store { IsStore layout.now store.new }
    ensures runs { stored store.new ≡ given_back (span_of_run run) (stored store.old) }
{
    let run = join_before(store, layout, run);
    let run = join_after(store, layout, run);
    store.put(layout, run);
}
