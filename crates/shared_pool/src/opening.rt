//! How a pool is made: one home value for each object, in the order of the objects.

ghost use Rattle.std.specs.Prelude.{◌≡◌, ◌*◌, ◌<◌, ◌≤◌, ◌^◌, ◌++◌, ◌∷◌, [], length, IfOk};
ghost use Rattle.pool_law.specs.Limits.{IsShape, cached_classes, cache_capacity};
ghost use Rattle.shared_pool.specs.Opening.{IsFirstArena, IsCacheOf, IsFirstCache, IsFirstBin, IsNewRoot, Adds, AreFirst, AreFirstOf, AreOpened};

use crate::dealing::{SeatRoom, new_mails};
use crate::home::Home;
use crate::pool::SharedPool;
use crate::root_place::{Root, RootPlace};
use crate::seat::{PoolSeat, TableSeat};
use crate::spent_homes::{spend, spend_all, spend_place};
use handle_bin::Bin;
use pool_arena::Arena;
use pool_law::Shape;
use pool_table::{Layout, PoolTable};
use region_cache::Cache;
use size_classes::{CACHED_CLASSES, NORMAL_CACHE_CAPACITY, SMALL_CACHE_CAPACITY};
use std::alloc::{AllocError, AllocFailed, Global};

impl SharedPool {
    /// A pool with all the memory that it needs, and a seat for each lane, in order. `mail` has for
    /// each two lanes how many parcels the first may post to the second in all.
    ///
    /// After want of memory what was taken stays taken until the program ends.
    pub fn new(
        alloc: Global,
        layout: Layout,
        mail: &[u32],
    ) -> Result<(SharedPool, Vec<PoolSeat>), AllocError>
        requires shape { IsShape layout.shape }
        requires mail { length mail.now ≡ layout.shape.lanes * layout.shape.lanes }
        requires moves { layout.shape.lanes * layout.moves < 2 ^ 30 }
        requires turns { layout.shape.lanes * layout.turns < 2 ^ 62 }
        ensures layout { IfOk result (λ r. r.0.layout ≡ layout) }
        ensures seats { IfOk result (λ r. AreOpened layout mail.now r.0 r.1.items) }
    {
        let lanes = layout.shape.lanes;
        let (mails, posts) = new_mails(alloc, lanes, mail)?;
        let room = SeatRoom::take(alloc, lanes, posts)?;
        match new_table(alloc, layout) {
            Ok((table, seats)) => {
                let pool = SharedPool {
                    table,
                    mails,
                    layout,
                };
                let seats = room.deal(&pool, seats);
                Ok((pool, seats))
            }
            Err(AllocError) => {
                room.give_up();
                Err(AllocError)
            }
        }
    }
}

// A table with the home values of all objects, and its first seats.
fn new_table(alloc: Global, layout: Layout) -> Result<(PoolTable<Home>, Vec<TableSeat>), AllocError>
    requires shape { IsShape layout.shape }
    requires moves { layout.shape.lanes * layout.moves < 2 ^ 30 }
    requires turns { layout.shape.lanes * layout.turns < 2 ^ 62 }
    ensures layout { IfOk result (λ r. r.0.layout ≡ layout) }
    ensures seats { IfOk result (λ r. AreFirstOf layout r.0 r.1.items) }
{
    let mut homes = Vec::new(alloc);
    let Ok(()) = fill(alloc, &layout.shape, &mut homes) else {
        spend_all(homes);
        return Err(AllocError);
    };
    match PoolTable::new(alloc, layout, homes) {
        Ok((table, seats)) => Ok((table, seats)),
        Err(homes) => {
            spend_all(homes);
            Err(AllocError)
        }
    }
}

// The home values of all objects.
fn fill(alloc: Global, shape: &Shape, homes: &mut Vec<Home>) -> Result<(), AllocError>
    requires shape { IsShape shape.now }
    requires empty { homes.old.items ≡ [] }
    ensures { IfOk result (λ u. AreFirst shape.now homes.new.items) }
{
    add_arenas(alloc, shape, homes)?;
    add_caches(alloc, shape, homes)?;
    add_bins(alloc, shape, homes)?;
    add_roots(alloc, shape, homes)
}

fn add_arenas(alloc: Global, shape: &Shape, homes: &mut Vec<Home>) -> Result<(), AllocError>
    requires { IsShape shape.now }
    ensures { IfOk result (λ u.
        Adds (IsFirstArena shape.now) shape.now.arenas homes.old.items homes.new.items) }
{
    for number in 0..shape.arenas {
        let home = arena_home(alloc, shape, number)?;
        add(homes, home)?;
    }
    Ok(())
}

fn add_caches(alloc: Global, shape: &Shape, homes: &mut Vec<Home>) -> Result<(), AllocError>
    requires { IsShape shape.now }
    ensures { IfOk result (λ u.
        Adds IsFirstCache (shape.now.lanes * cached_classes) homes.old.items homes.new.items) }
{
    for index in 0..shape.lanes * CACHED_CLASSES {
        let home = cache_home(alloc, index % CACHED_CLASSES)?;
        add(homes, home)?;
    }
    Ok(())
}

fn add_bins(alloc: Global, shape: &Shape, homes: &mut Vec<Home>) -> Result<(), AllocError>
    requires { IsShape shape.now }
    ensures { IfOk result (λ u.
        Adds (IsFirstBin shape.now.handles) shape.now.lanes homes.old.items homes.new.items) }
{
    for lane in 0..shape.lanes {
        let home = bin_home(alloc, lane, shape.handles)?;
        add(homes, home)?;
    }
    Ok(())
}

fn add_roots(alloc: Global, shape: &Shape, homes: &mut Vec<Home>) -> Result<(), AllocError>
    requires { IsShape shape.now }
    ensures { IfOk result (λ u.
        Adds (λ k. IsNewRoot) (shape.now.lanes * shape.now.handles)
        homes.old.items homes.new.items) }
{
    for _ in 0..shape.lanes * shape.handles {
        let home = root_home(alloc)?;
        add(homes, home)?;
    }
    Ok(())
}

// Puts a home value behind the others.
fn add(homes: &mut Vec<Home>, home: Home) -> Result<(), AllocError>
    ensures { IfOk result (λ u. homes.new.items ≡ homes.old.items ++ home ∷ []) }
{
    match homes.push(home) {
        Ok(()) => Ok(()),
        Err(AllocFailed { value }) => {
            spend(value);
            Err(AllocError)
        }
    }
}

fn arena_home(alloc: Global, shape: &Shape, number: u32) -> Result<Home, AllocError>
    requires shape { IsShape shape.now }
    requires number { number < shape.now.arenas }
    ensures { IfOk result (IsFirstArena shape.now number) }
{
    let arena = Arena::new(alloc, number, shape.page, shape.order, shape.chunks)?;
    match Box::new(alloc, arena) {
        Ok(arena) => Ok(Home::Arena(arena)),
        Err(AllocFailed { value }) => {
            value.leave();
            Err(AllocError)
        }
    }
}

fn cache_home(alloc: Global, class: u32) -> Result<Home, AllocError>
    requires { class < cached_classes }
    ensures { IfOk result (IsCacheOf class) }
{
    let cache = Cache::new(alloc, capacity(class))?;
    match Box::new(alloc, cache) {
        Ok(cache) => Ok(Home::Cache(cache)),
        Err(AllocFailed { value }) => {
            value.leave();
            Err(AllocError)
        }
    }
}

// How many regions the cache of a class holds.
fn capacity(class: u32) -> u32
    ensures { result ≡ cache_capacity class }
{
    if class < CACHED_CLASSES - 1 {
        SMALL_CACHE_CAPACITY
    } else {
        NORMAL_CACHE_CAPACITY
    }
}

fn bin_home(alloc: Global, lane: u32, handles: u32) -> Result<Home, AllocError>
    requires lane { lane < 16 }
    requires handles { (1 ≤ handles) × (handles ≤ 4096) }
    ensures { IfOk result (IsFirstBin handles lane) }
{
    let bin = Bin::new(alloc, lane, handles)?;
    match Box::new(alloc, bin) {
        Ok(bin) => Ok(Home::Bin(bin)),
        Err(AllocFailed { value }) => {
            value.leave();
            Err(AllocError)
        }
    }
}

fn root_home(alloc: Global) -> Result<Home, AllocError>
    ensures { IfOk result IsNewRoot }
{
    let place = RootPlace {
        generation: 0,
        last: Root::none(),
        present: None,
    };
    match Box::new(alloc, place) {
        Ok(place) => Ok(Home::Root(place)),
        Err(AllocFailed { value }) => {
            spend_place(value);
            Err(AllocError)
        }
    }
}
