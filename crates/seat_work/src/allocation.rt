//! How a buffer is allocated: a handle, a region from the lane's cache or from its arena, and the
//! birth of a root. (Netty: `PooledByteBufAllocator`, `PoolThreadCache`)

ghost use Rattle.std.specs.Prelude.{◌≡◌, ℕ, ◌*◌, ◌<◌, ◌≤◌, Some, IfOk, IfErr};
ghost use Rattle.size_classes.specs.Sizes.{class_of};
ghost use Rattle.pool_law.specs.Limits.{geometry_of};
ghost use Rattle.pool_law.specs.Patterns.{allot};
ghost use Rattle.pool_law.specs.Views.{most_capacity};
ghost use Rattle.pool_table.specs.Counts.{HasCount};
ghost use Rattle.shared_pool.specs.SeatLanes.{lane_of};
ghost use Rattle.shared_pool.specs.SeatViews.{view_of};
ghost use Rattle.seat_work.specs.Hands.{empty_hand, IsHandle};
ghost use Rattle.seat_work.specs.Works.{HasBorn, IsLater, Proceeds, Works};
ghost use Rattle.seat_work.specs.Names.{of_name};
ghost use Rattle.seat_work.specs.Answers.{with_place, allocated, with_arena, with_class, Allots, IsWorn, IsWornAt};

use crate::birth::bear_or_return;
use crate::ending::put_handle;
use crate::popping::pop_handle;
use crate::regions::{pop_region, take_region};
use handle_bin::Handle;
use pool_law::{RootId, Watch};
use shared_pool::{PoolSeat, SharedPool};
use size_classes::CACHED_CLASSES;
use std::sync::Wait;

/// Why no buffer was to be had.
#[derive(Clone, Copy, PartialEq, Eq, Debug, Drop)]
pub enum AllocNo {
    /// All handles of the lane are out.
    NoHandle,
    /// The lane's arena is full for the class.
    Full,
    /// The place of the lane's next handle has had as many roots as it has names for. The handle
    /// goes to the end of the lane's bin, so that another call gets the next one.
    Worn,
}

// The name of a root: all of it but its capacity.
#[derive(Clone, Copy, Drop)]
struct Name {
    place: u32,
    generation: u32,
}

/// A new root of `size` bytes, all 0, that the seat then counts once. `class` is that of the size.
/// A refusal leaves the seat with nothing in hand, and its counts as they were. On the way no bytes
/// are accessed and no parcel is passed.
#[inline(always)]
pub fn allocate<W: Wait>(
    rt: &W,
    pool: &SharedPool,
    seat: &mut PoolSeat,
    size: u32,
    class: u32,
    watch: Option<Watch>,
) -> Result<RootId, AllocNo>
    requires works { Works pool.now empty_hand 6 0 seat.old }
    requires class { class_of (geometry_of pool.now.table.layout.shape) size ≡ Some class }
    ensures proceeds { Proceeds pool.now empty_hand 6 0 (allocated result) seat.old seat.new }
    ensures root { IfOk result (λ root. (root.capacity ≡ size) × HasCount root (view_of seat.new)) }
    ensures place { let shape = pool.now.table.layout.shape in
        IfOk result (λ root. root.place < shape.lanes * shape.handles) }
    ensures small { IfOk result (λ root. root.capacity ≤ most_capacity) }
    ensures born { IfOk result (λ root. HasBorn pool.now root seat.old seat.new) }
    ensures later { IsLater pool.now seat.old seat.new }
    ensures worn { IfErr result (IsWorn pool.now seat.old seat.new) }
    ensures allots { let shape = pool.now.table.layout.shape in
        Allots (allot shape (lane_of seat.old) size) class watch result
        (view_of seat.old) (view_of seat.new) }
{
    match allocate_named(rt, pool, seat, size, class, &watch) {
        Ok(name) => Ok(RootId {
            place: name.place,
            generation: name.generation,
            capacity: size,
        }),
        Err(no) => Err(no),
    }
}

// The same. The answer is what the caller doesn't know yet of the root: one word, which is read as it
// was written, however the caller takes the root apart.
#[inline(always)]
fn allocate_named<W: Wait>(
    rt: &W,
    pool: &SharedPool,
    seat: &mut PoolSeat,
    size: u32,
    class: u32,
    watch: &Option<Watch>,
) -> Result<Name, AllocNo>
    requires works { Works pool.now empty_hand 6 0 seat.old }
    requires class { class_of (geometry_of pool.now.table.layout.shape) size ≡ Some class }
    ensures proceeds { Proceeds pool.now empty_hand 6 0 (allocated (of_name size result))
        seat.old seat.new }
    ensures root { IfOk (of_name size result)
        (λ root. (root.capacity ≡ size) × HasCount root (view_of seat.new)) }
    ensures place { let shape = pool.now.table.layout.shape in
        IfOk (of_name size result) (λ root. root.place < shape.lanes * shape.handles) }
    ensures small { IfOk (of_name size result) (λ root. root.capacity ≤ most_capacity) }
    ensures born { IfOk (of_name size result)
        (λ root. HasBorn pool.now root seat.old seat.new) }
    ensures later { IsLater pool.now seat.old seat.new }
    ensures worn { IfErr (of_name size result) (IsWorn pool.now seat.old seat.new) }
    ensures allots { let shape = pool.now.table.layout.shape in
        Allots (allot shape (lane_of seat.old) size) class watch.now (of_name size result)
        (view_of seat.old) (view_of seat.new) }
{
    match pop_handle(rt, pool, seat) {
        Some(handle) => named(allocate_at(rt, pool, seat, handle, size, class, watch)),
        None => Err(AllocNo::NoHandle),
    }
}

// A root's name, in place of the root.
#[inline(always)]
fn named(born: Result<RootId, AllocNo>) -> Result<Name, AllocNo>
    ensures { (size : ℕ) → IfOk born (λ root. root.capacity ≡ size) →
        of_name size result ≡ born }
{
    match born {
        Ok(root) => Ok(Name {
            place: root.place,
            generation: root.generation,
        }),
        Err(no) => Err(no),
    }
}

// A new root at the place of a handle, with a region of the lane's cache where there is one.
#[inline(always)]
fn allocate_at<W: Wait>(
    rt: &W,
    pool: &SharedPool,
    seat: &mut PoolSeat,
    handle: Handle,
    size: u32,
    class: u32,
    watch: &Option<Watch>,
) -> Result<RootId, AllocNo>
    requires works { Works pool.now (with_place handle.place) 5 0 seat.old }
    requires handle { IsHandle pool.now handle }
    requires own { handle.lane ≡ lane_of seat.old }
    requires class { class_of (geometry_of pool.now.table.layout.shape) size ≡ Some class }
    ensures proceeds { Proceeds pool.now empty_hand 5 0 (allocated result) seat.old seat.new }
    ensures root { IfOk result (λ root. (root.capacity ≡ size) × HasCount root (view_of seat.new)) }
    ensures place { let shape = pool.now.table.layout.shape in
        IfOk result (λ root. root.place < shape.lanes * shape.handles) }
    ensures born { IfOk result (λ root. HasBorn pool.now root seat.old seat.new) }
    ensures later { IsLater pool.now seat.old seat.new }
    ensures worn { IfErr result (IsWornAt pool.now handle.place seat.old seat.new) }
    ensures allots { let shape = pool.now.table.layout.shape in let lane = lane_of seat.old in
        Allots (with_class shape lane class size handle.place) class watch.now result
        (view_of seat.old) (view_of seat.new) }
{
    if class >= CACHED_CLASSES {
        return allocate_taken(rt, pool, seat, handle, size, class, watch);
    }
    match pop_region(pool, seat, Some(&handle), class) {
        Some(region) => bear_or_return(rt, pool, seat, handle, region, size, watch),
        None => allocate_taken(rt, pool, seat, handle, size, class, watch),
    }
}

// The same, with a region of the lane's arena. Here the copy of the handle is made that goes to the
// call, and not at the head of each allocation.
#[inline(always)]
fn allocate_taken<W: Wait>(
    rt: &W,
    pool: &SharedPool,
    seat: &mut PoolSeat,
    handle: Handle,
    size: u32,
    class: u32,
    watch: &Option<Watch>,
) -> Result<RootId, AllocNo>
    requires works { Works pool.now (with_place handle.place) 4 0 seat.old }
    requires handle { IsHandle pool.now handle }
    requires own { handle.lane ≡ lane_of seat.old }
    requires class { class_of (geometry_of pool.now.table.layout.shape) size ≡ Some class }
    ensures proceeds { Proceeds pool.now empty_hand 4 0 (allocated result) seat.old seat.new }
    ensures root { IfOk result (λ root. (root.capacity ≡ size) × HasCount root (view_of seat.new)) }
    ensures place { let shape = pool.now.table.layout.shape in
        IfOk result (λ root. root.place < shape.lanes * shape.handles) }
    ensures born { IfOk result (λ root. HasBorn pool.now root seat.old seat.new) }
    ensures later { IsLater pool.now seat.old seat.new }
    ensures worn { IfErr result (IsWornAt pool.now handle.place seat.old seat.new) }
    ensures allots { let shape = pool.now.table.layout.shape in let lane = lane_of seat.old in
        Allots (with_arena shape lane class size handle.place) class watch.now result
        (view_of seat.old) (view_of seat.new) }
{
    allocate_apart(rt, pool, seat, handle, size, class, watch)
}

// The same: seldom, so apart.
#[inline(never)]
fn allocate_apart<W: Wait>(
    rt: &W,
    pool: &SharedPool,
    seat: &mut PoolSeat,
    handle: Handle,
    size: u32,
    class: u32,
    watch: &Option<Watch>,
) -> Result<RootId, AllocNo>
    requires works { Works pool.now (with_place handle.place) 4 0 seat.old }
    requires handle { IsHandle pool.now handle }
    requires own { handle.lane ≡ lane_of seat.old }
    requires class { class_of (geometry_of pool.now.table.layout.shape) size ≡ Some class }
    ensures proceeds { Proceeds pool.now empty_hand 4 0 (allocated result) seat.old seat.new }
    ensures root { IfOk result (λ root. (root.capacity ≡ size) × HasCount root (view_of seat.new)) }
    ensures place { let shape = pool.now.table.layout.shape in
        IfOk result (λ root. root.place < shape.lanes * shape.handles) }
    ensures born { IfOk result (λ root. HasBorn pool.now root seat.old seat.new) }
    ensures later { IsLater pool.now seat.old seat.new }
    ensures worn { IfErr result (IsWornAt pool.now handle.place seat.old seat.new) }
    ensures allots { let shape = pool.now.table.layout.shape in let lane = lane_of seat.old in
        Allots (with_arena shape lane class size handle.place) class watch.now result
        (view_of seat.old) (view_of seat.new) }
{
    match take_region(rt, pool, seat, Some(&handle), class) {
        Some(taken) => bear_or_return(rt, pool, seat, handle, taken, size, watch),
        None => {
            put_handle(rt, pool, seat, handle);
            Err(AllocNo::Full)
        }
    }
}
