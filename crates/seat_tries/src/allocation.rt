//! How a seat allocates a buffer: a handle, a region from the lane's cache or from its arena, and
//! the birth of a root. (Netty: `PooledByteBufAllocator`, `PoolThreadCache`)

ghost use Rattle.std.specs.Prelude.{◌≡◌, ◌*◌, ◌<◌, ◌≤◌, Some, IfOk, IfErr};
ghost use Rattle.size_classes.specs.Sizes.{class_of, size_at};
ghost use Rattle.pool_law.specs.Limits.{geometry_of, cached_classes};
ghost use Rattle.pool_law.specs.Patterns.{allot, bear as bears};
ghost use Rattle.pool_table.specs.Counts.{HasCount};
ghost use Rattle.shared_pool.specs.SeatLanes.{lane_of};
ghost use Rattle.shared_pool.specs.SeatViews.{view_of};
ghost use Rattle.seat_work.specs.Hands.{empty_hand, IsHandle, IsRegion};
ghost use Rattle.seat_work.specs.Works.{HasBorn, Works};
ghost use Rattle.seat_work.specs.Answers.{with_arena, with_both, with_class, with_place};
ghost use Rattle.seat_tries.specs.Leaving.{GoesOn};
ghost use Rattle.seat_tries.specs.Allocations.{allocated, Allots, HasCause, HasCauseAt};

use crate::begun::{Begun, put_away, put_handle};
use handle_bin::Handle;
use pool_law::{Region, RootId, Watch};
use shared_pool::{PoolSeat, SharedPool, Went, Worn};
use size_classes::CACHED_CLASSES;

/// Why no buffer was to be had.
#[derive(Clone, Copy, PartialEq, Eq, Debug, Drop)]
pub enum AllocNo {
    /// Another seat was at the lane's bin or at its arena.
    Busy,
    /// All handles of the lane are out.
    NoHandle,
    /// The lane's arena is full for the class.
    Full,
    /// The place of the lane's next handle has had as many roots as it has names for.
    Worn,
}

/// A new root of `size` bytes, all 0, that the seat then counts once, and what is left to put away.
/// `class` is that of the size.
pub fn allocate(
    pool: &SharedPool,
    seat: &mut PoolSeat,
    size: u32,
    class: u32,
    watch: Option<Watch>,
) -> (Result<RootId, AllocNo>, Begun)
    requires works { Works pool.now empty_hand 6 0 seat.old }
    requires class { class_of (geometry_of pool.now.table.layout.shape) size ≡ Some class }
    ensures goes { GoesOn pool.now 6 (allocated result.0) seat.old seat.new result.1 }
    ensures root { IfOk result.0 (λ root.
        (root.capacity ≡ size) × HasCount root (view_of seat.new)) }
    ensures place { let shape = pool.now.table.layout.shape in
        IfOk result.0 (λ root. root.place < shape.lanes * shape.handles) }
    ensures born { IfOk result.0 (λ root. HasBorn pool.now root seat.old seat.new) }
    ensures cause { IfErr result.0 (HasCause pool.now seat.old seat.new) }
    ensures allots { let shape = pool.now.table.layout.shape in
        Allots (allot shape (lane_of seat.old) size) class watch result.0 result.1
        (view_of seat.old) (view_of seat.new) }
{
    match pool.pop_handle(seat) {
        Went::Did(_number, Some(handle)) => allocate_at(pool, seat, handle, size, class, watch),
        Went::Did(_number, None) => (Err(AllocNo::NoHandle), Begun::Nothing),
        Went::Held(_held, ()) => (Err(AllocNo::Busy), Begun::Nothing),
    }
}

// A new root at the place of a handle, with a region from the lane's cache or from its arena.
fn allocate_at(
    pool: &SharedPool,
    seat: &mut PoolSeat,
    handle: Handle,
    size: u32,
    class: u32,
    watch: Option<Watch>,
) -> (Result<RootId, AllocNo>, Begun)
    requires works { Works pool.now (with_place handle.place) 5 0 seat.old }
    requires handle { IsHandle pool.now handle }
    requires own { handle.lane ≡ lane_of seat.old }
    requires class { class_of (geometry_of pool.now.table.layout.shape) size ≡ Some class }
    ensures goes { GoesOn pool.now 5 (allocated result.0) seat.old seat.new result.1 }
    ensures root { IfOk result.0 (λ root.
        (root.capacity ≡ size) × HasCount root (view_of seat.new)) }
    ensures place { let shape = pool.now.table.layout.shape in
        IfOk result.0 (λ root. root.place < shape.lanes * shape.handles) }
    ensures born { IfOk result.0 (λ root. HasBorn pool.now root seat.old seat.new) }
    ensures cause { IfErr result.0 (HasCauseAt pool.now handle.place seat.old seat.new) }
    ensures allots { let shape = pool.now.table.layout.shape in
        Allots (with_class shape (lane_of seat.old) class size handle.place) class watch
        result.0 result.1 (view_of seat.old) (view_of seat.new) }
{
    if class >= CACHED_CLASSES {
        return from_arena(pool, seat, handle, size, class, watch);
    }
    from_cache(pool, seat, handle, size, class, watch)
}

// The same where the lane has a cache of the class. It is passed by where it is empty, or where
// another seat is in it.
fn from_cache(
    pool: &SharedPool,
    seat: &mut PoolSeat,
    handle: Handle,
    size: u32,
    class: u32,
    watch: Option<Watch>,
) -> (Result<RootId, AllocNo>, Begun)
    requires works { Works pool.now (with_place handle.place) 5 0 seat.old }
    requires handle { IsHandle pool.now handle }
    requires own { handle.lane ≡ lane_of seat.old }
    requires class { class_of (geometry_of pool.now.table.layout.shape) size ≡ Some class }
    requires cached { class < cached_classes }
    ensures goes { GoesOn pool.now 5 (allocated result.0) seat.old seat.new result.1 }
    ensures root { IfOk result.0 (λ root.
        (root.capacity ≡ size) × HasCount root (view_of seat.new)) }
    ensures place { let shape = pool.now.table.layout.shape in
        IfOk result.0 (λ root. root.place < shape.lanes * shape.handles) }
    ensures born { IfOk result.0 (λ root. HasBorn pool.now root seat.old seat.new) }
    ensures cause { IfErr result.0 (HasCauseAt pool.now handle.place seat.old seat.new) }
    ensures allots { let shape = pool.now.table.layout.shape in
        Allots (with_class shape (lane_of seat.old) class size handle.place) class watch
        result.0 result.1 (view_of seat.old) (view_of seat.new) }
{
    match pool.pop_cached(seat, class) {
        Went::Did(_number, Some(region)) => bear(pool, seat, handle, region, size, watch),
        Went::Did(_number, None) => from_arena(pool, seat, handle, size, class, watch),
        Went::Held(_held, ()) => from_arena(pool, seat, handle, size, class, watch),
    }
}

// A new root at the place of a handle, with a region of the lane's arena. Where there is none, the
// handle goes home.
fn from_arena(
    pool: &SharedPool,
    seat: &mut PoolSeat,
    handle: Handle,
    size: u32,
    class: u32,
    watch: Option<Watch>,
) -> (Result<RootId, AllocNo>, Begun)
    requires works { Works pool.now (with_place handle.place) 4 0 seat.old }
    requires handle { IsHandle pool.now handle }
    requires own { handle.lane ≡ lane_of seat.old }
    requires class { class_of (geometry_of pool.now.table.layout.shape) size ≡ Some class }
    ensures goes { GoesOn pool.now 4 (allocated result.0) seat.old seat.new result.1 }
    ensures root { IfOk result.0 (λ root.
        (root.capacity ≡ size) × HasCount root (view_of seat.new)) }
    ensures place { let shape = pool.now.table.layout.shape in
        IfOk result.0 (λ root. root.place < shape.lanes * shape.handles) }
    ensures born { IfOk result.0 (λ root. HasBorn pool.now root seat.old seat.new) }
    ensures cause { IfErr result.0 (HasCauseAt pool.now handle.place seat.old seat.new) }
    ensures allots { let shape = pool.now.table.layout.shape in
        Allots (with_arena shape (lane_of seat.old) class size handle.place) class watch
        result.0 result.1 (view_of seat.old) (view_of seat.new) }
{
    match pool.take(seat, class) {
        Went::Did(_number, Some(region)) => bear(pool, seat, handle, region, size, watch),
        Went::Did(_number, None) => (Err(AllocNo::Full), put_handle(pool, seat, handle)),
        Went::Held(_held, ()) => (Err(AllocNo::Busy), put_handle(pool, seat, handle)),
    }
}

// A new root of a handle and a region. Where the handle's place is worn out, both are put away.
fn bear(
    pool: &SharedPool,
    seat: &mut PoolSeat,
    own: Handle,
    piece: Region,
    size: u32,
    watch: Option<Watch>,
) -> (Result<RootId, AllocNo>, Begun)
    requires works { Works pool.now (with_both own.place piece.id) 3 0 seat.old }
    requires handle { IsHandle pool.now own }
    requires region { IsRegion pool.now seat.old piece }
    requires size { size ≤ size_at piece.id.class }
    ensures goes { GoesOn pool.now 3 (allocated result.0) seat.old seat.new result.1 }
    ensures root { IfOk result.0 (λ root.
        (root.capacity ≡ size) × HasCount root (view_of seat.new)) }
    ensures place { let shape = pool.now.table.layout.shape in
        IfOk result.0 (λ root. root.place < shape.lanes * shape.handles) }
    ensures born { IfOk result.0 (λ root. HasBorn pool.now root seat.old seat.new) }
    ensures cause { IfErr result.0 (HasCauseAt pool.now own.place seat.old seat.new) }
    ensures allots { Allots (bears (lane_of seat.old) own.place size (Some piece.id))
        piece.id.class watch result.0 result.1 (view_of seat.old) (view_of seat.new) }
{
    match pool.try_birth(seat, own, piece, size, watch) {
        Ok((_number, root)) => (Ok(root), Begun::Nothing),
        Err(worn) => {
            let Worn { handle, region } = worn;
            (Err(AllocNo::Worn), put_away(pool, seat, handle, region))
        }
    }
}
