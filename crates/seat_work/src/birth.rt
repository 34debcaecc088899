//! The birth of a root from a handle and a region in hand.

ghost use Rattle.std.specs.Prelude.{◌≡◌, ◌*◌, ◌<◌, ◌≤◌, Some, IfOk, IfErr};
ghost use Rattle.size_classes.specs.Sizes.{size_at};
ghost use Rattle.pool_law.specs.Patterns.{bear as bears};
ghost use Rattle.pool_table.specs.Counts.{HasCount};
ghost use Rattle.shared_pool.specs.SeatLanes.{lane_of};
ghost use Rattle.shared_pool.specs.SeatViews.{view_of};
ghost use Rattle.shared_pool.specs.Wearing.{FoundWorn};
ghost use Rattle.seat_work.specs.Hands.{empty_hand, IsHandle, IsRegion};
ghost use Rattle.seat_work.specs.Changes.{no_change, once_more};
ghost use Rattle.seat_work.specs.Works.{HasBorn, IsLater, Proceeds, Works};
ghost use Rattle.seat_work.specs.Answers.{with_both, Bears, allocated, Allots, IsWornAt};

use crate::allocation::AllocNo;
use crate::ending::return_both;
use handle_bin::Handle;
use pool_law::{Region, RootId, Watch};
use shared_pool::{PoolSeat, SharedPool, Worn};
use std::sync::Wait;

// A root is born of a handle and a region, if the handle's place isn't worn out. Else both come back.
// The root is made anew of what the caller doesn't know of it, so that it stays in registers.
#[inline(always)]
pub(crate) fn bear(
    pool: &SharedPool,
    seat: &mut PoolSeat,
    handle: Handle,
    region: Region,
    capacity: u32,
    watch: &Option<Watch>,
) -> Result<RootId, Worn>
    requires works { Works pool.now (with_both handle.place region.id) 1 0 seat.old }
    requires handle { IsHandle pool.now handle }
    requires region { IsRegion pool.now seat.old region }
    requires capacity { capacity ≤ size_at region.id.class }
    ensures born { IfOk result (λ root.
        Proceeds pool.now empty_hand 1 0 (once_more root) seat.old seat.new) }
    ensures root { IfOk result (λ root.
        (root.capacity ≡ capacity) × HasCount root (view_of seat.new)) }
    ensures place { let shape = pool.now.table.layout.shape in
        IfOk result (λ root. root.place < shape.lanes * shape.handles) }
    ensures noted { IfOk result (λ root. HasBorn pool.now root seat.old seat.new) }
    ensures reads { IfOk result (λ root.
        Bears (bears (lane_of seat.old) handle.place capacity (Some region.id)) region.id.class
        watch.now root (view_of seat.old) (view_of seat.new)) }
    ensures kept { IfErr result (λ worn.
        Proceeds pool.now (with_both worn.handle.place worn.region.id) 0 0 no_change
        seat.old seat.new) }
    ensures back { IfErr result (λ worn.
        IsHandle pool.now worn.handle × IsRegion pool.now seat.new worn.region) }
    ensures worn { IfErr result (λ worn. FoundWorn pool.now handle.place seat.old) }
    ensures later { IsLater pool.now seat.old seat.new }
{
    match pool.try_birth(seat, handle, region, capacity, *watch) {
        Ok((_number, root)) => Ok(RootId {
            place: root.place,
            generation: root.generation,
            capacity,
        }),
        Err(worn) => Err(worn),
    }
}

// A new root of a handle and a region, or both go back.
#[inline(always)]
pub(crate) fn bear_or_return<W: Wait>(
    rt: &W,
    pool: &SharedPool,
    seat: &mut PoolSeat,
    handle: Handle,
    region: Region,
    size: u32,
    watch: &Option<Watch>,
) -> Result<RootId, AllocNo>
    requires works { Works pool.now (with_both handle.place region.id) 3 0 seat.old }
    requires handle { IsHandle pool.now handle }
    requires region { IsRegion pool.now seat.old region }
    requires size { size ≤ size_at region.id.class }
    ensures proceeds { Proceeds pool.now empty_hand 3 0 (allocated result) seat.old seat.new }
    ensures root { IfOk result (λ root. (root.capacity ≡ size) × HasCount root (view_of seat.new)) }
    ensures place { let shape = pool.now.table.layout.shape in
        IfOk result (λ root. root.place < shape.lanes * shape.handles) }
    ensures born { IfOk result (λ root. HasBorn pool.now root seat.old seat.new) }
    ensures later { IsLater pool.now seat.old seat.new }
    ensures worn { IfErr result (IsWornAt pool.now handle.place seat.old seat.new) }
    ensures allots { let lane = lane_of seat.old in
        Allots (bears lane handle.place size (Some region.id)) region.id.class watch.now result
        (view_of seat.old) (view_of seat.new) }
{
    match bear(pool, seat, handle, region, size, watch) {
        Ok(root) => Ok(root),
        Err(worn) => {
            let Worn { handle, region } = worn;
            return_both(rt, pool, seat, handle, region);
            Err(AllocNo::Worn)
        }
    }
}
