//! A pool of two lanes, cores of its seats, and boards of these cores.

ghost use Rattle.std.specs.Prelude.{◌≡◌, ◌^◌, ◌<◌, ◌≤◌, ◌∷◌, [], All, Some, IfOk, length, vec_capacity};
ghost use Rattle.pool_law.specs.Limits.{geometry_of};
ghost use Rattle.pool_table.specs.Counts.{HasCount};
ghost use Rattle.shared_pool.specs.MailAnswers.{HasRoom};
ghost use Rattle.shared_pool.specs.SeatLanes.{lane_of};
ghost use Rattle.shared_pool.specs.SeatViews.{view_of};
ghost use Rattle.shared_pool.specs.declared.pool.SharedPool.{SharedPool};
ghost use Rattle.seat_work.specs.Changes.{once_more};
ghost use Rattle.seat_work.specs.Hands.{empty_hand};
ghost use Rattle.seat_work.specs.Works.{Works, Proceeds};
ghost use Rattle.shared_composite.specs.Cores.{CountsJust, IsEmptied, IsUnderway};
ghost use Rattle.board_cases.specs.Seats.{Can, used};
ghost use Rattle.board_cases.specs.Texts.{IsText, Shows, part, text_in, turns_of_board};

use composite_buf::{Composite, PartList};
use lane_stages::Stepped;
use pool_law::{Level, Part, RootId, Shape, Watch};
use pool_table::Layout;
use seat_work::{allocate, retain, set};
use shared_composite::{Board, BoardSeat, Core};
use shared_pool::{PoolSeat, SharedPool};
use size_classes::{DEFAULT_PAGE, SizeClasses};
use std::alloc::{AllocError, Global};
use std::process::Abort;
use std::sync::Wait;

// Two lanes with four handles each, over one chunk of 65,536 bytes. Each may post one parcel to
// each.
pub(crate) const LAYOUT: Layout = Layout {
    shape: Shape {
        page: DEFAULT_PAGE,
        order: 3,
        arenas: 1,
        chunks: 1,
        handles: 4,
        lanes: 2,
        level: Level::Paranoid,
        interval: 1,
    },
    moves: 8,
    turns: 10_000,
};

// The roots of each core, of which the first is in it twice, and the bytes of the core.
const LARGE: &[u8] = b"shared";

pub(crate) const SMALL: &[u8] = b"bytes";

pub(crate) const TEXT: [u8; 6] = *b"hardby";

// A core counts the first root twice, so that its first release keeps it, in one step. The other two
// end a root: a release, the root's end, its region away and its handle home.
const STEPS: u32 = 1 + 4 + 4;

// A new pool with the seats of its two lanes, the list that held them, emptied, one for two cores,
// and the pool's sizes.
pub(crate) struct Opened {
    pub(crate) pool: SharedPool,
    pub(crate) first: PoolSeat,
    pub(crate) second: PoolSeat,
    pub(crate) spare: Vec<PoolSeat>,
    pub(crate) cores: Vec<Core>,
    pub(crate) sizes: SizeClasses,
}

pub(crate) fn open(alloc: Global) -> Result<Opened, AllocError>
    ensures layout { IfOk result (λ o. o.pool.layout ≡ LAYOUT) }
    ensures sizes { IfOk result (λ o. o.sizes ≡ geometry_of LAYOUT.shape) }
    ensures works { IfOk result (λ o. Works o.pool empty_hand 10000 8 o.first
        × Works o.pool empty_hand 10000 8 o.second) }
    ensures emptied { IfOk result (λ o. IsEmptied o.pool o.first × IsEmptied o.pool o.second) }
    ensures room { IfOk result (λ o.
        HasRoom o.pool (lane_of o.first) 1 (view_of o.first)) }
    ensures spare { IfOk result (λ o. (o.spare.items ≡ []) × (2 ≤ vec_capacity o.spare)) }
    ensures cores { IfOk result (λ o. (o.cores.items ≡ []) × (2 ≤ vec_capacity o.cores)) }
{
    let sizes = SizeClasses::new(alloc, LAYOUT.shape.order, LAYOUT.shape.page)?;
    let cores = Vec::with_capacity(alloc, 2)?;
    let Ok((pool, mut seats)) = SharedPool::new(alloc, LAYOUT, &[1, 1, 1, 1]) else {
        cores.destroy_empty();
        return Err(AllocError);
    };
    let first = seats.remove(0);
    let second = seats.remove(0);
    Ok(Opened {
        pool,
        first,
        second,
        spare: seats,
        cores,
        sizes,
    })
}

// A new root of these bytes, which the seat counts once. The pool's close tells it if it is live.
pub(crate) fn filled<R: Abort + Wait>(
    rt: &R,
    pool: &SharedPool,
    sizes: &SizeClasses,
    seat: &mut PoolSeat,
    bytes: &[u8],
) -> RootId
    requires sizes { sizes.now ≡ geometry_of pool.now.table.layout.shape }
    requires works { Works pool.now empty_hand 7 0 seat.old }
    requires few { length bytes.now ≤ 64 }
    ensures proceeds { Proceeds pool.now empty_hand 7 0 (once_more result) seat.old seat.new }
    ensures counts { HasCount result (view_of seat.new) }
    ensures capacity { result.capacity ≡ length bytes.now }
{
    let size = bytes.len() as u32;
    let Some(class) = sizes.class_of(size) else {
        panic!(rt; "no class")
    };
    let watch = Watch {
        lane: 0,
        serial: 1,
        keeps: false,
    };
    let root = match allocate(rt, pool, seat, size, class, Some(watch)) {
        Ok(root) => root,
        Err(_no) => panic!(rt; "no root"),
    };
    set(rt, pool, seat, root, 0, bytes);
    root
}

fn part(root: RootId, offset: u32, len: u32) -> Part
    ensures { result ≡ part root offset len }
{
    Part { root, offset, len }
}

// Three parts: two of a root, and one of another.
fn composite(alloc: Global, large: RootId, small: RootId) -> Result<Composite, AllocError>
    ensures { IfOk result (λ c. c ≡ text_in large small) }
{
    let parts = vec![in alloc; part(large, 1, 3), part(large, 5, 1), part(small, 0, 2)]?;
    Composite::new(alloc, &PartList::of(parts))
}

// A core of three parts, the last of them of a root that the seat counts.
pub(crate) fn core_before<R: Abort + Wait>(
    rt: &R,
    alloc: Global,
    pool: &SharedPool,
    sizes: &SizeClasses,
    mut seat: PoolSeat,
    small: RootId,
) -> Core
    requires sizes { sizes.now ≡ geometry_of pool.now.table.layout.shape }
    requires works { Works pool.now empty_hand 9007 1 seat }
    requires counted { CountsJust (small ∷ []) (view_of seat) }
    requires capacity { 2 ≤ small.capacity }
    ensures { IsText pool.now result }
{
    let large = filled(rt, pool, sizes, &mut seat, LARGE);
    retain(pool, &mut seat, large);
    match composite(alloc, large, small) {
        Ok(composite) => Core::new(seat, composite),
        Err(AllocError) => panic!(rt; "no memory"),
    }
}

// A core of two new roots.
pub(crate) fn core<R: Abort + Wait>(
    rt: &R,
    alloc: Global,
    pool: &SharedPool,
    sizes: &SizeClasses,
    mut seat: PoolSeat,
) -> Core
    requires sizes { sizes.now ≡ geometry_of pool.now.table.layout.shape }
    requires works { Works pool.now empty_hand 9014 1 seat }
    requires counted { CountsJust [] (view_of seat) }
    ensures { IsText pool.now result }
{
    let small = filled(rt, pool, sizes, &mut seat, SMALL);
    core_before(rt, alloc, pool, sizes, seat, small)
}

// A board of these cores of the pool.
pub(crate) fn open_board<R: Abort>(
    rt: &R,
    _pool: &SharedPool,
    alloc: Global,
    moves: u32,
    turns: u64,
    cores: Vec<Core>,
) -> (Board, BoardSeat)
    ghost own: { SharedPool }
    requires own { own ≡ _pool.now }
    requires some { 0 < length cores.items }
    requires many { length cores.items ≤ 16 }
    requires moves { moves < 2 ^ 30 }
    requires turns { turns ≤ 350 }
    requires cores { All (IsText own) cores.items }
    ensures shows { Shows own result.0 }
    ensures seat { Can result.0 moves turns result.1 }
    ensures all { used result.1 ≡ turns_of_board result.0 }
{
    match Board::new(alloc, moves, turns, cores) {
        Ok(opened) => opened,
        Err(_cores) => panic!(rt; "no memory"),
    }
}

// Steps a core until its components are released. The answer is its seat.
pub(crate) fn stepped_out<R: Abort>(rt: &R, pool: &SharedPool, mut core: Core) -> PoolSeat
    requires { IsUnderway pool.now core }
    ensures { IsEmptied pool.now result }
{
    for steps in 0..100 {
        match core.step(pool) {
            Stepped::Went => (),
            Stepped::Finished => {
                assert!(rt; steps == STEPS);
                return core.into_seat();
            }
            Stepped::Pending(_) | Stepped::Waiting { from: _ } => panic!(rt; "nobody is there"),
        }
    }
    panic!(rt; "it goes on")
}

// Closes a pool of which no root is live.
pub(crate) fn close<R: Abort + Wait>(
    rt: &R,
    alloc: Global,
    pool: SharedPool,
    first: PoolSeat,
    second: PoolSeat,
    mut spare: Vec<PoolSeat>,
)
    requires layout { pool.layout ≡ LAYOUT }
    requires seats { IsEmptied pool first × IsEmptied pool second }
    requires spare { (spare.items ≡ []) × (2 ≤ vec_capacity spare) }
{
    is_of(rt, &first, 0);
    is_of(rt, &second, 1);
    spare.push_reserved(first);
    spare.push_reserved(second);
    match pool.close(rt, alloc, spare) {
        Ok(end) => assert!(rt; end.live.items().len() == 0),
        Err((pool, seats)) => pool.abandon(seats),
    }
}

// The seat is that of this lane.
fn is_of<R: Abort>(rt: &R, seat: &PoolSeat, lane: u32)
    ensures { (view_of seat.now).own.number ≡ Some lane }
{
    match seat.number() {
        Some(number) => assert!(rt; number == lane),
        None => panic!(rt; "a seat has a lane"),
    }
}
