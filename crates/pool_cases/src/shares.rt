//! Moves go from one lane's seat to another's and back.

ghost use Rattle.std.specs.Prelude.{◌≡◌, ◌∷◌, [], IfOk};
ghost use Rattle.shared_pool.specs.Opening.{IsOpened};

use pool_law::{Level, Shape};
use pool_table::Layout;
use shared_pool::{PoolSeat, SharedPool};
use size_classes::DEFAULT_PAGE;
use std::alloc::{AllocError, Global};
use std::mem::ManuallyDrop;
use std::test::Fail;

// Two lanes with one handle and one move each.
const LAYOUT: Layout = Layout {
    shape: Shape {
        page: DEFAULT_PAGE,
        order: 3,
        arenas: 1,
        chunks: 1,
        handles: 1,
        lanes: 2,
        level: Level::Disabled,
        interval: 128,
    },
    moves: 1,
    turns: 64,
};

fn crosses<T: Send>(x: T) -> T
    ensures { result ≡ x }
{
    x
}

struct Pair {
    pool: SharedPool,
    first: PoolSeat,
    second: PoolSeat,
}

fn open_pair(alloc: Global) -> Result<Pair, AllocError>
    ensures layout { IfOk result (λ o. o.pool.layout ≡ LAYOUT) }
    ensures first { IfOk result (λ o. IsOpened LAYOUT o.pool 0 o.first) }
    ensures second { IfOk result (λ o. IsOpened LAYOUT o.pool 1 o.second) }
{
    let (pool, mut seats) = SharedPool::new(alloc, LAYOUT, &[1, 1, 1, 1])?;
    let Some(second) = seats.pop() else {
        unreachable!()
    };
    let Some(first) = seats.pop() else {
        unreachable!()
    };
    seats.destroy_empty();
    Ok(Pair {
        pool,
        first,
        second,
    })
}

#[test]
fn moves_go_there_and_back(rt: HostRuntime) -> Result<(), Fail> {
    let Pair {
        pool,
        mut first,
        mut second,
    } = open_pair(rt.alloc())?;
    let share = crosses(pool.share(&mut second, 1));
    assert!(rt; share.moves() == 1);
    pool.accept(&mut first, share);
    let share = pool.share(&mut first, 2);
    assert!(rt; share.moves() == 2);
    pool.accept(&mut second, share);
    let _pool = unsafe { ManuallyDrop::new_unchecked(pool) };
    let _first = unsafe { ManuallyDrop::new_unchecked(first) };
    let _second = unsafe { ManuallyDrop::new_unchecked(second) };
    Ok(())
}
