//! A seat of a board reads a composite while another seat of the pool is at the root of a
//! component.

ghost use Rattle.std.specs.Prelude.{◌≡◌, ◌≤◌};
ghost use Rattle.pool_table.specs.Counts.{HasCount};
ghost use Rattle.shared_pool.specs.SeatViews.{view_of};
ghost use Rattle.seat_work.specs.Hands.{empty_hand};
ghost use Rattle.seat_work.specs.Works.{Works};
ghost use Rattle.board_cases.specs.Seats.{Can};
ghost use Rattle.board_cases.specs.Texts.{Shows};

use crate::cores::{LAYOUT, Opened, SMALL, core_before, filled, open, open_board};
use crate::lives::read_middle;
use crate::seats::hand_on;
use pool_law::{Object, Parcel, RootId, ViewData};
use seat_work::{fetch, post, retain};
use shared_composite::{Board, BoardSeat, Busy};
use shared_pool::{PoolSeat, SharedPool, Went};
use std::mem::ManuallyDrop;
use std::process::Abort;
use std::sync::Wait;
use std::test::Fail;

// The root of a view that the second lane fetches.
fn fetched<R: Abort + Wait>(rt: &R, pool: &SharedPool, seat: &mut PoolSeat) -> RootId
    requires layout { pool.now.layout ≡ LAYOUT }
    requires works { Works pool.now empty_hand 1 0 seat.old }
    ensures works { Works pool.now empty_hand 1 0 seat.new }
    ensures counts { HasCount result (view_of seat.new) }
{
    match fetch(rt, pool, seat, 0) {
        Some(Parcel { view: Some(view) }) => view.root,
        Some(Parcel { view: None }) | None => panic!(rt; "nothing came"),
    }
}

// What a read answers, and whether it has read the parts before the third one and no more.
fn try_read(board: &Board, pool: &SharedPool, seat: &mut BoardSeat) -> (Result<u64, Busy>, bool)
    requires shows { Shows pool.now board.now }
    requires can { Can board.now 0 1 seat.old }
{
    let mut out = *b"......";
    let read = board.read(pool, seat, 0, 0, &mut out);
    (read, out == *b"hard..")
}

// Whether a read finds the other seat at the root, which is there for its third note: it is told
// where and behind which note, and has read the parts before that of the root.
fn meets(
    board: &Board,
    pool: &SharedPool,
    seat: &mut BoardSeat,
    other: &mut PoolSeat,
    root: RootId,
) -> bool
    requires shows { Shows pool.now board.now }
    requires can { Can board.now 0 1 seat.old }
    requires works { Works pool.now empty_hand 1 0 other.old }
    requires counts { HasCount root (view_of other.old) }
    requires capacity { 4 ≤ root.capacity }
{
    let reads = |_bytes: &[u8]| try_read(board, pool, seat);
    match pool.with_bytes(other, root, 0, 4, reads) {
        Went::Did(number, (Err(Busy::Pool(held)), before)) => {
            number == 3 && held.object == Object::Root(root.place) && held.number == 2 && before
        }
        Went::Did(_number, _read) => false,
        Went::Held(_, _reads) => false,
    }
}

// The first seat makes the root, in which the second one is while it is read, and leaves it to a
// core. A seat that was handed on reads again. The pool and the board are left as they are.
#[test]
fn a_read_finds_another_seat_at_a_component(rt: HostRuntime) -> Result<(), Fail> {
    let alloc = rt.alloc();
    let Opened {
        pool,
        mut first,
        mut second,
        spare,
        mut cores,
        sizes,
    } = open(alloc)?;
    let small = filled(&rt, &pool, &sizes, &mut first, SMALL);
    retain(&pool, &mut first, small);
    let view = ViewData {
        root: small,
        offset: 0,
        len: 4,
        reader: 0,
        writer: 4,
    };
    post(&rt, &pool, &mut first, 1, Parcel { view: Some(view) });
    let there = fetched(&rt, &pool, &mut second);
    assert!(rt; there == small && there.capacity >= 4);
    cores.push_reserved(core_before(&rt, alloc, &pool, &sizes, first, small));
    let (board, mut seat) = open_board(&rt, &pool, alloc, 1, 2, cores);
    let mut again = hand_on(&board, &mut seat, 1);
    assert!(rt; meets(&board, &pool, &mut seat, &mut second, there));
    read_middle(&rt, &board, &pool, &mut again, 2);
    let _pool = unsafe { ManuallyDrop::new_unchecked(pool) };
    let _board = unsafe { ManuallyDrop::new_unchecked(board) };
    let _second = unsafe { ManuallyDrop::new_unchecked(second) };
    let _spare = unsafe { ManuallyDrop::new_unchecked(spare) };
    Ok(())
}
