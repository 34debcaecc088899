//! The pool that holds the parts of all composites.

ghost use Rattle.std.specs.Prelude.{◌≡◌, ℕ, ◌≤◌, List, IfOk};
ghost use Rattle.shared_pool.specs.Opening.{AreOpened};
ghost use Rattle.share_run.specs.Standing.{layout_of};

use pool_law::{Level, Shape};
use pool_table::Layout;
use share_text::{BYTE_LIMIT, COMPOSITE_LIMIT, PART_LIMIT};
use shared_pool::{PoolSeat, SharedPool};
use size_classes::DEFAULT_PAGE;
use std::alloc::{AllocError, Global};

/// The order of the pool's chunk.
pub const ORDER: u32 = 9;

/// The turns of the board: 2^40.
pub const BOARD_TURNS: u64 = 1_099_511_627_776;

/// The moves of the board: one for each read, and one for each reader.
pub const BOARD_MOVES: u32 = 4112;

/// The turns of each seat: for all reads of the board, for the releases, and seven for each of 24
/// parts.
pub const SEAT_TURNS: u64 = 27_487_790_694_400 + 100 + 168;

// The largest input has 786,432 bytes in parts of at most 2,048. Elements of up to 2,048 bytes are of
// 24 classes, each of which has at most one unfinished run, of fewer than eight pages. One chunk of
// 4,194,304 bytes has room for all of them.
const _: () = prove!(COMPOSITE_LIMIT * PART_LIMIT * BYTE_LIMIT <= 786_432);

/// One lane for each composite, with a handle for each part.
pub fn layout_for(lanes: u32) -> Layout
    ensures { result ≡ layout_of lanes }
{
    Layout {
        shape: Shape {
            page: DEFAULT_PAGE,
            order: ORDER,
            arenas: 1,
            chunks: 1,
            handles: 24,
            lanes,
            level: Level::Disabled,
            interval: 128,
        },
        moves: 0,
        turns: SEAT_TURNS,
    }
}

/// A new pool, and a seat of it for each composite, in order.
pub fn open(alloc: Global, lanes: u32) -> Result<(SharedPool, Vec<PoolSeat>), AllocError>
    requires { (1 ≤ lanes) × (lanes ≤ 16) }
    ensures layout { IfOk result (λ o. o.0.layout ≡ layout_of lanes) }
    ensures seats { IfOk result (λ o. (mail : List ℕ)
        × AreOpened (layout_of lanes) mail o.0 o.1.items) }
{
    let mail = [0; COMPOSITE_LIMIT * COMPOSITE_LIMIT];
    let used = (lanes * lanes) as usize;
    SharedPool::new(alloc, layout_for(lanes), &mail[..used])
}
