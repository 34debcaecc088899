//! A lane that is about to sweep its caches, of which the first is full.

ghost use Rattle.std.specs.Prelude.{◌≡◌, ◌≤◌, ◌∷◌, [], true, length, IfOk};
ghost use Rattle.std.specs.List.{list_all};
ghost use Rattle.pool_law.specs.Limits.{IsShape};
ghost use Rattle.shared_pool.specs.Opening.{HasRooms, IsOpened};
ghost use Rattle.seat_work.specs.Hands.{empty_hand};
ghost use Rattle.seat_work.specs.Works.{Works};
ghost use Rattle.lane_core.specs.Lanes.{IsLane};
ghost use Rattle.lane_cases.specs.Plain.{is_plain};

use lane_core::Lane;
use pool_law::{Command, CommandList, Level, Shape};
use pool_table::Layout;
use shared_pool::{PoolSeat, SharedPool};
use size_classes::{DEFAULT_PAGE, SMALL_CACHE_CAPACITY};
use std::alloc::{AllocError, Global};
use std::mem::ManuallyDrop;

// Two lanes over one chunk of 65,536 bytes. The first one's mails have room for a parcel a command.
pub(super) const LAYOUT: Layout = Layout {
    shape: Shape {
        page: DEFAULT_PAGE,
        order: 3,
        arenas: 1,
        chunks: 1,
        handles: 300,
        lanes: 2,
        level: Level::Disabled,
        interval: 128,
    },
    moves: 65_536,
    turns: 16_777_216,
};

// The first class's size, and a size of the last class that has a cache.
const SMALL: u32 = 16;

const LARGE: u32 = 32_768;

// All pages of the chunk but one.
const PAGES: u32 = 57_344;

// How many regions fill the first class's cache.
const FULL: u32 = SMALL_CACHE_CAPACITY;

// How many allocations ask a cache before the lane sweeps.
const PERIOD: u32 = 8_192;

// The line from which on each command is the same.
const FILLED: u32 = 2 + 2 * FULL + 1;

// How many lines there are: the last one's allocation is the last of the period.
const LINES: u32 = FILLED + PERIOD - FULL - 1;

// The steps before the last line: a post, an allocation without a cache, and four for each other one.
pub(super) const STEPS: u64 = 1 + 3 + 4 * (LINES as u64 - 3);

// The command of a line. One small buffer goes to the other lane, as many as its cache holds are
// allocated and released, and the other pages are allocated. Then no allocation finds a region.
fn command_at(line: u32) -> Command
    ensures { is_plain result ≡ true }
{
    if line == 0 {
        Command::Alloc {
            name: 0,
            size: SMALL,
        }
    } else if line == 1 {
        Command::Send { name: 0, lane: 1 }
    } else if line < 2 + FULL {
        Command::Alloc {
            name: line,
            size: SMALL,
        }
    } else if line < 2 + 2 * FULL {
        Command::Release { name: line - FULL }
    } else if line < FILLED {
        Command::Alloc {
            name: 1,
            size: PAGES,
        }
    } else {
        Command::Alloc {
            name: 2 + FULL,
            size: LARGE,
        }
    }
}

fn commands(alloc: Global) -> Result<CommandList, AllocError>
    ensures plain { IfOk result (λ cs. list_all is_plain cs ≡ true) }
    ensures few { IfOk result (λ cs. length cs ≤ 8450) }
{
    let mut commands = Vec::new(alloc);
    for line in 0..LINES {
        commands.push(command_at(line))?;
    }
    Ok(CommandList::of(commands))
}

// A new pool with the seats of its two lanes.
struct Opened {
    pool: SharedPool,
    first: PoolSeat,
    second: PoolSeat,
}

fn open(alloc: Global) -> Result<Opened, AllocError>
    ensures layout { IfOk result (λ o. o.pool.layout ≡ LAYOUT) }
    ensures limits { IfOk result (λ o. IsShape LAYOUT.shape) }
    ensures rooms { IfOk result (λ o. HasRooms o.pool (8450 ∷ 8450 ∷ 0 ∷ 0 ∷ [])) }
    ensures first { IfOk result (λ o. IsOpened LAYOUT o.pool 0 o.first) }
    ensures second { IfOk result (λ o. IsOpened LAYOUT o.pool 1 o.second) }
{
    let (pool, mut seats) = SharedPool::new(alloc, LAYOUT, &[LINES, LINES, 0, 0])?;
    let Some(second) = seats.pop() else {
        unreachable!()
    };
    let Some(first) = seats.pop() else {
        unreachable!()
    };
    seats.destroy_empty();
    Ok(Opened {
        pool,
        first,
        second,
    })
}

// Spends a pool and its seats.
pub(super) fn leave(pool: SharedPool, first: PoolSeat, second: PoolSeat) {
    let _pool = unsafe { ManuallyDrop::new_unchecked(pool) };
    let _first = unsafe { ManuallyDrop::new_unchecked(first) };
    let _second = unsafe { ManuallyDrop::new_unchecked(second) };
}

// A new pool with its first lane and the second one's seat.
pub(super) struct Begun {
    pub(super) pool: SharedPool,
    pub(super) lane: Lane,
    pub(super) other: PoolSeat,
}

pub(super) fn begin(alloc: Global) -> Result<Begun, AllocError>
    ensures layout { IfOk result (λ b. b.pool.layout ≡ LAYOUT) }
    ensures lane { IfOk result (λ b. IsLane b.pool b.lane) }
    ensures other { IfOk result (λ b. Works b.pool empty_hand 1000001 0 b.other) }
{
    let commands = commands(alloc)?;
    let Opened {
        pool,
        first,
        second,
    } = open(alloc)?;
    match Lane::new(alloc, commands, &LAYOUT.shape, first) {
        Ok(lane) => Ok(Begun {
            pool,
            lane,
            other: second,
        }),
        Err((_, first)) => {
            leave(pool, first, second);
            Err(AllocError)
        }
    }
}
