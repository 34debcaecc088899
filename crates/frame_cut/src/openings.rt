//! A pool with a lane for each worker and one for the cutter, and all that they start with.

ghost use Rattle.std.specs.Prelude.{◌≡◌, ℕ, ◌+◌, ◌*◌, ◌<◌, ◌≤◌, replicate, slice_index, IfOk, Some};
ghost use Rattle.size_classes.specs.Sizes.{class_of, of_pages};
ghost use Rattle.size_classes.specs.declared.TheConstants.{DEFAULT_PAGE};
ghost use Rattle.frame_words.specs.Words.{AreOptions};
ghost use Rattle.frame_cut.specs.Openings.{AreLines, IsNewPool, layout_of, room_of};
ghost use Rattle.frame_cut.specs.Tellings.{IsOpen};

use crate::starting::{new_cutter, new_workers};
use frame_core::{MAX_FRAMES, MAX_STREAM};
use frame_cutter::{Cutter, MOST_SLICES};
use frame_hash::{HashOf, Worker};
use frame_words::CutOptions;
use job_queue::{JobEnd, JobQueue, new_queue};
use pool_law::{Level, Shape};
use pool_table::Layout;
use shared_pool::{PoolSeat, SharedPool};
use size_classes::{DEFAULT_PAGE, SizeClasses};
use std::alloc::{AllocError, Global};

/// The order of the pool's chunks.
pub const ORDER: u32 = 9;

/// The turns of each seat: 2^56. Each try of an allocation takes some, and a try that finds nothing
/// is made again.
pub const SEAT_TURNS: u64 = 72_057_594_037_927_936;

/// The most lanes: those of fifteen workers, and the cutter's.
const MOST_LANES: usize = 16;

/// The queues of the workers, in order, with both ends of each.
#[derive(Drop)]
struct Lines {
    queues: Vec<JobQueue>,
    senders: Vec<JobEnd>,
    receivers: Vec<JobEnd>,
}

/// A pool at whose lanes the workers and the cutter stand, and the queues between them.
pub struct Opened {
    pub pool: SharedPool,
    pub queues: Vec<JobQueue>,
    pub workers: Vec<Worker>,
    pub cutter: Cutter,
    /// The vector in which the seats came.
    pub seats: Vec<PoolSeat>,
    /// Room for what each worker tells.
    pub told: Vec<Vec<HashOf>>,
}

/// A new pool with its workers and its cutter.
pub fn open(alloc: Global, options: CutOptions) -> Result<Opened, AllocError>
    requires { AreOptions options }
    ensures { IfOk result (IsOpen options.workers options.block) }
{
    let count = options.workers as usize;
    let lines = new_lines(alloc, count)?;
    let class = class_for(alloc, options.block)?;
    let room = room_for(options.workers, options.block);
    let rooms = rooms_of(alloc, count, room)?;
    let told = Vec::with_capacity(alloc, count)?;
    let workers = Vec::with_capacity(alloc, count)?;
    match new_pool(alloc, options.workers, room) {
        Ok((pool, mut seats)) => {
            let Lines {
                queues,
                senders,
                receivers,
            } = lines;
            let workers = new_workers(alloc, options.workers, &mut seats, receivers, workers);
            let seat = seats.remove(0);
            let cutter = new_cutter(
                alloc,
                options.workers,
                seat,
                senders,
                rooms,
                options.block,
                class,
            );
            Ok(Opened {
                pool,
                queues,
                workers,
                cutter,
                seats,
                told,
            })
        }
        Err(AllocError) => {
            workers.destroy_empty();
            Err(AllocError)
        }
    }
}

// So many queues.
fn new_lines(alloc: Global, count: usize) -> Result<Lines, AllocError>
    ensures { IfOk result (λ l.
        AreLines count l.queues.items l.senders.items l.receivers.items) }
{
    let mut queues = Vec::with_capacity(alloc, count)?;
    let mut senders = Vec::with_capacity(alloc, count)?;
    let mut receivers = Vec::with_capacity(alloc, count)?;
    for _ in 0..count {
        let (queue, sender, receiver) = new_queue(alloc)?;
        queues.push_reserved(queue);
        senders.push_reserved(sender);
        receivers.push_reserved(receiver);
    }
    Ok(Lines {
        queues,
        senders,
        receivers,
    })
}

// The class of a block.
fn class_for(alloc: Global, block: u32) -> Result<u32, AllocError>
    requires { block ≤ 65536 }
    ensures { IfOk result (λ class. class_of (of_pages ORDER DEFAULT_PAGE) block ≡ Some class) }
{
    let sizes = SizeClasses::new(alloc, ORDER, DEFAULT_PAGE)?;
    let Some(class) = sizes.class_of(block) else {
        unreachable!()
    };
    Ok(class)
}

// One lane for each worker, and one for the cutter.
fn layout_for(lanes: u32) -> Layout
    ensures { result ≡ layout_of lanes }
{
    Layout {
        shape: Shape {
            page: DEFAULT_PAGE,
            order: ORDER,
            arenas: 2,
            chunks: 4,
            handles: 4096,
            lanes,
            level: Level::Disabled,
            interval: 128,
        },
        moves: MOST_SLICES,
        turns: SEAT_TURNS,
    }
}

// As many slices may go to a worker: each ends its block, or a frame of that worker.
fn room_for(workers: u32, block: u32) -> u32
    requires workers { 0 < workers }
    requires block { 0 < block }
    ensures { result ≡ room_of workers block }
{
    MAX_STREAM.div_ceil(block) + MAX_FRAMES.div_ceil(workers)
}

// The same room for each of so many workers.
fn rooms_of(alloc: Global, count: usize, room: u32) -> Result<Vec<u32>, AllocError>
    ensures { IfOk result (λ rooms. rooms.items ≡ replicate count room) }
{
    let rooms = Vec::from_elem(alloc, room, count)?;
    Ok(rooms)
}

// The cutter's lane, which is behind those of the workers, posts so much to each of them.
fn mail_for(workers: usize, room: u32) -> [u32; 256]
    requires { workers < MOST_LANES }
    ensures { (to : ℕ) → to < workers →
        slice_index result (workers * (workers + 1) + to) ≡ room }
{
    let mut mail = [0u32; MOST_LANES * MOST_LANES];
    let own = workers * (workers + 1);
    for to in 0..workers {
        mail[own + to] = room;
    }
    mail
}

// A pool for so many workers and the cutter, which may post so much to each.
fn new_pool(
    alloc: Global,
    workers: u32,
    room: u32,
) -> Result<(SharedPool, Vec<PoolSeat>), AllocError>
    requires { (1 ≤ workers) × (workers ≤ 15) }
    ensures { IfOk result (λ o. IsNewPool workers room o.0 o.1.items) }
{
    let lanes = workers + 1;
    let mail = mail_for(workers as usize, room);
    let used = (lanes * lanes) as usize;
    let (pool, seats) = SharedPool::new(alloc, layout_for(lanes), &mail[..used])?;
    Ok((pool, seats))
}
