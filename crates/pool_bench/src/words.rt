//! The words that say what is measured.

ghost use Rattle.std.specs.Prelude.{◌≡◌, ◌<◌, ◌≤◌, IfSome, IfOk};
ghost use Rattle.pool_bench.specs.Plans.{IsPlan, IsLayoutOf};
ghost use Rattle.pool_bench.specs.Mails.{IsMailFor};

use crate::passed::next_lane;
use crate::work::Workload;
use pool_law::{Level, Shape};
use pool_table::Layout;
use size_classes::DEFAULT_PAGE;
use std::alloc::{AllocError, Global};

/// The moves of a lane that retains and releases one buffer, however often: a release gives back the
/// move of its retain, so one would do.
const RETAINED_MOVES: u32 = 16;

/// What the words ask for.
#[derive(Clone, Copy, Debug, Drop)]
pub struct Plan {
    pub work: Workload,
    pub threads: u32,
    pub arenas: u32,
    pub chunks: u32,
    pub handles: u32,
    /// How many blocks each thread does.
    pub asked: u32,
    /// For how many buffers a lane has turns and moves.
    pub blocks: u32,
    /// How many parcels a lane may post to the next.
    pub mail: u32,
    pub repeats: u32,
    pub start: u32,
}

impl Plan {
    /// The plan of a workload, for so many threads of so many blocks each. None where there are
    /// none or too many.
    pub fn of(work: Workload, threads: u32, asked: u32, repeats: u32, start: u32) -> Option<Plan>
        ensures { IfSome result IsPlan }
    {
        let blocks = buffers_of(work, asked)?;
        if threads == 0 || threads > 16 || blocks > 8_000_000 {
            return None;
        }
        Some(Plan {
            work,
            threads,
            arenas: 8,
            chunks: chunks_for(work),
            handles: handles_for(work),
            asked,
            blocks,
            mail: mail_of(work, blocks),
            repeats,
            start,
        })
    }
}

/// The plan of five words, or of six with the number with which the draws begin.
pub fn plan_of(words: &Vec<String>) -> Option<Plan>
    ensures { IfSome result IsPlan }
{
    if words.len() < 5 || words.len() > 6 {
        return None;
    }
    let work = workload_of(&words[0])?;
    let threads: u32 = words[1].parse().ok()?;
    let asked: u32 = words[2].parse().ok()?;
    let zero: u32 = words[3].parse().ok()?;
    let repeats: u32 = words[4].parse().ok()?;
    let start: u32 = if words.len() == 6 {
        words[5].parse().ok()?
    } else {
        0
    };
    if zero != 1 {
        return None;
    }
    Plan::of(work, threads, asked, repeats, start)
}

// A workload by its name, with the size behind an `@` where there is one.
fn workload_of(word: &str) -> Option<Workload> {
    let (name, size) = match word.split_once('@') {
        Some((name, size)) => (name, Some(size.parse().ok()?)),
        None => (word, None),
    };
    match name {
        "w1" => Some(Workload::Mixed(size)),
        "w2" => Some(Workload::Passed(size)),
        "w3" => Some(Workload::Places),
        "w4" => Some(Workload::Retained(size)),
        "w5hit" => Some(Workload::Plain(size)),
        "w5batch" => Some(Workload::Batches(size)),
        "buffers" => Some(Workload::Buffers),
        "lone" => Some(Workload::Lone),
        "checked" => Some(Workload::Checked),
        "left" => Some(Workload::Left),
        "counted" => Some(Workload::Counted),
        _ => None,
    }
}

// For how many buffers a lane needs turns and moves to do so many blocks.
fn buffers_of(work: Workload, blocks: u32) -> Option<u32> {
    match work {
        Workload::Retained(_) => Some(RETAINED_MOVES),
        Workload::Batches(_) => blocks.checked_mul(512),
        _ => Some(blocks),
    }
}

// How many parcels so many blocks post.
fn mail_of(work: Workload, blocks: u32) -> u32 {
    match work {
        Workload::Passed(_) | Workload::Counted => blocks,
        _ => 0,
    }
}

// For how many buffers a lane has handles.
fn handles_for(work: Workload) -> u32
    ensures some { 0 < result }
    ensures most { result ≤ 512 }
{
    match work {
        Workload::Batches(_) => 512,
        _ => 64,
    }
}

// How many chunks an arena has, so that no buffer is refused for want of memory.
fn chunks_for(work: Workload) -> u32
    ensures some { 0 < result }
    ensures most { result ≤ 8 }
{
    match work {
        Workload::Batches(_) | Workload::Places => 8,
        _ => 1,
    }
}

/// For each two lanes how many parcels the first may post to the second.
pub fn mail_for(alloc: Global, plan: &Plan) -> Result<Vec<u32>, AllocError>
    requires { IsPlan plan.now }
    ensures { IfOk result (λ mail. IsMailFor plan.now mail.items) }
{
    let lanes = plan.threads;
    let mut mail = vec![in alloc; 0u32; (lanes * lanes) as usize]?;
    for lane in 0..lanes {
        mail[(lane * lanes + next_lane(lanes, lane)) as usize] = plan.mail;
    }
    Ok(mail)
}

/// A pool with a lane for each thread.
pub fn layout_of(plan: &Plan) -> Layout
    requires { IsPlan plan.now }
    ensures { IsLayoutOf plan.now result }
{
    Layout {
        shape: Shape {
            page: DEFAULT_PAGE,
            order: 9,
            arenas: plan.arenas,
            chunks: plan.chunks,
            handles: plan.handles,
            lanes: plan.threads,
            level: Level::Disabled,
            interval: 128,
        },
        moves: plan.blocks,
        turns: 16 * plan.blocks as u64,
    }
}
