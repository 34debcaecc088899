#![tactic(auto)]
//! Hammers a pool: four threads make random calls on it at once, and compare each byte that they
//! read with those that were laid. Then the pool is closed, while buffers are out and on their way,
//! and the close must tell each that was not given back, and how often it is counted.
//!
//! The words are how many calls each thread makes, a few thousand if there are none, and with which
//! number the draws begin. It writes a line where all is as it must be, and with words another one of
//! what was done. Else the first thing that is wrong stands on standard error, with status 1.

use anyhow::anyhow;
use buffer_pool::{Config, Level, Mails, Pool, PoolName, PoolThread, Shape, Work, open_in_threads};
use std::alloc::Global;
use std::env;
use std::env::Env;
use std::sync::Wait;
use std::thread::Threads;

mod draws;
mod handing;
mod held;
mod rounds;
mod tally;

use draws::Draws;
use held::leave_all;
use rounds::Caller;
use tally::{Tally, read};

/// How many calls each thread makes where no word says it.
const CALLS: u64 = 4_000;

/// Two arenas for four threads. All buffers are watched.
const SHAPE: Shape = Shape {
    page: 8192,
    order: 3,
    arenas: 2,
    chunks: 8,
    handles: 64,
    lanes: 4,
    level: Level::Paranoid,
    interval: 1,
};

// What the threads do.
#[derive(Drop)]
struct Hammer {
    alloc: Global,
    tally: Tally,
    calls: u64,
    start: u64,
}

impl<R: Wait> Work<R> for Hammer {
    fn work<B: PoolName>(&self, rt: &R, pool: &Pool<B>, mails: &Mails<B>, me: &mut PoolThread<B>) {
        let caller = Caller {
            rt,
            alloc: self.alloc,
            pool,
            mails,
            tally: &self.tally,
        };
        let mut draws = Draws::of(self.start, me.number());
        let mut held = Vec::new(self.alloc);
        for _call in 0..self.calls {
            caller.round(me, &mut draws, &mut held);
        }
        me.settle(rt, pool);
        leave_all(held);
    }
}

fn main(rt: HostRuntime) -> anyhow::Result<()> {
    run(&rt)
}

// Hammers a pool as the words say, and tells what is wrong, if anything is.
fn run<R>(rt: &R) -> anyhow::Result<()>
where
    R: Threads + Wait + Sync + Env + Print + AllocGlobal,
{
    let words: Vec<String> = env::args(rt)?.skip(1).collect(rt.alloc())?;
    let hammer = Hammer {
        alloc: rt.alloc(),
        tally: Tally::new(rt.alloc()),
        calls: number(words.first(), CALLS)?,
        start: number(words.get(1), 0)?,
    };
    let closed = match open_in_threads(rt, rt.alloc(), &Config::of(SHAPE), &hammer) {
        Ok(closed) => closed,
        Err(no) => return Err(anyhow!("no pool was closed: {no:?}")),
    };
    let tally = &hammer.tally;
    tally.must(rt, tally.is_told(&closed), "the close tells other buffers");
    if let Some(wrong) = tally.wrong() {
        return Err(anyhow!("{wrong}"));
    }
    println!(rt; "all is as it must be")?;
    if words.is_empty() {
        return Ok(());
    }
    println!(rt;
        "{} buffers, {} refused, {} retained, {} accepted, {} released, {} ended, {} leaks",
        read(&tally.born),
        read(&tally.refused),
        read(&tally.retained),
        read(&tally.accepted),
        read(&tally.released),
        read(&tally.ended),
        closed.leaks.items().len()
    )?;
    Ok(())
}

// The number that a word says, if there is one.
fn number(word: Option<&String>, default: u64) -> anyhow::Result<u64> {
    match word {
        Some(word) => Ok(word.parse()?),
        None => Ok(default),
    }
}
