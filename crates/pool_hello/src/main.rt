#![tactic(auto)]
//! The smallest server on `buffer_pool`: one thread of a pool writes a greeting into a buffer and
//! hands it over, and another one, at work at the same time, reads it and gives the memory back.
//! There is no proof to it.

use buffer_pool::{Config, Mails, Pool, PoolName, PoolThread, Work, open_in_threads};
use std::io;
use std::sync::Wait;
use std::thread::yield_now;

const GREETING: &[u8] = b"hello from another thread";

struct Hello;

impl<R: Print + Wait> Work<R> for Hello {
    fn work<B: PoolName>(&self, rt: &R, pool: &Pool<B>, mails: &Mails<B>, me: &mut PoolThread<B>) {
        if me.number() == 0 {
            writes(rt, pool, mails, me);
        } else {
            reads(rt, pool, mails, me);
        }
    }
}

// Writes the greeting, and hands it over to the other thread.
fn writes<B: PoolName, R: Wait>(rt: &R, pool: &Pool<B>, mails: &Mails<B>, me: &mut PoolThread<B>) {
    let Ok(mut buffer) = me.alloc(rt, pool, 64) else {
        return;
    };
    let _written = me.write(rt, pool, &mut buffer, GREETING);
    match me.part(pool, buffer, 1) {
        Ok(parcel) => {
            if let Err(parcel) = mails.send(rt, parcel) {
                parcel.leave();
            }
        }
        Err(back) => back.leave(),
    }
}

// Waits for a parcel, and tells what it says and whether its release was that of the last count.
fn reads<B: PoolName, R: Print + Wait>(
    rt: &R,
    pool: &Pool<B>,
    mails: &Mails<B>,
    me: &mut PoolThread<B>,
) {
    for _ in rt.forever() {
        let Some(parcel) = mails.next(rt, &*me) else {
            yield_now();
            continue;
        };
        let mut buffer = match me.accept(pool, parcel) {
            Ok(buffer) => buffer,
            Err(back) => return back.leave(),
        };
        let mut text = [0u8; 25];
        let _read = me.read(rt, pool, &mut buffer, &mut text);
        let last = match me.release(rt, pool, buffer) {
            Ok(last) => last,
            Err(back) => return back.leave(),
        };
        let text = str::from_utf8(&text).unwrap_or("no text");
        let _said = println!(rt; "{text}; was that the last count? {last}");
        return;
    }
}

fn main(rt: HostRuntime) -> io::Result<()> {
    match open_in_threads(&rt, rt.alloc(), &Config::for_threads(2), &Hello) {
        Ok(closed) => println!(rt; "leaks at the close: {}", closed.leaks.items().len()),
        Err(no) => println!(rt; "no pool was closed: {no:?}"),
    }
}
