//! The pages of a pool, which are touched before it is opened, by several threads at once: the system
//! takes most of an opening's time to find each page and to clear it.

use std::alloc::{AllocError, Global};
use std::sync::Wait;
use std::thread;
use std::thread::Threads;

/// The memory that is touched, in bytes: 44 MiB, which are the chunks' 32, and some of what a mail takes at
/// least.
const TOUCHED: usize = 46_137_344;

/// So many threads touch it, each a part.
const TOUCHERS: usize = 4;

/// The C library keeps what is let go of and hands it out again with its pages, once it has seen a
/// reservation of this size come back: 32 MiB less two pages. (glibc learns from no greater one.)
const KEPT: usize = 33_546_240;

/// Touches memory that a pool will take, and lets go of it: the C library hands it out again for the
/// pool. Where there is none to be had it does nothing.
pub fn touch_pages<R: Threads + Wait + Sync>(rt: &R, alloc: Global) {
    keep_pages(alloc);
    if let Ok(mut parts) = reserved(alloc, TOUCHERS, TOUCHED / TOUCHERS) {
        let touch = |_index: usize, part: &mut Vec<u8>| {
            // It has the room, so nothing is refused.
            let _touched = part.resize(part.capacity(), 0);
        };
        thread::for_each_mut(rt, parts.as_mut_slice(), TOUCHERS, &touch);
    }
}

// From here on the C library hands out again what is let go of, and its pages with it.
fn keep_pages(alloc: Global) {
    let _unused: Result<Vec<u8>, AllocError> = Vec::with_capacity(alloc, KEPT);
}

// So many lists, each with so much room.
fn reserved(alloc: Global, count: usize, room: usize) -> Result<Vec<Vec<u8>>, AllocError> {
    let mut lists = Vec::new(alloc);
    for _ in 0..count {
        lists.push(Vec::with_capacity(alloc, room)?)?;
    }
    Ok(lists)
}
