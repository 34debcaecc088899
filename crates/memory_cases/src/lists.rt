//! The lists as a caller uses them.

ghost use Rattle.std.specs.Prelude.{◌≡◌, ◌<◌};

use chunk_list::{ChunkLists, Settled};
use pool_law::ListName;
use std::process::Abort;
use std::test::*;

#[test]
fn a_chunk_goes_through_the_lists(rt: HostRuntime) -> Result<(), Fail> {
    let mut lists = ChunkLists::new(rt.alloc(), 2)?;
    assert!(rt; lists.list_of(0) == None);
    assert!(rt; lists.add(0, 25) == ListName::Q000);
    assert!(rt; lists.moved(0, 100) == Settled::At(ListName::Q100));
    assert!(rt; lists.moved(0, 0) == Settled::Destroyed);
    assert!(rt; lists.list_of(0) == None);
    Ok(())
}

// A chunk that is in no list enters with a usage.
fn add(rt: &impl Abort, lists: &mut ChunkLists, chunk: u32, usage: u32)
    requires { chunk < lists.old.places }
    ensures { lists.new.places ≡ lists.old.places }
{
    let None = lists.list_of(chunk) else {
        panic!(rt; "chunk {chunk} is in a list");
    };
    lists.add(chunk, usage);
}

// The k-th chunk that is asked. It is compiled once, whatever k is.
#[inline(never)]
fn nth(lists: &ChunkLists, k: u32) -> Option<u32> {
    lists.nth(k)
}

// The chunks in the order in which they are asked: the last that entered a list is asked first in it, and
// a full chunk never.
const ASKED: [Option<u32>; 7] = [Some(6), Some(3), Some(2), Some(1), Some(0), Some(4), None];

#[test]
fn chunks_are_asked_from_the_middle_list_on(rt: HostRuntime) -> Result<(), Fail> {
    let mut lists = ChunkLists::new(rt.alloc(), 7)?;
    lists.add(4, 100);
    assert!(rt; lists.moved(4, 80) == Settled::At(ListName::Q075));
    add(&rt, &mut lists, 0, 10);
    add(&rt, &mut lists, 1, 25);
    add(&rt, &mut lists, 2, 50);
    add(&rt, &mut lists, 3, 75);
    add(&rt, &mut lists, 5, 100);
    add(&rt, &mut lists, 6, 99);
    for k in 0..7u32 {
        assert!(rt; nth(&lists, k) == ASKED[k as usize], "at {k}");
    }
    Ok(())
}
