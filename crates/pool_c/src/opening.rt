//! How a pool is opened.

ghost use Rattle.std.specs.Prelude.{◌≡◌, All, ◌↔◌, box_value, IfSome, IsTrue, length, map, vec_len};
ghost use Rattle.std.specs.Arc.{arc_value};
ghost use Rattle.pool_member.specs.Threads.{IsThread};
ghost use Rattle.pool_c.specs.Holding.{behind};
ghost use Rattle.pool_c.specs.Opening.{AreFree, ArePut, OpensAs};

use crate::codes::Refusal;
use crate::config::PoolConfig;
use crate::handle::PoolThread;
use crate::held::{Common, Held};
use pool_member::{Member, new_pool};
use std::alloc::Global;
use std::mem::ManuallyDrop;
use std::sync::Arc;

/// Opens a pool, a thread behind each handle, or answers why there is none.
pub(crate) fn open(
    alloc: Global,
    config: &PoolConfig,
    threads: &mut [PoolThread],
) -> Result<(), Refusal>
    ensures { OpensAs config.now threads.old threads.new result }
{
    let Some(layout) = config.layout() else {
        return Err(Refusal::Shape);
    };
    let lanes = layout.shape.lanes;
    if threads.len() != lanes as usize {
        return Err(Refusal::Threads);
    }
    if !are_free(&*threads) {
        return Err(Refusal::Occupied);
    }
    let Ok((shared, sizes, members)) = new_pool(alloc, layout) else {
        return Err(Refusal::NoMemory);
    };
    let common = Common {
        shared,
        sizes,
        threads: lanes,
        name: config.name,
    };
    let Ok(common) = Arc::new(alloc, common) else {
        leave(members);
        return Err(Refusal::NoMemory);
    };
    let Some(held) = boxes(alloc, &common, members) else {
        return Err(Refusal::NoMemory);
    };
    place(threads, held);
    Ok(())
}

// Whether nothing is behind any of the handles.
fn are_free(threads: &[PoolThread]) -> bool
    ensures { IsTrue result ↔ AreFree threads.now }
{
    for thread in threads {
        if !thread.is_empty() {
            return false;
        }
    }
    true
}

/// Leaves threads behind.
pub(crate) fn leave(members: Vec<Member>) {
    let _members = unsafe { ManuallyDrop::new_unchecked(members) };
}

/// Each thread with its share of what they have in common.
pub(crate) fn boxes(
    alloc: Global,
    common: &Arc<Common, Global>,
    mut members: Vec<Member>,
) -> Option<Vec<Box<Held, Global>>>
    requires members { All (IsThread (arc_value common.now).shared) members.items }
    ensures { IfSome result (λ all. map box_value all.items
        ≡ map (behind (arc_value common.now)) members.items) }
{
    let Ok(mut all) = Vec::with_capacity(alloc, members.len()) else {
        leave(members);
        return None;
    };
    for _made in 0..members.len() {
        let Ok(own) = Arc::try_clone(common) else {
            leave(members);
            return None;
        };
        let member = members.remove(0);
        let Ok(held) = Box::new(
            alloc,
            Held {
                common: own,
                member,
            },
        ) else {
            leave(members);
            return None;
        };
        all.push_reserved(held);
    }
    members.destroy_empty();
    Some(all)
}

/// Puts the threads behind the handles, in order.
pub(crate) fn place(threads: &mut [PoolThread], mut all: Vec<Box<Held, Global>>)
    requires many { vec_len all ≡ length threads.old }
    ensures { ArePut (map box_value all.items) threads.new }
{
    for thread in threads {
        thread.put(all.remove(0));
    }
}
