//! The threads of a pool as a list, under the pool's name and without it.

ghost use Rattle.std.specs.Prelude.{◌≡◌, ◌≤◌, [], All, Some, vec_capacity, vec_len};
ghost use Rattle.pool_member.specs.Threads.{IsThread};

use crate::name::PoolName;
use crate::thread::PoolThread;
use pool_member::Member;
use shared_pool::SharedPool;
use std::marker::PhantomData;
use std::mem::ManuallyDrop;

/// The threads under the pool's name, in a list with room for them.
pub(crate) fn threads_of<B: PoolName>(
    pool: &SharedPool,
    mut members: Vec<Member>,
    mut threads: Vec<PoolThread<B>>,
) -> Vec<PoolThread<B>>
    requires named { B.pool ≡ Some pool.now }
    requires members { All (IsThread pool.now) members.items }
    requires empty { threads.items ≡ [] }
    requires room { vec_len members ≤ vec_capacity threads }
    ensures { result.items ≡ members.items }
{
    let _ = pool;
    for _made in 0..members.len() {
        let member = members.remove(0);
        threads.push_reserved(PoolThread {
            member,
            of: PhantomData,
        });
    }
    members.destroy_empty();
    threads
}

/// The threads without the pool's name, in a list with room for them, and the list that had them,
/// emptied.
pub(crate) fn members_of<B: PoolName>(
    pool: &SharedPool,
    mut threads: Vec<PoolThread<B>>,
    mut members: Vec<Member>,
) -> (Vec<Member>, Vec<PoolThread<B>>)
    requires named { B.pool ≡ Some pool.now }
    requires empty { members.items ≡ [] }
    requires room { vec_len threads ≤ vec_capacity members }
    ensures same { result.0.items ≡ threads.items }
    ensures members { All (IsThread pool.now) result.0.items }
    ensures left { (result.1.items ≡ []) × (vec_len result.0 ≤ vec_capacity result.1) }
{
    let _ = pool;
    for _made in 0..threads.len() {
        let PoolThread { member, of: _ } = threads.remove(0);
        members.push_reserved(member);
    }
    (members, threads)
}

/// Leaves a pool and its threads as they are.
pub(crate) fn abandon(shared: SharedPool, members: Vec<Member>) {
    let _shared = unsafe { ManuallyDrop::new_unchecked(shared) };
    let _members = unsafe { ManuallyDrop::new_unchecked(members) };
}
