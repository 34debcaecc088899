//! How the threads of a pool work at once, each on a thread of the program.

ghost use Rattle.std.specs.Prelude.{◌≡◌, All, IfErr, IfOk, List, MatchResult, Some};
ghost use Rattle.pool_law.specs.Limits.{geometry_of};
ghost use Rattle.pool_member.specs.Closing as closing;
ghost use Rattle.pool_member.specs.declared.member.Member.{Member};
ghost use Rattle.pool_member.specs.Threads.{HasOwnChannels, IsThread};
ghost use Rattle.buffer_pool.specs.Working.{HasEnded, HaveWorked, IsClosed, MayRefuse};

use crate::mails::Mails;
use crate::name::PoolName;
use crate::pool::Pool;
use crate::thread::PoolThread;
use crate::threads::{abandon, threads_of};
use pool_member::{CloseNo, Closed, Config, Member, OpenNo, new_pool};
use shared_pool::SharedPool;
use size_classes::SizeClasses;
use std::alloc::{AllocError, Global};
use std::marker::{Brand, PhantomData};
use std::sync::Wait;
use std::thread::{Threads, for_each_mut};

/// What each thread of a pool does, whatever the pool's name is.
pub trait Work<R: Wait> {
    ghost use Rattle.shared_pool.specs.declared.pool.SharedPool.{SharedPool};
    ghost use Rattle.pool_member.specs.declared.member.Member.{Member};

    // What the work of a thread may make of it: whatever it does, where an impl doesn't say more.
    ghost did: { Self → SharedPool → Member → Member → Type 0 } = { λ _ _ _ _. Unit {0} };

    /// Works as one of the pool's threads, while the others do.
    fn work<B: PoolName>(&self, rt: &R, pool: &Pool<B>, mails: &Mails<B>, me: &mut PoolThread<B>)
        ensures { did self.now pool.now me.old me.new };
}

/// Why a pool was not opened, or not closed behind its threads' work.
#[derive(Clone, Copy, PartialEq, Eq, Debug, Drop)]
pub enum WorkNo {
    /// It was not opened, or there was no memory for its threads. None of them worked.
    Open(OpenNo),
    /// All threads worked, and the close was refused. The pool stays as they left it until the
    /// program ends.
    Close(CloseNo),
}

/// Opens a pool, lets each of its threads work on a thread of the program, and closes the pool once
/// all are done. It tells what stands then, as `Pool::close` does: the chunks in use, and the leaks.
/// Parcels that are in the mails still are left behind. What the threads did is known by `Work::did`.
/// Where the program can make no more threads, some work after others, so a work that waits for
/// another's parcel may wait for good then. What memory a refusal had taken stays taken.
pub fn open_in_threads<R: Threads + Wait + Sync, W: Work<R> + Sync>(
    rt: &R,
    alloc: Global,
    config: &Config,
    work: &W,
) -> Result<Closed, WorkNo>
    ensures ended { IfOk result (HasEnded (W.did work.now) config.now) }
    ensures cause { IfErr result (MayRefuse (W.did work.now) config.now) }
{
    let layout = match config.layout() {
        Ok(layout) => layout,
        Err(no) => return Err(WorkNo::Open(no)),
    };
    let Ok((shared, sizes, members)) = new_pool(alloc, layout) else {
        return Err(WorkNo::Open(OpenNo::Memory));
    };
    match work_as::<Brand, R, W>(rt, alloc, layout.shape.lanes, shared, sizes, members, work) {
        Ok(Ok(closed)) => Ok(closed),
        Ok(Err(no)) => Err(WorkNo::Close(no)),
        Err(AllocError) => Err(WorkNo::Open(OpenNo::Memory)),
    }
}

// The threads work with the pool under this name, and it is closed.
fn work_as<B: PoolName + Send + Sync, R: Threads + Wait + Sync, W: Work<R> + Sync>(
    rt: &R,
    alloc: Global,
    lanes: u32,
    shared: SharedPool,
    sizes: SizeClasses,
    members: Vec<Member>,
    work: &W,
) -> Result<Result<Closed, CloseNo>, AllocError>
    requires named { B.pool ≡ Some shared }
    requires lanes { lanes ≡ shared.table.layout.shape.lanes }
    requires sizes { sizes ≡ geometry_of shared.table.layout.shape }
    requires own { HasOwnChannels shared }
    requires members { All (IsThread shared) members.items }
    ensures { IfOk result (λ end. (after : List Member)
        × HaveWorked (W.did work.now) shared members.items after
        × MatchResult end (IsClosed shared after) (closing.MayRefuse shared after)) }
{
    let Ok(threads) = Vec::with_capacity(alloc, members.len()) else {
        abandon(shared, members);
        return Err(AllocError);
    };
    let Ok(mails) = Mails::<B>::new(alloc, lanes) else {
        threads.destroy_empty();
        abandon(shared, members);
        return Err(AllocError);
    };
    let threads = threads_of::<B>(&shared, members, threads);
    let pool = Pool {
        shared,
        sizes,
        threads: lanes,
        of: PhantomData,
    };
    let threads = work_all(rt, &pool, &mails, work, threads);
    match pool.close(alloc, threads) {
        Ok(closed) => Ok(Ok(closed)),
        Err(back) => {
            let why = back.why;
            back.leave();
            Ok(Err(why))
        }
    }
}

// All threads work at once.
fn work_all<B: PoolName + Send + Sync, R: Threads + Wait + Sync, W: Work<R> + Sync>(
    rt: &R,
    pool: &Pool<B>,
    mails: &Mails<B>,
    work: &W,
    mut threads: Vec<PoolThread<B>>,
) -> Vec<PoolThread<B>>
    ensures { HaveWorked (W.did work.now) pool.now threads.items result.items }
{
    let many = threads.len().max(1);
    let one = move |_number: usize, me: &mut PoolThread<B>|
        ensures did { W.did work.entry.now pool.entry.now me.old me.new }
        ensures thread { IsThread pool.entry.now me.new }
    { work_one(rt, pool, mails, work, me) };
    for_each_mut(rt, threads.as_mut_slice(), many, &one);
    threads
}

// One thread works.
fn work_one<B: PoolName, R: Wait, W: Work<R>>(
    rt: &R,
    pool: &Pool<B>,
    mails: &Mails<B>,
    work: &W,
    me: &mut PoolThread<B>,
)
    ensures did { W.did work.now pool.now me.old me.new }
    ensures thread { IsThread pool.now me.new }
{
    work.work::<B>(rt, pool, mails, me);
    let _of = &pool.shared;
    let _member = &me.member;
}
