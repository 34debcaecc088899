//! How a pool is opened.

ghost use Rattle.std.specs.Prelude.{◌≡◌, All, IfErr, Some};
ghost use Rattle.pool_law.specs.Limits.{geometry_of};
ghost use Rattle.pool_member.specs.Configs.{MayRefuse};
ghost use Rattle.pool_member.specs.Threads.{HasOwnChannels, IsThread};

use crate::name::PoolName;
use crate::pool::Pool;
use crate::thread::PoolThread;
use crate::threads::{abandon, threads_of};
use pool_member::{Config, Member, OpenNo, new_pool};
use shared_pool::SharedPool;
use size_classes::SizeClasses;
use std::alloc::Global;
use std::marker::{Brand, PhantomData};

/// What is done with a pool, whatever its name is.
pub trait Serve {
    /// What comes of it.
    type Out;

    /// Works with a new pool and its threads, in the order of their numbers.
    fn serve<B: PoolName + Send + Sync>(
        self,
        pool: Pool<B>,
        threads: Vec<PoolThread<B>>,
    ) -> Self::Out;
}

/// Opens a pool, and lets the server work with it. A refusal hands the server back; what memory was
/// taken by then stays taken until the program ends.
pub fn open<S: Serve>(alloc: Global, config: &Config, server: S) -> Result<S::Out, (OpenNo, S)>
    ensures cause { IfErr result (λ e. MayRefuse config.now e.0) }
    ensures server { IfErr result (λ e. e.1 ≡ server) }
{
    let layout = match config.layout() {
        Ok(layout) => layout,
        Err(no) => return Err((no, server)),
    };
    let Ok((shared, sizes, members)) = new_pool(alloc, layout) else {
        return Err((OpenNo::Memory, server));
    };
    match serve_as::<Brand, S>(alloc, layout.shape.lanes, shared, sizes, members, server) {
        Ok(out) => Ok(out),
        Err(server) => Err((OpenNo::Memory, server)),
    }
}

// The server works with the pool under this name. It comes back for want of memory.
fn serve_as<B: PoolName + Send + Sync, S: Serve>(
    alloc: Global,
    lanes: u32,
    shared: SharedPool,
    sizes: SizeClasses,
    members: Vec<Member>,
    server: S,
) -> Result<S::Out, S>
    requires named { B.pool ≡ Some shared }
    requires lanes { lanes ≡ shared.table.layout.shape.lanes }
    requires sizes { sizes ≡ geometry_of shared.table.layout.shape }
    requires own { HasOwnChannels shared }
    requires members { All (IsThread shared) members.items }
    ensures { IfErr result (λ back. back ≡ server) }
{
    let Ok(threads) = Vec::with_capacity(alloc, members.len()) else {
        abandon(shared, members);
        return Err(server);
    };
    let threads = threads_of::<B>(&shared, members, threads);
    let pool = Pool {
        shared,
        sizes,
        threads: lanes,
        of: PhantomData,
    };
    Ok(server.serve::<B>(pool, threads))
}
