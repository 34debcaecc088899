//! A pool that the threads of a server share.

ghost use Rattle.std.specs.Prelude.{◌≡◌};

use crate::name::PoolName;
use shared_pool::SharedPool;
use size_classes::SizeClasses;
use std::marker::{Model, PhantomData};

/// A pool that its threads share. It has no `Drop`, so it must be closed or abandoned.
pub struct Pool<B: PoolName> {
    pub(crate) shared: SharedPool,
    pub(crate) sizes: SizeClasses,
    pub(crate) threads: u32,
    pub(crate) of: PhantomData<B>,
}

impl<B: PoolName> Model for Pool<B> {
    ghost use Rattle.shared_pool.specs.declared.pool.SharedPool.{SharedPool};
    ghost use Rattle.buffer_pool.specs.Pools.{IsPoolOf};

    ghost Value = { SharedPool };

    ghost view = { λ p. p.shared };

    ghost invariant = { λ p. IsPoolOf B.pool p.shared p.sizes p.threads };
}

impl<B: PoolName> Pool<B> {
    /// How many threads it has.
    pub fn threads(&self) -> u32
        ensures { result ≡ self.now.table.layout.shape.lanes }
    {
        self.threads
    }
}
