//! The name of a pool, in types alone.

use std::marker::Brand;

/// A type that stands for one pool, so that no thread, buffer or parcel meets another pool than its
/// own. Only `open` gives one.
pub trait PoolName {
    ghost use Rattle.std.specs.Prelude.{Option};
    ghost use Rattle.shared_pool.specs.declared.pool.SharedPool.{SharedPool};

    ghost pool: { Option SharedPool };
}

impl PoolName for Brand {
    ghost use Rattle.std.specs.Prelude.{None};

    ghost pool = { None };
}
