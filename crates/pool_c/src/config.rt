//! What a pool is opened with.

ghost use Rattle.std.specs.Prelude.{◌≡◌, ◌↔◌, IfSome, IsSome};
ghost use Rattle.pool_law.specs.Limits.{IsShape};
ghost use Rattle.pool_c.specs.Opening.{layout_of, shape_of};

use pool_law::{Level, Shape};
use pool_member::{Config, OpenNo};
use pool_table::Layout;

/// The measures of a pool, as `struct pool_config` has them.
#[repr(C)]
#[derive(Clone, Copy, Drop)]
pub struct PoolConfig {
    /// A number of the caller's choice, which its buffers carry.
    pub name: u32,
    /// How many threads.
    pub threads: u32,
    /// The bytes of a page.
    pub page: u32,
    /// A chunk has `2^order` pages.
    pub order: u32,
    /// How many arenas.
    pub arenas: u32,
    /// How many chunks an arena may have.
    pub chunks: u32,
    /// How many live buffers each thread may have allocated at once.
    pub handles: u32,
    /// Of so many allocations one is watched for leaks; none where it is 0.
    pub interval: u32,
}

impl PoolConfig {
    /// The measures of the pool, whether they are inside their limits or not.
    pub(crate) fn shape(&self) -> Shape
        ensures { result ≡ shape_of self.now }
    {
        let level = if self.interval == 0 {
            Level::Disabled
        } else {
            Level::Simple
        };
        Shape {
            page: self.page,
            order: self.order,
            arenas: self.arenas,
            chunks: self.chunks,
            handles: self.handles,
            lanes: self.threads,
            level,
            interval: self.interval.max(1),
        }
    }

    /// The layout of the pool, or none where a measure is outside its limits.
    pub(crate) fn layout(&self) -> Option<Layout>
        ensures within { IsSome result ↔ IsShape (shape_of self.now) }
        ensures layout { IfSome result (λ layout. layout ≡ layout_of self.now) }
    {
        match Config::of(self.shape()).layout() {
            Ok(layout) => Some(layout),
            Err(OpenNo::Shape) => None,
            Err(OpenNo::Budget) => unreachable!(),
            Err(OpenNo::Memory) => unreachable!(),
        }
    }
}
