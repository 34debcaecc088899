//! A buffer: a window on the bytes of a root, with one of its counts.

ghost use Rattle.std.specs.Prelude.{◌≡◌, ◌+◌};

use crate::name::PoolName;
use byte_view::View;
use std::marker::{Model, PhantomData};

/// A window on bytes of the pool, with a reader and a writer in it. It is one thread's, and stands
/// for one of that thread's counts, so it must be released, parted with or left: it has no `Drop`.
/// A contract sees where it lies in its root, and whose it is.
pub struct Buffer<B: PoolName> {
    pub(crate) view: View,
    pub(crate) thread: u32,
    pub(crate) of: PhantomData<B>,
}

impl<B: PoolName> Model for Buffer<B> {
    ghost use Rattle.std.specs.Prelude.{IfSome};
    ghost use Rattle.pool_member.specs.Windows.{HasPlace, Window};

    ghost Value = { Window };

    ghost view = { λ b. record { at = b.view.at; thread = b.thread } };

    ghost invariant = { λ b. IfSome B.pool (λ pool. HasPlace pool b.view.at.root) };
}

impl<B: PoolName> Buffer<B> {
    /// How many bytes it has.
    pub fn len(&self) -> u32
        ensures { result ≡ self.now.at.len }
    {
        self.view.at.len
    }

    /// How many of them are before its reader, and before its writer.
    pub fn ends(&self) -> (u32, u32)
        ensures { (result.0 ≡ self.now.at.reader) × (result.1 ≡ self.now.at.writer) }
    {
        (self.view.at.reader, self.view.at.writer)
    }

    /// Where its first byte lies among those that were allocated with it.
    pub fn offset(&self) -> u32
        ensures { result ≡ self.now.at.offset }
    {
        self.view.at.offset
    }

    /// The number of its thread.
    pub fn thread(&self) -> u32
        ensures { result ≡ self.now.thread }
    {
        self.thread
    }

    /// Leaves it behind. Its count is never given back, and the close tells of it where it was
    /// watched.
    pub fn leave(self) {
        let Buffer {
            view: _,
            thread: _,
            of: _,
        } = self;
    }
}
