//! A buffer on its way from one thread to another.

ghost use Rattle.std.specs.Prelude.{◌≡◌};

use crate::name::PoolName;
use shared_pool::Posted;
use std::marker::{Model, PhantomData};

/// A buffer on its way from one thread to another, by any channel of the server's own. It has no
/// `Drop`, so it must be accepted or left. A contract sees it as a letter, whose parcel has the
/// buffer's window.
pub struct Parcel<B: PoolName> {
    pub(crate) posted: Posted,
    pub(crate) of: PhantomData<B>,
}

impl<B: PoolName> Model for Parcel<B> {
    ghost use Rattle.std.specs.Prelude.{IfSome};
    ghost use Rattle.pool_table.specs.declared.views.Letter.{Letter};
    ghost use Rattle.pool_member.specs.Windows.{IsParcelOf};

    ghost Value = { Letter };

    ghost view = { λ p. p.posted.letter };

    ghost invariant = { λ p. IfSome B.pool (λ pool. IsParcelOf pool p.posted) };
}

impl<B: PoolName> Parcel<B> {
    /// The number of the thread that made it.
    pub fn from(&self) -> u32
        ensures { result ≡ self.now.from }
    {
        self.posted.letter().from
    }

    /// The number of the thread that it is for.
    pub fn to(&self) -> u32
        ensures { result ≡ self.now.to }
    {
        self.posted.letter().to
    }

    /// Its number among those that the one thread made for the other, from 1.
    pub fn number(&self) -> u64
        ensures { result ≡ self.now.number }
    {
        self.posted.letter().number
    }

    /// Leaves it behind. Its buffer's count is never given back, and the close tells of it where it
    /// was watched. No later parcel of its way is accepted.
    pub fn leave(self) {
        let Parcel { posted: _, of: _ } = self;
    }
}
