//! What a thread has still to put away.

ghost use Rattle.std.specs.Prelude.{◌≡◌, ◌↔◌, IsTrue};
ghost use Rattle.pool_member.specs.Pendings.{nothing};

use pool_law::Region;
use seat_tries::Begun;
use std::marker::Model;

/// What a thread began and could not end, since another thread was in the way.
pub enum Pending {
    /// What a try of an allocation or of a release left, or nothing.
    Tried(Begun),
    /// A region is to go back to its arena.
    Piece(Region),
}

/// The same, with one byte that tells whether it is nothing. A contract sees what it is.
pub struct Unsettled {
    what: Pending,
    is_nothing: bool,
}

impl Model for Unsettled {
    ghost use Rattle.std.specs.Prelude.{◌≡◌, ◌↔◌, IsTrue};
    ghost use Rattle.pool_member.specs.declared.pending.Pending.{Pending};
    ghost use Rattle.pool_member.specs.Pendings.{nothing};

    ghost Value = { Pending };

    ghost view = { λ u. u.what };

    ghost invariant = { λ u. IsTrue u.is_nothing ↔ (u.what ≡ nothing) };
}

impl Unsettled {
    /// Nothing.
    pub(crate) const fn nothing() -> Unsettled
        ensures { result ≡ nothing }
    {
        Unsettled {
            what: Pending::Tried(Begun::Nothing),
            is_nothing: true,
        }
    }

    /// What a call left.
    pub(crate) fn new(what: Pending) -> Unsettled
        ensures { result ≡ what }
    {
        let is_nothing = what.is_nothing();
        Unsettled { what, is_nothing }
    }

    /// Whether it is nothing.
    #[inline(always)]
    pub fn is_nothing(&self) -> bool
        ensures { IsTrue result ↔ (self.now ≡ nothing) }
    {
        self.is_nothing
    }

    /// What it is.
    pub(crate) fn into_pending(self) -> Pending
        ensures { result ≡ self }
    {
        let Unsettled {
            what,
            is_nothing: _,
        } = self;
        what
    }
}

impl Pending {
    /// Whether it is nothing.
    pub(crate) fn is_nothing(&self) -> bool
        ensures { IsTrue result ↔ (self.now ≡ nothing) }
    {
        if let Pending::Tried(Begun::Nothing) = self {
            true
        } else {
            false
        }
    }
}
