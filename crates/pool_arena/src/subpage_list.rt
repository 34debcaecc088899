//! The subpages of a class that have a free element.

ghost use Rattle.std.specs.Prelude.{◌≡◌, ◌<◌, ◌∷◌, length, IfOk};
ghost use Rattle.pool_law.specs.Arenas.{without_subpage, is_alone};

use std::alloc::{AllocError, Global};
use std::collections::VecDeque;
use std::marker::Model;

/// A subpage, by the chunk place and the page at which it begins.
#[derive(Clone, Copy, Drop)]
pub(crate) struct SubpageAt {
    pub(crate) chunk: u32,
    pub(crate) page: u32,
}

/// The subpages of one class that have a free element, the next to be asked first
/// (Netty: the list of `PoolSubpage`s of a size).
#[derive(Drop)]
pub(crate) struct SubpageList {
    subpages: VecDeque<SubpageAt>,
}

impl Model for SubpageList {
    ghost use Rattle.pool_arena.specs.SubpageLists.{SubpagesState};

    ghost Value = { SubpagesState };

    ghost use Rattle.pool_arena.specs.SubpageLists.{front_in};

    ghost view = { front_in };
}

impl SubpageList {
    ghost use Rattle.pool_arena.specs.SubpageLists.{new_front, with_subpages, IsFirst, pair_of};

    /// No subpage, and room for so many.
    pub(crate) fn new(alloc: Global, room: usize) -> Result<SubpageList, AllocError>
        ensures { IfOk result (λ front. front ≡ new_front room) }
    {
        let subpages = VecDeque::with_capacity(alloc, room)?;
        Ok(SubpageList { subpages })
    }

    /// The subpage that is asked next, if there is one.
    pub(crate) fn first(&self) -> Option<SubpageAt>
        ensures { IsFirst self.now.subpages result }
    {
        self.subpages.front().copied()
    }

    /// Whether there is no second subpage.
    pub(crate) fn is_alone(&self) -> bool
        ensures { result ≡ is_alone self.now.subpages }
    {
        self.subpages.len() < 2
    }

    /// A subpage enters before the others.
    pub(crate) fn enter(&mut self, spot: SubpageAt)
        requires { length self.old.subpages < self.old.room }
        ensures { self.new ≡ with_subpages self.old (pair_of spot ∷ self.old.subpages) }
    {
        self.subpages.push_front_reserved(spot);
    }

    /// A subpage leaves.
    pub(crate) fn leave(&mut self, spot: SubpageAt)
        ensures { self.new
            ≡ with_subpages self.old (without_subpage spot.chunk spot.page self.old.subpages) }
    {
        self.subpages
            .retain(|s| !(s.chunk == spot.chunk && s.page == spot.page));
    }
}
