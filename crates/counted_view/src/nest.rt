//! A nest and its calls. A call that takes a seat takes one of the pool in which the root is.

ghost use Rattle.std.specs.Prelude.{◌≡◌, ◌+◌, ◌<◌, ◌≤◌, ◌^◌, length, IfOk, OnOk, OnErr, MatchResult, IfSome, Some, None, nat_lt};
ghost use Rattle.pool_law.specs.Views.{root_index};
ghost use Rattle.shared_pool.specs.SeatViews.{view_of, SameSeat};
ghost use Rattle.shared_pool.specs.Seats.{IsPoolSeat};
ghost use Rattle.counted_view.specs.declared.calls.NestCall.TheVariants.{Slice, Retain, Release};
ghost use Rattle.counted_view.specs.Nests.{new_nest, after_call, held_view, root_counts, live_slices, live_views, has_all, range_no, slice_no, retain_no, release_no};
ghost use Rattle.counted_view.specs.NestSeats.{CountsRoot, IsCountedIn, IsReleasedIf};

use crate::calls::{NestEnd, NestNo};
use crate::in_pool::{count_in, release_if};
use crate::view_tree::ViewTree;
use pool_law::RootId;
use shared_pool::{PoolSeat, SharedPool};
use std::alloc::{AllocError, Global};
use std::marker::Model;

/// The views of one root of a pool, each with a count of its own. View 0 is the root.
///
/// A view is live where it is held or a view made from it is live. While it is live it has one
/// count of the view that it was made from. A nest must be spent, by `close` or by `leave`.
pub struct Nest {
    tree: ViewTree,
}

impl Model for Nest {
    ghost use Rattle.counted_view.specs.Nests.{NestState};

    ghost Value = { NestState };

    ghost view = { λ nest. nest.tree };
}

impl Nest {
    /// The nest of a root that a seat counts once, with room for so many slices in all.
    pub fn new(alloc: Global, root: RootId, views: u32) -> Result<Nest, AllocError>
        requires capacity { root.capacity ≤ 2 ^ 24 }
        requires views { (1 ≤ views) × (views ≤ 4096) }
        ensures { IfOk result (λ nest. nest ≡ new_nest root views) }
    {
        let tree = ViewTree::new(alloc, root, views)?;
        Ok(Nest { tree })
    }

    /// Makes a view of `n` bytes of the view `of`, from `i` on, and answers its number: the slices
    /// are numbered from 1 on. It is held once, and retains the view that it was made from.
    pub fn slice(
        &mut self,
        pool: &SharedPool,
        seat: &mut PoolSeat,
        of: u32,
        i: u32,
        n: u32,
    ) -> Result<u32, NestNo>
        requires seat { IsPoolSeat pool.now seat.old }
        requires counts { CountsRoot self.old seat.old }
        requires moves { of ≡ 0 → 0 < (view_of seat.old).moves }
        ensures same { SameSeat seat.old seat.new }
        ensures seat { IsPoolSeat pool.now seat.new }
        ensures counts { CountsRoot self.new seat.new }
        ensures answers { let no = slice_no (has_all self.old) (held_view self.old of) i n in
            MatchResult result (λ v. no ≡ None) (λ refused. no ≡ Some refused) }
        ensures number { IfOk result (λ v. v ≡ length self.old.views) }
        ensures sliced { OnOk result (self.new ≡ after_call self.old (Slice of i n)) }
        ensures retained { OnOk result (IsCountedIn of self.old.root seat.old seat.new) }
        ensures unchanged { OnErr result ((self.new ≡ self.old) × (seat.new ≡ seat.old)) }
    {
        let part = self.tree.part(of, i, n)?;
        count_in(pool, seat, self.tree.root(), of);
        Ok(self.tree.add(of, i, n, part))
    }

    /// Holds a view once more.
    pub fn retain(&mut self, pool: &SharedPool, seat: &mut PoolSeat, v: u32) -> Result<(), NestNo>
        requires seat { IsPoolSeat pool.now seat.old }
        requires counts { CountsRoot self.old seat.old }
        requires moves { v ≡ 0 → 0 < (view_of seat.old).moves }
        ensures same { SameSeat seat.old seat.new }
        ensures seat { IsPoolSeat pool.now seat.new }
        ensures counts { CountsRoot self.new seat.new }
        ensures answers { let no = retain_no (held_view self.old v) in
            MatchResult result (λ done. no ≡ None) (λ refused. no ≡ Some refused) }
        ensures held { OnOk result (self.new ≡ after_call self.old (Retain v)) }
        ensures retained { OnOk result (IsCountedIn v self.old.root seat.old seat.new) }
        ensures unchanged { OnErr result ((self.new ≡ self.old) × (seat.new ≡ seat.old)) }
    {
        self.tree.can_hold(v)?;
        count_in(pool, seat, self.tree.root(), v);
        self.tree.hold(v);
        Ok(())
    }

    /// Holds a view once less. Each view that ends by it releases the view that it was made from.
    pub fn release(
        &mut self,
        pool: &SharedPool,
        seat: &mut PoolSeat,
        v: u32,
    ) -> Result<NestEnd, NestNo>
        requires seat { IsPoolSeat pool.now seat.old }
        requires counts { CountsRoot self.old seat.old }
        ensures same { SameSeat seat.old seat.new }
        ensures seat { IsPoolSeat pool.now seat.new }
        ensures counts { CountsRoot self.new seat.new }
        ensures answers { let no = release_no (held_view self.old v) in
            MatchResult result (λ end. no ≡ None) (λ refused. no ≡ Some refused) }
        ensures let_go { OnOk result (self.new ≡ after_call self.old (Release v)) }
        ensures counted { OnOk result (0 < root_counts self.old) }
        ensures ended { IfOk result (λ end.
            end.ended + live_slices self.new ≡ live_slices self.old) }
        ensures released { IfOk result (λ end.
            let lost = nat_lt (root_counts self.new) (root_counts self.old) in
            IsReleasedIf lost self.old.root end.token seat.old seat.new) }
        ensures unchanged { OnErr result ((self.new ≡ self.old) × (seat.new ≡ seat.old)) }
    {
        self.tree.can_let_go(v)?;
        let root = self.tree.root();
        let let_go = self.tree.let_go(v);
        let token = release_if(pool, seat, root, let_go.of_root);
        Ok(NestEnd {
            ended: let_go.ended,
            token,
        })
    }

    /// Where `n` bytes of a view from `i` on lie in the root: their offset and length. They lie in
    /// it, and the nest counts it, so that a seat that counts it so may access them.
    pub fn range(&self, v: u32, i: u32, n: u32) -> Result<(u32, u32), NestNo>
        ensures range { IfOk result (λ range. IfSome (held_view self.now v) (λ x.
            range ≡ (root_index x.at i, n))) }
        ensures inside { IfOk result (λ range. range.0 + range.1 ≤ self.now.root.capacity) }
        ensures counts { OnOk result (0 < root_counts self.now) }
        ensures answers { let no = range_no (held_view self.now v) i n in
            MatchResult result (λ range. no ≡ None) (λ refused. no ≡ Some refused) }
    {
        self.tree.range(v, i, n)
    }

    /// How many views are live, the root among them.
    pub fn live(&self) -> u32
        ensures { result ≡ live_views self.now }
    {
        self.tree.live()
    }

    /// Spends a nest in which nothing is live.
    pub fn close(self)
        requires { live_views self ≡ 0 }
    {
        let Nest { tree: _tree } = self;
    }

    /// Spends a nest in which something is live. The seat's counts stay.
    pub fn leave(self) {
        let Nest { tree: _tree } = self;
    }
}
