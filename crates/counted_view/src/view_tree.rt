//! The views of a nest by number, and what lives through what.
//!
//! Each view knows which it was made from, and how many made from it live. So a release goes
//! upwards: it costs the views that it ends.

ghost use Rattle.std.specs.Prelude.{◌≡◌, ◌+◌, ◌<◌, ◌≤◌, ◌==◌, false, length, IsSome, IfSome, IfOk, IfErr, OnOk, MatchResult, Some, None, if◌then◌else◌};
ghost use Rattle.pool_law.specs.Views.{slice_of, root_index, most_capacity, LiesIn};
ghost use Rattle.counted_view.specs.Nests.{new_nest, after_call, held_view, root_counts, live_slices, live_views, has_all, range_no, slice_no, retain_no, release_no};
ghost use Rattle.counted_view.specs.Rows.{shown};
ghost use Rattle.counted_view.specs.declared.calls.NestCall.TheVariants.{Slice, Retain, Release};

use crate::calls::NestNo;
use crate::rows::{Row, climb, live_total};
use byte_view::View;
use pool_law::RootId;
use std::alloc::{AllocError, Global};
use std::marker::Model;

/// The most holds of its own that a view may have.
const MOST_HOLDS: u32 = 65_535;

/// The views of a nest. No call but `new` takes memory.
#[derive(Drop)]
pub(crate) struct ViewTree {
    root: RootId,
    bound: u32,
    rows: Vec<Row>,
}

impl Model for ViewTree {
    ghost use Rattle.counted_view.specs.Nests.{NestState};

    ghost Value = { NestState };

    ghost use Rattle.counted_view.specs.Trees.{state_of, IsTree};

    ghost view = { state_of };

    ghost invariant = { IsTree };
}

/// How many views but 0 a release ended, and whether the root is counted once less.
#[derive(Clone, Copy, Debug, Drop)]
pub(crate) struct LetGo {
    pub(crate) ended: u32,
    pub(crate) of_root: bool,
}

impl ViewTree {
    /// The root alone, with room for so many slices.
    pub(crate) fn new(alloc: Global, root: RootId, bound: u32) -> Result<ViewTree, AllocError>
        requires bound { bound ≤ 4096 }
        requires capacity { root.capacity ≤ most_capacity }
        ensures { IfOk result (λ tree. tree ≡ new_nest root bound) }
    {
        let mut rows = Vec::with_capacity(alloc, bound as usize + 1)?;
        rows.push_reserved(Row {
            view: View::of_root(root),
            parent: None,
            holds: 1,
            live: 0,
        });
        Ok(ViewTree { root, bound, rows })
    }

    /// The root of the views.
    pub(crate) fn root(&self) -> RootId
        ensures { result ≡ self.now.root }
    {
        self.root
    }

    /// How many views are live, the root among them.
    pub(crate) fn live(&self) -> u32
        ensures { result ≡ live_views self.now }
    {
        live_total(&self.rows)
    }

    // The row of a view that is held.
    fn held(&self, number: u32) -> Result<&Row, NestNo>
        ensures ok { IfOk result (λ row. held_view self.now number ≡ Some (shown row.now)) }
        ensures root { IfOk result (λ row. row.now.view.at.root ≡ self.now.root) }
        ensures inside { IfOk result (λ row. LiesIn self.now.root.capacity row.now.view.at) }
        ensures counts { OnOk result (0 < root_counts self.now) }
        ensures gone { IfErr result (λ no.
            (no ≡ NestNo.Gone) × (held_view self.now number ≡ None)) }
    {
        let Some(row) = self.rows.get(number as usize) else {
            return Err(NestNo::Gone);
        };
        if row.holds == 0 {
            return Err(NestNo::Gone);
        }
        Ok(row)
    }

    /// Where `len` bytes of a view from `start` on lie in the root.
    pub(crate) fn range(&self, number: u32, start: u32, len: u32) -> Result<(u32, u32), NestNo>
        ensures ok { IfOk result (λ range. IfSome (held_view self.now number) (λ x.
            range ≡ (root_index x.at start, len))) }
        ensures inside { IfOk result (λ range. range.0 + range.1 ≤ self.now.root.capacity) }
        ensures counts { OnOk result (0 < root_counts self.now) }
        ensures answers { MatchResult result
            (λ range. range_no (held_view self.now number) start len ≡ None)
            (λ no. range_no (held_view self.now number) start len ≡ Some no) }
    {
        let row = self.held(number)?;
        match row.view.range(start, len) {
            Ok(range) => Ok(range),
            Err(_) => Err(NestNo::Range),
        }
    }

    /// A part of a view, as the next slice.
    pub(crate) fn part(&self, number: u32, start: u32, len: u32) -> Result<View, NestNo>
        ensures ok { IfOk result (λ view. IfSome (held_view self.now number) (λ x.
            view.at ≡ slice_of x.at start len)) }
        ensures inside { IfOk result (λ view. LiesIn self.now.root.capacity view.at) }
        ensures answers { MatchResult result
            (λ view. slice_no (has_all self.now) (held_view self.now number) start len ≡ None)
            (λ no. slice_no (has_all self.now) (held_view self.now number) start len ≡ Some no) }
    {
        let row = self.held(number)?;
        let Ok(view) = row.view.slice(start, len) else {
            return Err(NestNo::Range);
        };
        if self.rows.len() == self.bound as usize + 1 {
            return Err(NestNo::Full);
        }
        Ok(view)
    }

    /// Adds a part of a view that is held, and answers its number.
    pub(crate) fn add(&mut self, number: u32, start: u32, len: u32, view: View) -> u32
        requires held { IsSome (held_view self.old number) }
        requires part { IfSome (held_view self.old number) (λ x.
            view.at ≡ slice_of x.at start len) }
        requires inside { LiesIn self.old.root.capacity view.at }
        requires room { has_all self.old ≡ false }
        ensures number { result ≡ length self.old.views }
        ensures state { self.new ≡ after_call self.old (Slice number start len) }
        ensures root { root_counts self.new
            ≡ root_counts self.old + (if number == 0 then 1 else 0) }
    {
        let added = self.rows.len() as u32;
        self.rows[number as usize].live += 1;
        self.rows.push_reserved(Row {
            view,
            parent: Some(number),
            holds: 1,
            live: 0,
        });
        added
    }

    /// Whether a view can be held once more.
    pub(crate) fn can_hold(&self, number: u32) -> Result<(), NestNo>
        ensures { MatchResult result (λ _. retain_no (held_view self.now number) ≡ None)
            (λ no. retain_no (held_view self.now number) ≡ Some no) }
    {
        let row = self.held(number)?;
        if row.holds == MOST_HOLDS {
            return Err(NestNo::Full);
        }
        Ok(())
    }

    /// One hold more of a view that is held.
    pub(crate) fn hold(&mut self, number: u32)
        requires { retain_no (held_view self.old number) ≡ None }
        ensures state { self.new ≡ after_call self.old (Retain number) }
        ensures root { root_counts self.new
            ≡ root_counts self.old + (if number == 0 then 1 else 0) }
    {
        self.rows[number as usize].holds += 1;
    }

    /// Whether a view can be let go.
    pub(crate) fn can_let_go(&self, number: u32) -> Result<(), NestNo>
        ensures counts { OnOk result (0 < root_counts self.now) }
        ensures answers { MatchResult result (λ _. release_no (held_view self.now number) ≡ None)
            (λ no. release_no (held_view self.now number) ≡ Some no) }
    {
        let _row = self.held(number)?;
        Ok(())
    }

    /// One hold less of a view that is held.
    pub(crate) fn let_go(&mut self, number: u32) -> LetGo
        requires { release_no (held_view self.old number) ≡ None }
        ensures state { self.new ≡ after_call self.old (Release number) }
        ensures ended { result.ended + live_slices self.new ≡ live_slices self.old }
        ensures root { root_counts self.new + (if result.of_root then 1 else 0)
            ≡ root_counts self.old }
    {
        self.rows[number as usize].holds -= 1;
        let climbed = climb(&mut self.rows, number);
        LetGo {
            ended: climbed.ended,
            of_root: climbed.top == 0,
        }
    }
}
