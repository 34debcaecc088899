//! What of a chunk that is in use begins at a page.

ghost use Rattle.std.specs.Prelude.{◌≡◌, ◌<◌, ◌≤◌, ◌^◌, ◌↔◌, ℕ, true, All, IsTrue, length, replicate, slice_set, slice_index_or, IfOk, IfSome, IfNone, IsNone, Some};
ghost use Rattle.size_classes.specs.Elements.{is_out, is_full};
ghost use Rattle.subpage_bits.specs.Elements.{IsElementOf, given};
ghost use Rattle.pool_chunk.specs.declared.slot.PageUse.{PageUse};
ghost use Rattle.pool_chunk.specs.declared.slot.CutRun.{CutRun};
ghost use Rattle.pool_chunk.specs.Outcomes.{freed_by};
ghost use Rattle.pool_chunk.specs.Slots.{with_subpage, HandsOutOf};

use crate::chunk::Freed;
use crate::place::place_pack;
use ground::Piece;
use std::alloc::{AllocError, Global};
use std::mem::replace;
use subpage_bits::Subpage;

// A run that is cut into elements of a class.
pub(crate) struct CutRun {
    pub(crate) class: u32,
    pub(crate) pages: u32,
    pub(crate) subpage: Subpage,
}

// The run in use that begins at a page, if one does: how many pages it has, or its elements.
pub(crate) enum PageUse {
    Nothing,
    Run(u32),
    Cut(CutRun),
}

// For each page a chunk has a slot, and its map the memory of a run, two lengths of four bytes and a
// bit for each of 40 page classes: together at most a twentieth of a page of 8,192 bytes.
const _: () = prove!(
    size_of::<PageUse>() + size_of::<Option<Piece>>() + 2 * 4 + 40 / 8 <= 8192 / 20
);

impl PageUse {
    // Whether nothing begins there.
    pub(crate) fn is_nothing(&self) -> bool
        ensures { IsTrue result ↔ (self.now ≡ PageUse.Nothing) }
    {
        match self {
            PageUse::Nothing => true,
            PageUse::Run(_) => false,
            PageUse::Cut(_) => false,
        }
    }
}

impl CutRun {
    // The next element, and the word of its place, where the run begins at a page.
    pub(crate) fn hand_out(&mut self, page: u32) -> Option<(Piece, u64)>
        requires { (page < 2 ^ 15) × (self.old.pages < 2 ^ 15) }
        ensures full { IsNone result ↔ (is_full self.old.subpage.elements ≡ true) }
        ensures none { IfNone result (self.new ≡ self.old) }
        ensures some { IfSome result (λ x. HandsOutOf self.old self.new page x.0 x.1) }
    {
        match self.subpage.take() {
            None => None,
            Some((piece, i)) => Some((piece, place_pack(page, self.pages, true, true, i))),
        }
    }

    // An element that comes back.
    pub(crate) fn take_back(&mut self, piece: Piece, i: u32) -> Freed
        requires element { IsElementOf self.old.subpage i piece }
        requires out { is_out self.old.subpage.elements i ≡ true }
        ensures freed { result ≡ freed_by self.old.subpage.elements i }
        ensures run { self.new ≡ with_subpage self.old (given self.old.subpage i) }
    {
        self.subpage.give(piece, i);
        if self.subpage.is_empty() {
            Freed::Idle
        } else {
            Freed::Element
        }
    }
}

// So many pages at which nothing begins.
pub(crate) fn no_runs(alloc: Global, pages: usize) -> Result<Vec<PageUse>, AllocError>
    ensures { IfOk result (λ slots. slots.items ≡ replicate pages PageUse.Nothing) }
{
    let mut slots = Vec::with_capacity(alloc, pages)?;
    for _ in 0..pages {
        match slots.push(PageUse::Nothing) {
            Ok(()) => {}
            Err(_) => unreachable!(),
        }
    }
    Ok(slots)
}

// Gives the memory of the slots back, where nothing begins at any page.
pub(crate) fn spend(mut slots: Vec<PageUse>)
    requires { All (λ slot. slot ≡ PageUse.Nothing) slots.items }
{
    while let Some(slot) = slots.pop() {
        let PageUse::Nothing = slot else {
            unreachable!();
        };
    }
    slots.destroy_empty();
}

// What begins from now on at a page where nothing did.
pub(crate) fn fill(slots: &mut [PageUse], page: usize, slot: PageUse)
    requires within { page < length slots.old }
    requires nothing { (d : PageUse) → slice_index_or slots.old page d ≡ PageUse.Nothing }
    ensures { slots.new ≡ slice_set slots.old page slot }
{
    let was = replace(&mut slots[page], slot);
    let PageUse::Nothing = was else {
        unreachable!();
    };
}

// Nothing begins from now on at a page where a run did.
pub(crate) fn clear(slots: &mut [PageUse], page: usize)
    requires within { page < length slots.old }
    requires run { (pages : ℕ)
        × ((d : PageUse) → slice_index_or slots.old page d ≡ PageUse.Run pages) }
    ensures { slots.new ≡ slice_set slots.old page PageUse.Nothing }
{
    let was = replace(&mut slots[page], PageUse::Nothing);
    let PageUse::Run(_) = was else {
        unreachable!();
    };
}

// The run of elements that began at a page, where nothing begins from now on.
pub(crate) fn take_cut(slots: &mut [PageUse], page: usize) -> CutRun
    requires within { page < length slots.old }
    requires cut { (run : CutRun)
        × ((d : PageUse) → slice_index_or slots.old page d ≡ PageUse.Cut run) }
    ensures run { (d : PageUse) → slice_index_or slots.old page d ≡ PageUse.Cut result }
    ensures slots { slots.new ≡ slice_set slots.old page PageUse.Nothing }
{
    let begun = replace(&mut slots[page], PageUse::Nothing);
    let PageUse::Cut(run) = begun else {
        unreachable!();
    };
    run
}
